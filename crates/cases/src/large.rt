// Each field of each record at 2^32, 2^63 and 2^64 - 1, on columns that keep every rule. No such number is allowed in any field, so the
// record that has it is at fault; but a span below the first record counts at the parent.
use super::change::{Field, set_field};
use super::layout::{BITS, FLAT, INNER_FLAT, INNER_TEXT, KEYS, LIST, RUNS, STRUCT, TEXT, lay};
use super::report::{Report, first_broken, verdict};
use anyhow::anyhow;
use records::Record;
use std::alloc::Global;

#[derive(Clone, Copy)]
struct Target {
    name: &'static str,
    records: &'static [Record],
    // the record that is changed
    at: usize,
    // the fault where it is the span, and where it is another field
    span: u64,
    own: u64,
}

static TARGETS: &[Target] = &[
    Target {
        name: "flat",
        records: &[FLAT],
        at: 0,
        span: 0,
        own: 0,
    },
    Target {
        name: "flat with nulls",
        records: &[Record { nulls: 1, ..FLAT }],
        at: 0,
        span: 0,
        own: 0,
    },
    Target {
        name: "bits",
        records: &[BITS],
        at: 0,
        span: 0,
        own: 0,
    },
    Target {
        name: "text",
        records: &[TEXT],
        at: 0,
        span: 0,
        own: 0,
    },
    Target {
        name: "keys",
        records: &[KEYS, INNER_TEXT],
        at: 0,
        span: 0,
        own: 0,
    },
    Target {
        name: "text below keys",
        records: &[KEYS, INNER_TEXT],
        at: 1,
        span: 0,
        own: 1,
    },
    Target {
        name: "list",
        records: &[
            LIST,
            Record {
                length: 4,
                ..INNER_FLAT
            },
        ],
        at: 0,
        span: 0,
        own: 0,
    },
    Target {
        name: "flat below a list",
        records: &[
            LIST,
            Record {
                length: 4,
                ..INNER_FLAT
            },
        ],
        at: 1,
        span: 0,
        own: 1,
    },
    Target {
        name: "struct",
        records: &[Record { span: 2, ..STRUCT }, INNER_FLAT],
        at: 0,
        span: 0,
        own: 0,
    },
    Target {
        name: "flat below a struct",
        records: &[Record { span: 2, ..STRUCT }, INNER_FLAT],
        at: 1,
        span: 0,
        own: 1,
    },
    Target {
        name: "runs",
        records: &[RUNS, INNER_FLAT],
        at: 0,
        span: 0,
        own: 0,
    },
    Target {
        name: "flat below runs",
        records: &[RUNS, INNER_FLAT],
        at: 1,
        span: 0,
        own: 1,
    },
    Target {
        name: "keys below runs",
        records: &[
            Record { span: 3, ..RUNS },
            Record { root: 0, ..KEYS },
            INNER_TEXT,
        ],
        at: 1,
        span: 0,
        own: 1,
    },
    Target {
        name: "text below keys below runs",
        records: &[
            Record { span: 3, ..RUNS },
            Record { root: 0, ..KEYS },
            INNER_TEXT,
        ],
        at: 2,
        span: 1,
        own: 2,
    },
];

// In words, for the messages.
static FIELDS: &[(Field, &'static str)] = &[
    (Field::Root, "root"),
    (Field::Kind, "kind"),
    (Field::Width, "width"),
    (Field::Logic, "logic"),
    (Field::Size, "size"),
    (Field::Span, "span"),
    (Field::Start, "start"),
    (Field::Length, "length"),
    (Field::Nulls, "nulls"),
    (Field::V, "v"),
    (Field::A, "a"),
    (Field::B, "b"),
    (Field::Count, "count"),
];

static NUMBERS: &[u64] = &[1 << 32, 1 << 63, u64::MAX];

impl Target {
    fn fault(self, field: Field) -> u64 {
        match field {
            Field::Span => self.span,
            _ => self.own,
        }
    }
}

fn broken(heap: Global, target: Target, field: Field, number: u64) -> anyhow::Result<Option<u64>> {
    let mut column = lay(heap, target.records)?;
    set_field(&mut column.records, target.at, field, number)?;
    Ok(first_broken(&column, 0))
}

// One case: the answer is the same for all three numbers.
fn try_field(
    report: &mut Report<'_>,
    target: Target,
    field: Field,
    label: &str,
) -> anyhow::Result<()> {
    let heap = report.heap();
    let column = target.name;
    let wanted = target.fault(field);
    for number in NUMBERS {
        let answer = broken(heap, target, field, *number)?;
        if answer != Some(wanted) {
            return Err(anyhow!(format!(in heap;
                "{column}, {label} {number}: {answer:?}, and not record {wanted}"
            )?));
        }
    }
    let name = format!(in heap; "{column}, {label} 2^32, 2^63, 2^64 - 1")?;
    Ok(report.pass(name.as_str(), verdict(heap, Some(wanted))?.as_str())?)
}

pub fn run(report: &mut Report<'_>) -> anyhow::Result<()> {
    for target in TARGETS {
        for (field, label) in FIELDS {
            try_field(report, *target, *field, label)?;
        }
    }
    Ok(())
}
