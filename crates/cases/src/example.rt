// Names by keys: the rows are ice, null, oak, ice. The buffers begin at multiples of 8.
use super::change::Change::{Byte, Bytes, Set};
use super::change::{Change, Field};
use super::layout::{Column, NOTHING};
use super::report::Report;
use records::{Kind, Record};

static RECORDS: &[Record] = &[
    Record {
        root: 1,
        kind: Kind::Dictionary as u64,
        width: 1,
        size: 1,
        span: 2,
        length: 4,
        nulls: 1,
        a: 8,
        ..NOTHING
    },
    Record {
        kind: Kind::Bytes as u64,
        width: 4,
        span: 1,
        length: 2,
        a: 16,
        b: 32,
        count: 6,
        ..NOTHING
    },
];

static BYTES: &[u8] = &[
    0x0d, 0, 0, 0, 0, 0, 0, 0, 0, 0, 1, 0, 0, 0, 0, 0, 0, 0, 0, 0, 3, 0, 0, 0, 6, 0, 0, 0, 0, 0, 0,
    0, 0x69, 0x63, 0x65, 0x6f, 0x61, 0x6b,
];

#[derive(Clone, Copy)]
struct Variant {
    name: &'static str,
    changes: &'static [Change],
    expected: Option<u64>,
}

static VARIANTS: &[Variant] = &[
    Variant {
        name: "names",
        changes: &[],
        expected: None,
    },
    Variant {
        name: "names, the key under the null row is ff",
        changes: &[Byte(9, 0xff)],
        expected: None,
    },
    Variant {
        name: "names, key 2",
        changes: &[Byte(10, 2)],
        expected: Some(0),
    },
    Variant {
        name: "names, key -1",
        changes: &[Byte(8, 0xff)],
        expected: Some(0),
    },
    Variant {
        name: "names, last offset 7",
        changes: &[Byte(24, 7)],
        expected: Some(1),
    },
    Variant {
        name: "names, offsets 0, 7, 6",
        changes: &[Byte(20, 7)],
        expected: Some(1),
    },
    Variant {
        name: "names, second offset negative",
        changes: &[Byte(23, 0x80)],
        expected: Some(1),
    },
    Variant {
        name: "names, byte mark 37",
        changes: &[Bytes(37)],
        expected: Some(1),
    },
    Variant {
        name: "names, one entry",
        changes: &[Set(1, Field::Length, 1)],
        expected: Some(0),
    },
    Variant {
        name: "names, entries with span 2",
        changes: &[Set(1, Field::Span, 2)],
        expected: Some(0),
    },
    Variant {
        name: "names, entries with root 1",
        changes: &[Set(1, Field::Root, 1)],
        expected: Some(1),
    },
    Variant {
        name: "names, keys with root 0",
        changes: &[Set(0, Field::Root, 0)],
        expected: Some(0),
    },
];

fn try_variant(report: &mut Report<'_>, variant: Variant) -> anyhow::Result<()> {
    let mut column = Column {
        records: RECORDS.to_vec(report.heap())?,
        bytes: BYTES.to_vec(report.heap())?,
    };
    column.change_all(variant.changes)?;
    report.try_column(variant.name, &column, 0, variant.expected)
}

pub fn run(report: &mut Report<'_>) -> anyhow::Result<()> {
    for variant in VARIANTS {
        try_variant(report, *variant)?;
    }
    Ok(())
}
