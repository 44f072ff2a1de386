// The largest columns, and places.
use super::layout::{Column, FLAT, INNER_FLAT, INNER_STRUCT, LIST, STRUCT, lay};
use super::report::Report;
use records::Record;
use std::alloc::Global;

// A struct of n records.
fn root(heap: Global, n: u64) -> anyhow::Result<Column> {
    Ok(lay(heap, &[Record { span: n, ..STRUCT }])?)
}

// Its children side by side.
fn wide(heap: Global, n: usize) -> anyhow::Result<Column> {
    let mut column = root(heap, n as u64)?;
    column.records.resize(n, INNER_STRUCT)?;
    Ok(column)
}

// Its children one in another.
fn deep(heap: Global, n: u64) -> anyhow::Result<Column> {
    let mut column = root(heap, n)?;
    for span in (1..n).rev() {
        column.records.push(Record {
            span,
            ..INNER_STRUCT
        })?;
    }
    Ok(column)
}

fn try_sizes(report: &mut Report<'_>) -> anyhow::Result<()> {
    let heap = report.heap();
    let sizes = [
        ("64 records side by side", wide(heap, 64)?, None),
        ("65 records side by side", wide(heap, 65)?, Some(0)),
        ("64 records one in another", deep(heap, 64)?, None),
        ("65 records one in another", deep(heap, 65)?, Some(0)),
    ];
    for (name, column, expected) in &sizes {
        report.try_column(name, column, 0, *expected)?;
    }
    Ok(())
}

// A list over four values at place 0 and a flat column at place 2.
static PLACES: &[(u64, &'static str, Option<u64>)] = &[
    (0, "place 0 of 3", None),
    (1, "place 1 of 3, an inner record", Some(0)),
    (2, "place 2 of 3", None),
    (3, "place 3 of 3", Some(0)),
    (1 << 32, "place 2^32", Some(0)),
    (1 << 63, "place 2^63", Some(0)),
    (u64::MAX, "place 2^64 - 1", Some(0)),
];

fn try_places(report: &mut Report<'_>) -> anyhow::Result<()> {
    let two = lay(
        report.heap(),
        &[
            LIST,
            Record {
                length: 4,
                ..INNER_FLAT
            },
            FLAT,
        ],
    )?;
    for (place, name, expected) in PLACES {
        report.try_column(name, &two, *place, *expected)?;
    }
    Ok(())
}

pub fn run(report: &mut Report<'_>) -> anyhow::Result<()> {
    try_sizes(report)?;
    try_places(report)
}
