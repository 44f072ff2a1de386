// The number, the input and the record of each fault. What a fault does not carry is 0.
use super::report::Report;
use std::alloc::{AllocError, Global};
use store::Fault;

#[derive(Clone, Copy)]
struct Line {
    name: &'static str,
    fault: Fault,
    expected: &'static str,
}

static LINES: &[Line] = &[
    Line {
        name: "torn",
        fault: Fault::Torn,
        expected: "1 input 0 record 0",
    },
    Line {
        name: "no input",
        fault: Fault::NoInput,
        expected: "2 input 0 record 0",
    },
    Line {
        name: "crowd",
        fault: Fault::Crowd,
        expected: "3 input 0 record 0",
    },
    Line {
        name: "surplus",
        fault: Fault::Surplus,
        expected: "4 input 0 record 0",
    },
    Line {
        name: "malformed",
        fault: Fault::Malformed {
            input: 7,
            record: 9,
        },
        expected: "5 input 7 record 9",
    },
    Line {
        name: "ragged",
        fault: Fault::Ragged { input: 7 },
        expected: "6 input 7 record 0",
    },
    Line {
        name: "unlike",
        fault: Fault::Unlike {
            input: 7,
            record: 9,
        },
        expected: "7 input 7 record 9",
    },
    Line {
        name: "outside",
        fault: Fault::Outside { input: 7 },
        expected: "8 input 7 record 0",
    },
    Line {
        name: "kind",
        fault: Fault::Kind,
        expected: "9 input 0 record 0",
    },
    Line {
        name: "rows",
        fault: Fault::Rows { record: 9 },
        expected: "10 input 0 record 9",
    },
    Line {
        name: "run ends",
        fault: Fault::RunEnds { record: 9 },
        expected: "11 input 0 record 9",
    },
    Line {
        name: "offsets",
        fault: Fault::Offsets { record: 9 },
        expected: "12 input 0 record 9",
    },
    Line {
        name: "scratch",
        fault: Fault::Scratch { record: 9 },
        expected: "13 input 0 record 9",
    },
    Line {
        name: "keys",
        fault: Fault::Keys { record: 9 },
        expected: "14 input 0 record 9",
    },
    Line {
        name: "full",
        fault: Fault::Full,
        expected: "15 input 0 record 0",
    },
    Line {
        name: "unfinished",
        fault: Fault::Unfinished,
        expected: "16 input 0 record 0",
    },
];

// The number, the input and the record.
pub fn numbers(heap: Global, fault: Fault) -> Result<String, AllocError> {
    let n = fault.number();
    let i = fault.input();
    let r = fault.record();
    format!(in heap; "{n} input {i} record {r}")
}

fn try_line(report: &mut Report<'_>, line: Line) -> anyhow::Result<()> {
    let answer = numbers(report.heap(), line.fault)?;
    report.settle(line.name, answer.as_str(), line.expected)
}

pub fn run(report: &mut Report<'_>) -> anyhow::Result<()> {
    for line in LINES {
        try_line(report, *line)?;
    }
    Ok(())
}
