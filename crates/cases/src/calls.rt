// The calls: lists of steps, each on a store that begins empty.
use super::change::Change::{Byte, Set};
use super::change::Field;
use super::layout::{
    BITS, FLAT, INNER_BITS, INNER_FLAT, INNER_STRUCT, INNER_TEXT, KEYS, LIST, RUNS, STRUCT, TEXT,
};
use super::memory::Call::{Admit, Bytes, Cell, Lend, Marks, Slice, Spoil};
use super::memory::{Before, Call, Memory};
use super::report::Report;
use anyhow::anyhow;
use records::Record;

#[derive(Clone, Copy)]
struct Step {
    name: &'static str,
    call: Call,
    expected: &'static str,
}

// Memory of 6 records and 64 bytes.
static ADMITS: &[Step] = &[
    Step {
        name: "admit 13 bytes",
        call: Admit(
            &[Record {
                width: 1,
                length: 13,
                ..FLAT
            }],
            &[],
        ),
        expected: "place 0",
    },
    Step {
        name: "marks after 13 bytes",
        call: Marks,
        expected: "marks 1 13",
    },
    Step {
        name: "admit 4 bytes",
        call: Admit(&[Record { length: 1, ..FLAT }], &[]),
        expected: "place 1",
    },
    Step {
        name: "marks after 4 bytes",
        call: Marks,
        expected: "marks 2 20",
    },
    Step {
        name: "zeros from 13 to 15, then the bytes",
        call: Bytes(12, 21),
        expected: "x0c00000000010203ee",
    },
    Step {
        name: "first record, moved by 0",
        call: Call::Record(0),
        expected: "[1, 1, 1, 0, 0, 1, 0, 13, 0, 0, 0, 0, 0]",
    },
    Step {
        name: "second record, a moved by 16",
        call: Call::Record(1),
        expected: "[1, 1, 4, 0, 0, 1, 0, 1, 0, 0, 16, 0, 0]",
    },
    // a bitmap, two offsets and two letters: v 0, a 1, b 9
    Step {
        name: "admit text with nulls",
        call: Admit(
            &[Record {
                length: 1,
                nulls: 1,
                ..TEXT
            }],
            &[],
        ),
        expected: "place 2",
    },
    Step {
        name: "v, a and b moved by 24",
        call: Call::Record(2),
        expected: "[1, 3, 4, 0, 0, 1, 0, 1, 1, 24, 25, 33, 2]",
    },
    Step {
        name: "marks after text",
        call: Marks,
        expected: "marks 3 35",
    },
    Step {
        name: "admit a column with no bytes",
        call: Admit(&[STRUCT], &[]),
        expected: "place 3",
    },
    Step {
        name: "byte mark at the next multiple of 8",
        call: Marks,
        expected: "marks 4 40",
    },
    Step {
        name: "zeros from 35 to 39",
        call: Bytes(34, 41),
        expected: "x620000000000ee",
    },
    Step {
        name: "a of the struct is still 0",
        call: Call::Record(3),
        expected: "[1, 8, 0, 0, 0, 1, 0, 3, 0, 0, 0, 0, 0]",
    },
    Step {
        name: "admit no bytes at a multiple of 8",
        call: Admit(&[STRUCT], &[]),
        expected: "place 4",
    },
    Step {
        name: "byte mark stays",
        call: Marks,
        expected: "marks 5 40",
    },
    Step {
        name: "admit one record too many",
        call: Admit(&[KEYS, INNER_TEXT], &[]),
        expected: "refused 15 input 0 record 0",
    },
    Step {
        name: "admit one byte too many",
        call: Admit(
            &[Record {
                width: 1,
                length: 25,
                ..FLAT
            }],
            &[],
        ),
        expected: "refused 15 input 0 record 0",
    },
    Step {
        name: "admit a malformed column",
        call: Admit(&[FLAT], &[Set(0, Field::Kind, 0)]),
        expected: "refused 5 input 0 record 0",
    },
    Step {
        name: "admit a malformed child, one record too many",
        call: Admit(&[KEYS, INNER_TEXT], &[Set(1, Field::Logic, 65536)]),
        expected: "refused 5 input 0 record 1",
    },
    Step {
        name: "admit no records",
        call: Admit(&[], &[]),
        expected: "refused 5 input 0 record 0",
    },
    Step {
        name: "admit to the last record and byte",
        call: Admit(
            &[Record {
                width: 1,
                length: 24,
                ..FLAT
            }],
            &[],
        ),
        expected: "place 5",
    },
    Step {
        name: "marks at the ends",
        call: Marks,
        expected: "marks 6 64",
    },
    Step {
        name: "admit into full memory",
        call: Admit(&[STRUCT], &[]),
        expected: "refused 15 input 0 record 0",
    },
    Step {
        name: "row 0 of the first column",
        call: Cell(0, 0),
        expected: "bytes 0 x00",
    },
];

// Memory of 8 records and 64 bytes.
static MORE_ADMITS: &[Step] = &[
    // the second record is no part of the column, and its bytes come in all the same
    Step {
        name: "admit the first of two columns",
        call: Admit(&[FLAT, FLAT], &[]),
        expected: "place 0",
    },
    Step {
        name: "marks after one record, 24 bytes",
        call: Marks,
        expected: "marks 1 24",
    },
    Step {
        name: "the next record is not written",
        call: Call::Record(1),
        expected: "[238, 238, 238, 238, 238, 238, 238, 238, 238, 238, 238, 238, 238]",
    },
    // 1 key bitmap, 2 keys, 3 offsets of 4 bytes, 4 letters
    Step {
        name: "admit keys over text",
        call: Admit(
            &[
                Record {
                    length: 2,
                    nulls: 1,
                    ..KEYS
                },
                Record {
                    length: 2,
                    ..INNER_TEXT
                },
            ],
            &[],
        ),
        expected: "place 1",
    },
    Step {
        name: "v and a of the keys moved by 24",
        call: Call::Record(1),
        expected: "[1, 4, 1, 0, 0, 2, 0, 2, 1, 24, 25, 0, 0]",
    },
    Step {
        name: "a and b of the entries moved by 24",
        call: Call::Record(2),
        expected: "[0, 3, 4, 0, 0, 1, 0, 2, 0, 0, 27, 39, 4]",
    },
    // run ends of 2 bytes each, then 3 bytes; count is no place
    Step {
        name: "admit runs",
        call: Admit(&[RUNS, INNER_FLAT], &[]),
        expected: "place 3",
    },
    Step {
        name: "a of the runs moved by 48",
        call: Call::Record(3),
        expected: "[1, 9, 2, 0, 0, 2, 0, 5, 0, 0, 48, 0, 3]",
    },
    Step {
        name: "marks after runs",
        call: Marks,
        expected: "marks 5 57",
    },
];

// Memory of 4 records and 13 bytes: the next multiple of 8 lies beyond the end.
static ODD_MEMORY: &[Step] = &[
    Step {
        name: "admit to the last of 13 bytes",
        call: Admit(
            &[Record {
                width: 1,
                length: 13,
                ..FLAT
            }],
            &[],
        ),
        expected: "place 0",
    },
    Step {
        name: "admit no bytes after the last",
        call: Admit(&[STRUCT], &[]),
        expected: "refused 15 input 0 record 0",
    },
    Step {
        name: "marks after it",
        call: Marks,
        expected: "marks 1 13",
    },
    Step {
        name: "slice after the last byte",
        call: Slice(0, 12, 1),
        expected: "place 1",
    },
    Step {
        name: "the last byte",
        call: Cell(1, 0),
        expected: "bytes 12 x0c",
    },
];

// Memory of 15 records and 64 bytes. The keys are 1, 0, 1 at bytes 0 to 2; the entries are ab, cd, with offsets at 3 and letters at 15.
static SLICES: &[Step] = &[
    Step {
        name: "admit keys for slices",
        call: Admit(
            &[
                KEYS,
                Record {
                    length: 2,
                    ..INNER_TEXT
                },
            ],
            &[],
        ),
        expected: "place 0",
    },
    Step {
        name: "slice of the whole",
        call: Slice(0, 0, 3),
        expected: "place 2",
    },
    Step {
        name: "whole, first record",
        call: Call::Record(2),
        expected: "[1, 4, 1, 0, 0, 2, 0, 3, 0, 0, 0, 0, 0]",
    },
    Step {
        name: "whole, second record",
        call: Call::Record(3),
        expected: "[0, 3, 4, 0, 0, 1, 0, 2, 0, 0, 3, 15, 4]",
    },
    Step {
        name: "empty slice at the end",
        call: Slice(0, 3, 0),
        expected: "place 4",
    },
    Step {
        name: "empty, first record",
        call: Call::Record(4),
        expected: "[1, 4, 1, 0, 0, 2, 3, 0, 0, 0, 0, 0, 0]",
    },
    Step {
        name: "cell of an empty slice",
        call: Cell(4, 0),
        expected: "refused 8 input 0 record 0",
    },
    Step {
        name: "slice of the first row",
        call: Slice(0, 0, 1),
        expected: "place 6",
    },
    Step {
        name: "the first row, second record",
        call: Call::Record(7),
        expected: "[0, 3, 4, 0, 0, 1, 0, 2, 0, 0, 3, 15, 4]",
    },
    Step {
        name: "slice of the last row",
        call: Slice(0, 2, 1),
        expected: "place 8",
    },
    Step {
        name: "the last row",
        call: Cell(8, 0),
        expected: "bytes 17 x6364",
    },
    Step {
        name: "slice outside by one row",
        call: Slice(0, 2, 2),
        expected: "refused 8 input 0 record 0",
    },
    Step {
        name: "slice of one row too many",
        call: Slice(0, 0, 4),
        expected: "refused 8 input 0 record 0",
    },
    Step {
        name: "empty slice outside",
        call: Slice(0, 4, 0),
        expected: "refused 8 input 0 record 0",
    },
    Step {
        name: "slice of 2^64 - 1 rows",
        call: Slice(0, 0, u64::MAX),
        expected: "refused 8 input 0 record 0",
    },
    Step {
        name: "slice of 2^64 - 1 rows from 1",
        call: Slice(0, 1, u64::MAX),
        expected: "refused 8 input 0 record 0",
    },
    Step {
        name: "slice of 1 row from 2^64 - 1",
        call: Slice(0, u64::MAX, 1),
        expected: "refused 8 input 0 record 0",
    },
    Step {
        name: "slice of the last two rows",
        call: Slice(0, 1, 2),
        expected: "place 10",
    },
    Step {
        name: "slice of a slice",
        call: Slice(10, 1, 1),
        expected: "place 12",
    },
    Step {
        name: "the starts add up",
        call: Call::Record(12),
        expected: "[1, 4, 1, 0, 0, 2, 2, 1, 0, 0, 0, 0, 0]",
    },
    Step {
        name: "the row of a slice of a slice",
        call: Cell(12, 0),
        expected: "bytes 17 x6364",
    },
    Step {
        name: "slice of a slice, outside by one row",
        call: Slice(10, 1, 2),
        expected: "refused 8 input 0 record 0",
    },
    Step {
        name: "marks after slices",
        call: Marks,
        expected: "marks 14 19",
    },
    Step {
        name: "slice, one record too many",
        call: Slice(0, 0, 0),
        expected: "refused 15 input 0 record 0",
    },
    Step {
        name: "slice outside, one record too many",
        call: Slice(0, 0, 4),
        expected: "refused 8 input 0 record 0",
    },
    Step {
        name: "slice of an inner record",
        call: Slice(1, 0, 0),
        expected: "refused 5 input 0 record 0",
    },
    Step {
        name: "slice at the mark",
        call: Slice(14, 0, 0),
        expected: "refused 5 input 0 record 0",
    },
    Step {
        name: "slice at place 2^64 - 1",
        call: Slice(u64::MAX, 0, 0),
        expected: "refused 5 input 0 record 0",
    },
    Step {
        name: "the first record of all",
        call: Call::Record(0),
        expected: "[1, 4, 1, 0, 0, 2, 0, 3, 0, 0, 0, 0, 0]",
    },
];

// Memory of 16 records and 128 bytes.
static VALUES: &[Step] = &[
    // a bitmap at 0, values from 1 on
    Step {
        name: "admit flat with nulls",
        call: Admit(&[Record { nulls: 1, ..FLAT }], &[]),
        expected: "place 0",
    },
    Step {
        name: "flat, row 0",
        call: Cell(0, 0),
        expected: "bytes 1 x00010203",
    },
    Step {
        name: "flat, null row",
        call: Cell(0, 1),
        expected: "null",
    },
    Step {
        name: "flat, last row",
        call: Cell(0, 2),
        expected: "bytes 9 x08090a0b",
    },
    Step {
        name: "flat, row outside",
        call: Cell(0, 3),
        expected: "refused 8 input 0 record 0",
    },
    Step {
        name: "flat, row 2^64 - 1",
        call: Cell(0, u64::MAX),
        expected: "refused 8 input 0 record 0",
    },
    // values from 16 on
    Step {
        name: "admit flat from 1",
        call: Admit(
            &[Record {
                width: 1,
                start: 1,
                length: 2,
                ..FLAT
            }],
            &[],
        ),
        expected: "place 1",
    },
    Step {
        name: "flat from 1, row 0",
        call: Cell(1, 0),
        expected: "bytes 17 x01",
    },
    Step {
        name: "flat from 1, row outside",
        call: Cell(1, 2),
        expected: "refused 8 input 0 record 0",
    },
    // a bitmap at 24, bits at 26
    Step {
        name: "admit bits with nulls",
        call: Admit(
            &[Record {
                length: 10,
                nulls: 1,
                ..BITS
            }],
            &[],
        ),
        expected: "place 2",
    },
    Step {
        name: "bits, row 0",
        call: Cell(2, 0),
        expected: "bit 1",
    },
    Step {
        name: "bits, null row",
        call: Cell(2, 1),
        expected: "null",
    },
    Step {
        name: "bits, row 7",
        call: Cell(2, 7),
        expected: "bit 0",
    },
    Step {
        name: "bits, row 8",
        call: Cell(2, 8),
        expected: "bit 1",
    },
    Step {
        name: "bits, null row 9",
        call: Cell(2, 9),
        expected: "null",
    },
    // at byte 32; 05 has bits 0 and 2
    Step {
        name: "admit bits from 1",
        call: Admit(
            &[Record {
                start: 1,
                length: 2,
                ..BITS
            }],
            &[],
        ),
        expected: "place 3",
    },
    Step {
        name: "bits from 1, row 0",
        call: Cell(3, 0),
        expected: "bit 0",
    },
    Step {
        name: "bits from 1, row 1",
        call: Cell(3, 1),
        expected: "bit 1",
    },
    // a bitmap at 40, offsets at 41, letters at 57
    Step {
        name: "admit text with nulls for cells",
        call: Admit(&[Record { nulls: 1, ..TEXT }], &[]),
        expected: "place 4",
    },
    Step {
        name: "text, row 0",
        call: Cell(4, 0),
        expected: "bytes 57 x6162",
    },
    Step {
        name: "text, null row",
        call: Cell(4, 1),
        expected: "null",
    },
    Step {
        name: "text, last row",
        call: Cell(4, 2),
        expected: "bytes 61 x6566",
    },
    // offsets 0, 0, of 8 bytes each, at 64; letters at 80
    Step {
        name: "admit an empty text",
        call: Admit(
            &[Record {
                width: 8,
                length: 1,
                ..TEXT
            }],
            &[Byte(8, 0)],
        ),
        expected: "place 5",
    },
    Step {
        name: "empty text",
        call: Cell(5, 0),
        expected: "bytes 80 x",
    },
    Step {
        name: "cell of a place that is not there",
        call: Cell(6, 0),
        expected: "refused 5 input 0 record 0",
    },
    Step {
        name: "cell at place 2^64 - 1",
        call: Cell(u64::MAX, 0),
        expected: "refused 5 input 0 record 0",
    },
    Step {
        name: "marks after values",
        call: Marks,
        expected: "marks 6 82",
    },
];

// Memory of 24 records and 128 bytes.
static LEADS: &[Step] = &[
    // bitmap at 0, keys 1, 0, 1, 0 at 1; the entries' bitmap at 5, offsets at 6, letters at 18: entry 1 is null
    Step {
        name: "admit keys over text with nulls",
        call: Admit(
            &[
                Record {
                    length: 4,
                    nulls: 1,
                    ..KEYS
                },
                Record {
                    length: 2,
                    nulls: 1,
                    ..INNER_TEXT
                },
            ],
            &[],
        ),
        expected: "place 0",
    },
    Step {
        name: "key to a null entry",
        call: Cell(0, 0),
        expected: "null",
    },
    Step {
        name: "keys, null row",
        call: Cell(0, 1),
        expected: "null",
    },
    Step {
        name: "keys, row 3",
        call: Cell(0, 3),
        expected: "bytes 18 x6162",
    },
    Step {
        name: "keys, row outside",
        call: Cell(0, 4),
        expected: "refused 8 input 0 record 0",
    },
    Step {
        name: "cell of an inner record",
        call: Cell(1, 0),
        expected: "refused 5 input 0 record 0",
    },
    // keys 1, 0, 1 at 24, values 0 to 4 at 27: entry k is value k + 3
    Step {
        name: "admit keys from 1 over flat from 3",
        call: Admit(
            &[
                Record {
                    start: 1,
                    length: 2,
                    ..KEYS
                },
                Record {
                    start: 3,
                    length: 2,
                    ..INNER_FLAT
                },
            ],
            &[],
        ),
        expected: "place 2",
    },
    Step {
        name: "keys from 1, row 0",
        call: Cell(2, 0),
        expected: "bytes 30 x03",
    },
    Step {
        name: "keys from 1, row 1",
        call: Cell(2, 1),
        expected: "bytes 31 x04",
    },
    // run ends 2, 4, 6 at 32, values at 38
    Step {
        name: "admit runs over flat",
        call: Admit(&[RUNS, INNER_FLAT], &[]),
        expected: "place 4",
    },
    Step {
        name: "runs, row 0",
        call: Cell(4, 0),
        expected: "bytes 38 x00",
    },
    Step {
        name: "runs, row 1",
        call: Cell(4, 1),
        expected: "bytes 38 x00",
    },
    Step {
        name: "runs, row 2",
        call: Cell(4, 2),
        expected: "bytes 39 x01",
    },
    Step {
        name: "runs, row 4",
        call: Cell(4, 4),
        expected: "bytes 40 x02",
    },
    Step {
        name: "runs, row outside",
        call: Cell(4, 5),
        expected: "refused 8 input 0 record 0",
    },
    // run ends at 48, values at 54
    Step {
        name: "admit runs from 3",
        call: Admit(
            &[
                Record {
                    start: 3,
                    length: 2,
                    ..RUNS
                },
                INNER_FLAT,
            ],
            &[],
        ),
        expected: "place 6",
    },
    Step {
        name: "runs from 3, row 0",
        call: Cell(6, 0),
        expected: "bytes 55 x01",
    },
    Step {
        name: "runs from 3, row 1",
        call: Cell(6, 1),
        expected: "bytes 56 x02",
    },
    // run ends 2, 4 at 64; the keys' bitmap at 68, keys 1, 0 at 69; offsets at 71, letters at 83
    Step {
        name: "admit runs over keys over text",
        call: Admit(
            &[
                Record {
                    span: 3,
                    length: 4,
                    count: 2,
                    ..RUNS
                },
                Record {
                    root: 0,
                    length: 2,
                    nulls: 1,
                    ..KEYS
                },
                Record {
                    length: 2,
                    ..INNER_TEXT
                },
            ],
            &[],
        ),
        expected: "place 8",
    },
    Step {
        name: "runs and keys, row 1",
        call: Cell(8, 1),
        expected: "bytes 85 x6364",
    },
    Step {
        name: "runs to a null key",
        call: Cell(8, 2),
        expected: "null",
    },
    // keys 1, 0, 1 at 88, run end 2 at 91, one bit at 93
    Step {
        name: "admit keys over runs over bits",
        call: Admit(
            &[
                Record { span: 3, ..KEYS },
                Record {
                    root: 0,
                    length: 2,
                    count: 1,
                    ..RUNS
                },
                Record {
                    length: 1,
                    ..INNER_BITS
                },
            ],
            &[],
        ),
        expected: "place 11",
    },
    Step {
        name: "keys, runs and bits, row 0",
        call: Cell(11, 0),
        expected: "bit 1",
    },
    // run ends 2, 4, 6 at 96; the values' bitmap at 102: value 1 is null
    Step {
        name: "admit runs over flat with nulls",
        call: Admit(
            &[
                RUNS,
                Record {
                    nulls: 1,
                    ..INNER_FLAT
                },
            ],
            &[],
        ),
        expected: "place 14",
    },
    Step {
        name: "run of a null value",
        call: Cell(14, 3),
        expected: "null",
    },
    Step {
        name: "run after a null value",
        call: Cell(14, 4),
        expected: "bytes 105 x02",
    },
    Step {
        name: "marks after keys and runs",
        call: Marks,
        expected: "marks 16 106",
    },
];

// Memory of 16 records and 64 bytes.
static NO_VALUES: &[Step] = &[
    Step {
        name: "admit a list with nulls",
        call: Admit(
            &[
                Record { nulls: 1, ..LIST },
                Record {
                    length: 4,
                    ..INNER_FLAT
                },
            ],
            &[],
        ),
        expected: "place 0",
    },
    Step {
        name: "cell of a list",
        call: Cell(0, 0),
        expected: "refused 9 input 0 record 0",
    },
    Step {
        name: "null row of a list",
        call: Cell(0, 1),
        expected: "refused 9 input 0 record 0",
    },
    Step {
        name: "list, row outside",
        call: Cell(0, 2),
        expected: "refused 8 input 0 record 0",
    },
    Step {
        name: "admit a struct with nulls",
        call: Admit(
            &[
                Record {
                    span: 2,
                    nulls: 1,
                    ..STRUCT
                },
                INNER_FLAT,
            ],
            &[],
        ),
        expected: "place 2",
    },
    Step {
        name: "cell of a struct",
        call: Cell(2, 0),
        expected: "refused 9 input 0 record 0",
    },
    Step {
        name: "null row of a struct",
        call: Cell(2, 1),
        expected: "refused 9 input 0 record 0",
    },
    Step {
        name: "struct, row outside",
        call: Cell(2, 3),
        expected: "refused 8 input 0 record 0",
    },
    Step {
        name: "admit keys over a struct",
        call: Admit(&[Record { nulls: 1, ..KEYS }, INNER_STRUCT], &[]),
        expected: "place 4",
    },
    Step {
        name: "keys to a struct",
        call: Cell(4, 0),
        expected: "refused 9 input 0 record 0",
    },
    Step {
        name: "null key to a struct",
        call: Cell(4, 1),
        expected: "refused 9 input 0 record 0",
    },
    // the flat column after the struct is no child of the runs
    Step {
        name: "admit runs over a struct",
        call: Admit(&[RUNS, INNER_STRUCT], &[]),
        expected: "place 6",
    },
    Step {
        name: "admit flat after it",
        call: Admit(&[FLAT], &[]),
        expected: "place 8",
    },
    Step {
        name: "runs to a struct",
        call: Cell(6, 0),
        expected: "refused 9 input 0 record 0",
    },
    Step {
        name: "the flat column after it",
        call: Cell(8, 1),
        expected: "bytes 52 x04050607",
    },
];

// Memory of 4 records and 40 bytes. Marks 3 and 28.
static FEWER_RECORDS: &[Step] = &[
    Step {
        name: "admit keys for torn memory",
        call: Admit(
            &[
                KEYS,
                Record {
                    length: 2,
                    ..INNER_TEXT
                },
            ],
            &[],
        ),
        expected: "place 0",
    },
    Step {
        name: "admit flat for torn memory",
        call: Admit(&[Record { length: 1, ..FLAT }], &[]),
        expected: "place 2",
    },
    Step {
        name: "records up to the mark",
        call: Lend(3, 40),
        expected: "memory 3 40",
    },
    Step {
        name: "cell at the end of the records",
        call: Cell(2, 0),
        expected: "bytes 24 x00010203",
    },
    Step {
        name: "one record below the mark",
        call: Lend(2, 40),
        expected: "memory 2 40",
    },
    Step {
        name: "cell, records torn",
        call: Cell(0, 0),
        expected: "refused 1 input 0 record 0",
    },
    Step {
        name: "cell at no place, records torn",
        call: Cell(9, 0),
        expected: "refused 1 input 0 record 0",
    },
    Step {
        name: "slice, records torn",
        call: Slice(0, 0, 1),
        expected: "refused 1 input 0 record 0",
    },
    Step {
        name: "admit, records torn",
        call: Admit(&[FLAT], &[]),
        expected: "refused 1 input 0 record 0",
    },
    Step {
        name: "admit a malformed column, records torn",
        call: Admit(&[], &[]),
        expected: "refused 1 input 0 record 0",
    },
];

static FEWER_BYTES: &[Step] = &[
    Step {
        name: "admit flat for torn bytes",
        call: Admit(&[Record { length: 1, ..FLAT }], &[]),
        expected: "place 0",
    },
    Step {
        name: "bytes up to the mark",
        call: Lend(4, 4),
        expected: "memory 4 4",
    },
    Step {
        name: "cell at the end of the bytes",
        call: Cell(0, 0),
        expected: "bytes 0 x00010203",
    },
    Step {
        name: "slice at the end of the bytes",
        call: Slice(0, 0, 1),
        expected: "place 1",
    },
    Step {
        name: "one byte below the mark",
        call: Lend(4, 3),
        expected: "memory 4 3",
    },
    Step {
        name: "cell, bytes torn",
        call: Cell(0, 0),
        expected: "refused 1 input 0 record 0",
    },
    Step {
        name: "slice, bytes torn",
        call: Slice(0, 0, 1),
        expected: "refused 1 input 0 record 0",
    },
    Step {
        name: "admit, bytes torn",
        call: Admit(&[STRUCT], &[]),
        expected: "refused 1 input 0 record 0",
    },
];

// A column that the caller has overwritten. Memory of 4 records and 40 bytes.
static OVERWRITTEN: &[Step] = &[
    Step {
        name: "admit keys to be spoiled",
        call: Admit(
            &[
                KEYS,
                Record {
                    length: 2,
                    ..INNER_TEXT
                },
            ],
            &[],
        ),
        expected: "place 0",
    },
    Step {
        name: "a byte place beyond the mark",
        call: Spoil(1, Field::B, 16),
        expected: "[0, 3, 4, 0, 0, 1, 0, 2, 0, 0, 3, 16, 4]",
    },
    Step {
        name: "cell of a spoiled column",
        call: Cell(0, 0),
        expected: "refused 5 input 0 record 1",
    },
    Step {
        name: "cell outside a spoiled column",
        call: Cell(0, 9),
        expected: "refused 5 input 0 record 1",
    },
    Step {
        name: "slice of a spoiled column",
        call: Slice(0, 0, 1),
        expected: "refused 5 input 0 record 1",
    },
    Step {
        name: "admit beside a spoiled column",
        call: Admit(&[Record { length: 1, ..FLAT }], &[]),
        expected: "place 2",
    },
    Step {
        name: "cell beside a spoiled column",
        call: Cell(2, 0),
        expected: "bytes 24 x00010203",
    },
    // the byte mark is 28 now, and the letters end at 20
    Step {
        name: "the letters one byte further on",
        call: Cell(0, 0),
        expected: "bytes 18 x6400",
    },
];

// One of the calls of the store.
fn is_store_call(call: Call) -> bool {
    matches!(call, Admit(..) | Slice(..) | Cell(..))
}

// A call writes between the old marks and the new; refused, which the text of its answer tells, it moves neither mark.
fn keeps_rest(memory: &Memory, before: &Before, answer: &str) -> bool {
    memory.keeps(before) && (!answer.starts_with("refused") || memory.has_marks_of(before))
}

fn try_step(report: &mut Report<'_>, memory: &mut Memory, step: Step) -> anyhow::Result<()> {
    let before = memory.copied()?;
    let answer = memory.call(step.call)?;
    if is_store_call(step.call) && !keeps_rest(memory, &before, answer.as_str()) {
        let name = step.name;
        return Err(anyhow!(format!(in report.heap(); "{name}: memory has changed elsewhere")?));
    }
    report.settle(step.name, answer.as_str(), step.expected)
}

fn run_steps(
    report: &mut Report<'_>,
    records: usize,
    bytes: usize,
    steps: &[Step],
) -> anyhow::Result<()> {
    let mut memory = Memory::new(report.heap(), records, bytes)?;
    for step in steps {
        try_step(report, &mut memory, *step)?;
    }
    Ok(())
}

pub fn run(report: &mut Report<'_>) -> anyhow::Result<()> {
    for (records, bytes, steps) in [
        (6, 64, ADMITS),
        (8, 64, MORE_ADMITS),
        (4, 13, ODD_MEMORY),
        (15, 64, SLICES),
        (16, 128, VALUES),
        (24, 128, LEADS),
        (16, 64, NO_VALUES),
        (4, 40, FEWER_RECORDS),
        (4, 40, FEWER_BYTES),
        (4, 40, OVERWRITTEN),
    ] {
        run_steps(report, records, bytes, steps)?;
    }
    Ok(())
}
