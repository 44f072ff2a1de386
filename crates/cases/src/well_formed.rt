// Columns at the limits of what is well formed.
use super::case::{Case, try_all};
use super::change::Change::{Byte, Bytes, Set};
use super::change::Field;
use super::layout::{
    BITS, FLAT, INNER_BITS, INNER_FLAT, INNER_STRUCT, INNER_TEXT, KEYS, LIST, RUNS, STRUCT, TEXT,
};
use super::report::Report;
use records::Record;

static PLAIN: &[Case] = &[
    Case {
        name: "flat, no rows",
        records: &[Record { length: 0, ..FLAT }],
        changes: &[],
        expected: None,
    },
    Case {
        name: "flat, no rows from 5",
        records: &[Record {
            start: 5,
            length: 0,
            ..FLAT
        }],
        changes: &[],
        expected: None,
    },
    Case {
        name: "flat from 5",
        records: &[Record { start: 5, ..FLAT }],
        changes: &[],
        expected: None,
    },
    Case {
        name: "flat, width 1",
        records: &[Record { width: 1, ..FLAT }],
        changes: &[],
        expected: None,
    },
    Case {
        name: "flat, width 2",
        records: &[Record { width: 2, ..FLAT }],
        changes: &[],
        expected: None,
    },
    Case {
        name: "flat, width 8",
        records: &[Record { width: 8, ..FLAT }],
        changes: &[],
        expected: None,
    },
    Case {
        name: "flat, width 16",
        records: &[Record { width: 16, ..FLAT }],
        changes: &[],
        expected: None,
    },
    Case {
        name: "flat, width 32",
        records: &[Record { width: 32, ..FLAT }],
        changes: &[],
        expected: None,
    },
    Case {
        name: "flat, logic 65535",
        records: &[Record {
            logic: 65535,
            ..FLAT
        }],
        changes: &[],
        expected: None,
    },
    Case {
        name: "flat with nulls",
        records: &[Record { nulls: 1, ..FLAT }],
        changes: &[],
        expected: None,
    },
    // 9 bytes in all: the bitmap of 8 bits is the last of them
    Case {
        name: "validity in the last byte",
        records: &[Record {
            width: 1,
            length: 8,
            nulls: 1,
            ..FLAT
        }],
        changes: &[Set(0, Field::V, 8)],
        expected: None,
    },
    // 11 bytes in all: the bitmap of 9 bits is the last two
    Case {
        name: "validity in the last two bytes",
        records: &[Record {
            width: 1,
            length: 9,
            nulls: 1,
            ..FLAT
        }],
        changes: &[Set(0, Field::V, 9)],
        expected: None,
    },
    Case {
        name: "no values at the end of the bytes",
        records: &[Record { length: 0, ..FLAT }, FLAT],
        changes: &[Set(0, Field::A, 12)],
        expected: None,
    },
    Case {
        name: "bits, no rows",
        records: &[Record { length: 0, ..BITS }],
        changes: &[],
        expected: None,
    },
    Case {
        name: "bits, 8 in one byte",
        records: &[Record { length: 8, ..BITS }],
        changes: &[],
        expected: None,
    },
    Case {
        name: "bits, 9 in two bytes",
        records: &[Record { length: 9, ..BITS }],
        changes: &[],
        expected: None,
    },
    Case {
        name: "bits, 3 from 5 in one byte",
        records: &[Record { start: 5, ..BITS }],
        changes: &[],
        expected: None,
    },
    Case {
        name: "bits with nulls",
        records: &[Record { nulls: 1, ..BITS }],
        changes: &[],
        expected: None,
    },
    Case {
        name: "struct, no child",
        records: &[STRUCT],
        changes: &[],
        expected: None,
    },
    Case {
        name: "struct, no child, no rows",
        records: &[Record {
            length: 0,
            ..STRUCT
        }],
        changes: &[],
        expected: None,
    },
    Case {
        name: "struct, no child, with nulls",
        records: &[Record { nulls: 1, ..STRUCT }],
        changes: &[],
        expected: None,
    },
    Case {
        name: "4294967295 rows",
        records: &[Record {
            length: 4294967295,
            ..STRUCT
        }],
        changes: &[],
        expected: None,
    },
    Case {
        name: "no rows from 4294967295",
        records: &[Record {
            start: 4294967295,
            length: 0,
            ..STRUCT
        }],
        changes: &[],
        expected: None,
    },
    Case {
        name: "struct, three children",
        records: &[
            Record { span: 4, ..STRUCT },
            INNER_FLAT,
            INNER_BITS,
            INNER_TEXT,
        ],
        changes: &[],
        expected: None,
    },
    Case {
        name: "struct from 1, longer child",
        records: &[
            Record {
                span: 2,
                start: 1,
                length: 2,
                ..STRUCT
            },
            INNER_FLAT,
        ],
        changes: &[],
        expected: None,
    },
    Case {
        name: "struct in a struct",
        records: &[Record { span: 3, ..STRUCT }, INNER_STRUCT, INNER_STRUCT],
        changes: &[],
        expected: None,
    },
];

// The four offsets of TEXT are bytes 0 to 15: 0, 2, 4, 6; its letters are bytes 16 to 21.
static TEXTS: &[Case] = &[
    Case {
        name: "text, no rows",
        records: &[Record { length: 0, ..TEXT }],
        changes: &[],
        expected: None,
    },
    Case {
        name: "text, no rows from 3",
        records: &[Record {
            start: 3,
            length: 0,
            ..TEXT
        }],
        changes: &[],
        expected: None,
    },
    Case {
        name: "text from 5",
        records: &[Record { start: 5, ..TEXT }],
        changes: &[],
        expected: None,
    },
    Case {
        name: "text, width 4",
        records: &[TEXT],
        changes: &[],
        expected: None,
    },
    Case {
        name: "text, width 8",
        records: &[Record { width: 8, ..TEXT }],
        changes: &[],
        expected: None,
    },
    Case {
        name: "text with nulls",
        records: &[Record { nulls: 1, ..TEXT }],
        changes: &[],
        expected: None,
    },
    Case {
        name: "text, one row empty",
        records: &[TEXT],
        changes: &[Byte(4, 4)],
        expected: None,
    },
    Case {
        name: "text, first offset 1",
        records: &[TEXT],
        changes: &[Byte(0, 1)],
        expected: None,
    },
    Case {
        name: "text, last offset below count",
        records: &[TEXT],
        changes: &[Byte(12, 5)],
        expected: None,
    },
    Case {
        name: "text, negative offset before start",
        records: &[Record {
            start: 1,
            length: 2,
            ..TEXT
        }],
        changes: &[Byte(3, 0x80)],
        expected: None,
    },
    Case {
        name: "text, fall before start",
        records: &[Record {
            start: 1,
            length: 2,
            ..TEXT
        }],
        changes: &[Byte(0, 99)],
        expected: None,
    },
    Case {
        name: "text, no bytes at the end of the bytes",
        records: &[Record { length: 0, ..TEXT }],
        changes: &[Set(0, Field::B, 4)],
        expected: None,
    },
    Case {
        name: "text, no bytes at 0",
        records: &[Record { length: 0, ..TEXT }],
        changes: &[Set(0, Field::B, 0)],
        expected: None,
    },
];

static DICTIONARIES: &[Case] = &[
    Case {
        name: "keys, width 1",
        records: &[KEYS, INNER_TEXT],
        changes: &[],
        expected: None,
    },
    Case {
        name: "keys, width 2",
        records: &[Record { width: 2, ..KEYS }, INNER_TEXT],
        changes: &[],
        expected: None,
    },
    Case {
        name: "keys, width 4",
        records: &[Record { width: 4, ..KEYS }, INNER_TEXT],
        changes: &[],
        expected: None,
    },
    Case {
        name: "keys, width 8",
        records: &[Record { width: 8, ..KEYS }, INNER_TEXT],
        changes: &[],
        expected: None,
    },
    Case {
        name: "signed keys, width 1",
        records: &[Record { size: 1, ..KEYS }, INNER_TEXT],
        changes: &[],
        expected: None,
    },
    Case {
        name: "signed keys, width 2",
        records: &[
            Record {
                size: 1,
                width: 2,
                ..KEYS
            },
            INNER_TEXT,
        ],
        changes: &[],
        expected: None,
    },
    Case {
        name: "signed keys, width 4",
        records: &[
            Record {
                size: 1,
                width: 4,
                ..KEYS
            },
            INNER_TEXT,
        ],
        changes: &[],
        expected: None,
    },
    Case {
        name: "signed keys, width 8",
        records: &[
            Record {
                size: 1,
                width: 8,
                ..KEYS
            },
            INNER_TEXT,
        ],
        changes: &[],
        expected: None,
    },
    Case {
        name: "keys from 5",
        records: &[Record { start: 5, ..KEYS }, INNER_TEXT],
        changes: &[],
        expected: None,
    },
    Case {
        name: "no keys, no entries",
        records: &[
            Record { length: 0, ..KEYS },
            Record {
                length: 0,
                ..INNER_TEXT
            },
        ],
        changes: &[],
        expected: None,
    },
    Case {
        name: "null row, no entries",
        records: &[
            Record {
                start: 1,
                length: 1,
                nulls: 1,
                ..KEYS
            },
            Record {
                length: 0,
                ..INNER_TEXT
            },
        ],
        changes: &[],
        expected: None,
    },
    // a bitmap of one byte, then the keys: byte 2 is the key of row 1, which is null
    Case {
        name: "key without entry under a null row",
        records: &[Record { nulls: 1, ..KEYS }, INNER_TEXT],
        changes: &[Byte(2, 99)],
        expected: None,
    },
    Case {
        name: "negative key under a null row",
        records: &[
            Record {
                size: 1,
                nulls: 1,
                ..KEYS
            },
            INNER_TEXT,
        ],
        changes: &[Byte(2, 0xff)],
        expected: None,
    },
    Case {
        name: "key without entry before start",
        records: &[
            Record {
                start: 1,
                length: 2,
                ..KEYS
            },
            INNER_TEXT,
        ],
        changes: &[Byte(0, 99)],
        expected: None,
    },
    Case {
        name: "key 200, 300 entries",
        records: &[
            KEYS,
            Record {
                length: 300,
                ..INNER_FLAT
            },
        ],
        changes: &[Byte(0, 200)],
        expected: None,
    },
    Case {
        name: "key 255, 256 entries",
        records: &[
            KEYS,
            Record {
                length: 256,
                ..INNER_STRUCT
            },
        ],
        changes: &[Byte(0, 255)],
        expected: None,
    },
    Case {
        name: "signed key 127, 128 entries",
        records: &[
            Record { size: 1, ..KEYS },
            Record {
                length: 128,
                ..INNER_STRUCT
            },
        ],
        changes: &[Byte(0, 127)],
        expected: None,
    },
    Case {
        name: "key 65535, 65536 entries",
        records: &[
            Record { width: 2, ..KEYS },
            Record {
                length: 65536,
                ..INNER_STRUCT
            },
        ],
        changes: &[Byte(0, 255), Byte(1, 255)],
        expected: None,
    },
    Case {
        name: "key 4294967294, 4294967295 entries",
        records: &[
            Record { width: 4, ..KEYS },
            Record {
                length: 4294967295,
                ..INNER_STRUCT
            },
        ],
        changes: &[Byte(0, 254), Byte(1, 255), Byte(2, 255), Byte(3, 255)],
        expected: None,
    },
    Case {
        name: "wide key 4294967294, 4294967295 entries",
        records: &[
            Record { width: 8, ..KEYS },
            Record {
                length: 4294967295,
                ..INNER_STRUCT
            },
        ],
        changes: &[Byte(0, 254), Byte(1, 255), Byte(2, 255), Byte(3, 255)],
        expected: None,
    },
    // the keys are the last three bytes
    Case {
        name: "keys up to the end of the bytes",
        records: &[KEYS, INNER_FLAT],
        changes: &[Set(1, Field::A, 0), Bytes(3)],
        expected: None,
    },
    Case {
        name: "keys over keys",
        records: &[
            Record { span: 3, ..KEYS },
            Record { root: 0, ..KEYS },
            INNER_TEXT,
        ],
        changes: &[],
        expected: None,
    },
];

static LISTS: &[Case] = &[
    Case {
        name: "list, no rows",
        records: &[
            Record { length: 0, ..LIST },
            Record {
                length: 0,
                ..INNER_FLAT
            },
        ],
        changes: &[],
        expected: None,
    },
    Case {
        name: "list, width 4",
        records: &[
            LIST,
            Record {
                length: 4,
                ..INNER_FLAT
            },
        ],
        changes: &[],
        expected: None,
    },
    Case {
        name: "list, width 8",
        records: &[
            Record { width: 8, ..LIST },
            Record {
                length: 4,
                ..INNER_FLAT
            },
        ],
        changes: &[],
        expected: None,
    },
    Case {
        name: "list from 5",
        records: &[
            Record { start: 5, ..LIST },
            Record {
                length: 14,
                ..INNER_FLAT
            },
        ],
        changes: &[],
        expected: None,
    },
    Case {
        name: "list with nulls",
        records: &[
            Record { nulls: 1, ..LIST },
            Record {
                length: 4,
                ..INNER_FLAT
            },
        ],
        changes: &[],
        expected: None,
    },
    Case {
        name: "list, last offset 2^31 - 1",
        records: &[
            LIST,
            Record {
                length: 4294967295,
                ..INNER_STRUCT
            },
        ],
        changes: &[Byte(8, 0xff), Byte(9, 0xff), Byte(10, 0xff), Byte(11, 0x7f)],
        expected: None,
    },
    Case {
        name: "list, longer child from 3",
        records: &[
            LIST,
            Record {
                start: 3,
                length: 5,
                ..INNER_FLAT
            },
        ],
        changes: &[],
        expected: None,
    },
    // the three offsets are the last 12 bytes
    Case {
        name: "offsets up to the end of the bytes",
        records: &[
            LIST,
            Record {
                length: 4,
                ..INNER_FLAT
            },
        ],
        changes: &[Set(1, Field::A, 0), Bytes(12)],
        expected: None,
    },
    Case {
        name: "list of lists",
        records: &[
            Record { span: 3, ..LIST },
            Record {
                root: 0,
                length: 4,
                ..LIST
            },
            Record {
                length: 8,
                ..INNER_FLAT
            },
        ],
        changes: &[],
        expected: None,
    },
    Case {
        name: "list of keys over text",
        records: &[
            Record { span: 3, ..LIST },
            Record {
                root: 0,
                length: 4,
                ..KEYS
            },
            INNER_TEXT,
        ],
        changes: &[],
        expected: None,
    },
];

// The run ends of RUNS are bytes 0 to 5: 2, 4, 6.
static RUN_ENDS: &[Case] = &[
    Case {
        name: "runs, width 2",
        records: &[RUNS, INNER_FLAT],
        changes: &[],
        expected: None,
    },
    Case {
        name: "runs, width 4",
        records: &[Record { width: 4, ..RUNS }, INNER_FLAT],
        changes: &[],
        expected: None,
    },
    Case {
        name: "runs, width 8",
        records: &[Record { width: 8, ..RUNS }, INNER_FLAT],
        changes: &[],
        expected: None,
    },
    Case {
        name: "no rows, no runs",
        records: &[
            Record {
                length: 0,
                count: 0,
                ..RUNS
            },
            Record {
                length: 0,
                ..INNER_FLAT
            },
        ],
        changes: &[],
        expected: None,
    },
    Case {
        name: "no rows, three runs",
        records: &[Record { length: 0, ..RUNS }, INNER_FLAT],
        changes: &[],
        expected: None,
    },
    Case {
        name: "runs from 3",
        records: &[
            Record {
                start: 3,
                length: 3,
                ..RUNS
            },
            INNER_FLAT,
        ],
        changes: &[],
        expected: None,
    },
    Case {
        name: "last run end is the last row's end",
        records: &[Record { length: 6, ..RUNS }, INNER_FLAT],
        changes: &[],
        expected: None,
    },
    Case {
        name: "run ends 2, 3, 6",
        records: &[RUNS, INNER_FLAT],
        changes: &[Byte(2, 3)],
        expected: None,
    },
    Case {
        name: "run ends above the rows",
        records: &[Record { length: 1, ..RUNS }, INNER_FLAT],
        changes: &[],
        expected: None,
    },
    Case {
        name: "more values than runs",
        records: &[
            RUNS,
            Record {
                length: 4,
                ..INNER_FLAT
            },
        ],
        changes: &[],
        expected: None,
    },
    Case {
        name: "run end 32767",
        records: &[
            Record {
                length: 32767,
                ..RUNS
            },
            INNER_FLAT,
        ],
        changes: &[Byte(4, 0xff), Byte(5, 0x7f)],
        expected: None,
    },
    // the run ends are the last six bytes
    Case {
        name: "run ends up to the end of the bytes",
        records: &[RUNS, INNER_FLAT],
        changes: &[Set(1, Field::A, 0), Bytes(6)],
        expected: None,
    },
    Case {
        name: "runs over keys over text",
        records: &[
            Record { span: 3, ..RUNS },
            Record { root: 0, ..KEYS },
            INNER_TEXT,
        ],
        changes: &[],
        expected: None,
    },
    Case {
        name: "runs over text with nulls",
        records: &[
            RUNS,
            Record {
                nulls: 1,
                ..INNER_TEXT
            },
        ],
        changes: &[],
        expected: None,
    },
    Case {
        name: "struct of list and runs",
        records: &[
            Record {
                span: 5,
                length: 2,
                ..STRUCT
            },
            Record { root: 0, ..LIST },
            Record {
                length: 4,
                ..INNER_FLAT
            },
            Record { root: 0, ..RUNS },
            INNER_FLAT,
        ],
        changes: &[],
        expected: None,
    },
];

pub fn run(report: &mut Report<'_>) -> anyhow::Result<()> {
    try_all(report, &[PLAIN, TEXTS, DICTIONARIES, LISTS, RUN_ENDS])
}
