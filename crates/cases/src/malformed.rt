// Each rule broken once. A record's own fields and buffers are that record's fault; what concerns its children is the parent's.
use super::case::{Case, try_all};
use super::change::Change::{Byte, Bytes, Records, Set};
use super::change::Field;
use super::layout::{
    BITS, FLAT, INNER_BITS, INNER_FLAT, INNER_STRUCT, INNER_TEXT, KEYS, LIST, RUNS, STRUCT, TEXT,
};
use super::report::Report;
use records::Record;

const FOUR_VALUES: Record = Record {
    length: 4,
    ..INNER_FLAT
};

static FIELDS: &[Case] = &[
    Case {
        name: "kind 0",
        records: &[FLAT],
        changes: &[Set(0, Field::Kind, 0)],
        expected: Some(0),
    },
    Case {
        name: "kind 6",
        records: &[FLAT],
        changes: &[Set(0, Field::Kind, 6)],
        expected: Some(0),
    },
    Case {
        name: "kind 7",
        records: &[FLAT],
        changes: &[Set(0, Field::Kind, 7)],
        expected: Some(0),
    },
    Case {
        name: "kind 10",
        records: &[FLAT],
        changes: &[Set(0, Field::Kind, 10)],
        expected: Some(0),
    },
    Case {
        name: "kind 0 below",
        records: &[LIST, FOUR_VALUES],
        changes: &[Set(1, Field::Kind, 0)],
        expected: Some(1),
    },
    Case {
        name: "flat, width 0",
        records: &[FLAT],
        changes: &[Set(0, Field::Width, 0)],
        expected: Some(0),
    },
    Case {
        name: "flat, width 3",
        records: &[FLAT],
        changes: &[Set(0, Field::Width, 3)],
        expected: Some(0),
    },
    Case {
        name: "flat, width 64",
        records: &[Record { length: 0, ..FLAT }],
        changes: &[Set(0, Field::Width, 64)],
        expected: Some(0),
    },
    Case {
        name: "bits, width 1",
        records: &[BITS],
        changes: &[Set(0, Field::Width, 1)],
        expected: Some(0),
    },
    Case {
        name: "text, width 2",
        records: &[Record { width: 2, ..TEXT }],
        changes: &[],
        expected: Some(0),
    },
    Case {
        name: "text, width 16",
        records: &[Record { width: 16, ..TEXT }],
        changes: &[],
        expected: Some(0),
    },
    Case {
        name: "keys, width 3",
        records: &[Record { width: 3, ..KEYS }, INNER_TEXT],
        changes: &[],
        expected: Some(0),
    },
    Case {
        name: "keys, width 16",
        records: &[Record { width: 16, ..KEYS }, INNER_TEXT],
        changes: &[],
        expected: Some(0),
    },
    Case {
        name: "list, width 2",
        records: &[Record { width: 2, ..LIST }, FOUR_VALUES],
        changes: &[],
        expected: Some(0),
    },
    Case {
        name: "struct, width 1",
        records: &[STRUCT],
        changes: &[Set(0, Field::Width, 1)],
        expected: Some(0),
    },
    Case {
        name: "runs, width 1",
        records: &[Record { width: 1, ..RUNS }, INNER_FLAT],
        changes: &[],
        expected: Some(0),
    },
    Case {
        name: "runs, width 16",
        records: &[Record { width: 16, ..RUNS }, INNER_FLAT],
        changes: &[],
        expected: Some(0),
    },
    Case {
        name: "flat, size 1",
        records: &[FLAT],
        changes: &[Set(0, Field::Size, 1)],
        expected: Some(0),
    },
    Case {
        name: "bits, size 1",
        records: &[BITS],
        changes: &[Set(0, Field::Size, 1)],
        expected: Some(0),
    },
    Case {
        name: "text, size 1",
        records: &[TEXT],
        changes: &[Set(0, Field::Size, 1)],
        expected: Some(0),
    },
    Case {
        name: "keys, size 2",
        records: &[KEYS, INNER_TEXT],
        changes: &[Set(0, Field::Size, 2)],
        expected: Some(0),
    },
    Case {
        name: "list, size 1",
        records: &[LIST, FOUR_VALUES],
        changes: &[Set(0, Field::Size, 1)],
        expected: Some(0),
    },
    Case {
        name: "struct, size 1",
        records: &[STRUCT],
        changes: &[Set(0, Field::Size, 1)],
        expected: Some(0),
    },
    Case {
        name: "runs, size 1",
        records: &[RUNS, INNER_FLAT],
        changes: &[Set(0, Field::Size, 1)],
        expected: Some(0),
    },
    Case {
        name: "struct, a 1",
        records: &[Record { nulls: 1, ..STRUCT }],
        changes: &[Set(0, Field::A, 1)],
        expected: Some(0),
    },
    Case {
        name: "flat, b 1",
        records: &[FLAT],
        changes: &[Set(0, Field::B, 1)],
        expected: Some(0),
    },
    Case {
        name: "bits, b 1",
        records: &[BITS],
        changes: &[Set(0, Field::B, 1)],
        expected: Some(0),
    },
    Case {
        name: "keys, b 1",
        records: &[KEYS, INNER_TEXT],
        changes: &[Set(0, Field::B, 1)],
        expected: Some(0),
    },
    Case {
        name: "list, b 1",
        records: &[LIST, FOUR_VALUES],
        changes: &[Set(0, Field::B, 1)],
        expected: Some(0),
    },
    Case {
        name: "struct, b 1",
        records: &[STRUCT],
        changes: &[Set(0, Field::B, 1)],
        expected: Some(0),
    },
    Case {
        name: "runs, b 1",
        records: &[RUNS, INNER_FLAT],
        changes: &[Set(0, Field::B, 1)],
        expected: Some(0),
    },
    Case {
        name: "flat, count 1",
        records: &[FLAT],
        changes: &[Set(0, Field::Count, 1)],
        expected: Some(0),
    },
    Case {
        name: "bits, count 1",
        records: &[BITS],
        changes: &[Set(0, Field::Count, 1)],
        expected: Some(0),
    },
    Case {
        name: "keys, count 1",
        records: &[KEYS, INNER_TEXT],
        changes: &[Set(0, Field::Count, 1)],
        expected: Some(0),
    },
    Case {
        name: "list, count 1",
        records: &[LIST, FOUR_VALUES],
        changes: &[Set(0, Field::Count, 1)],
        expected: Some(0),
    },
    Case {
        name: "struct, count 1",
        records: &[STRUCT],
        changes: &[Set(0, Field::Count, 1)],
        expected: Some(0),
    },
    Case {
        name: "logic 65536",
        records: &[FLAT],
        changes: &[Set(0, Field::Logic, 65536)],
        expected: Some(0),
    },
    Case {
        name: "logic 65536 below",
        records: &[LIST, FOUR_VALUES],
        changes: &[Set(1, Field::Logic, 65536)],
        expected: Some(1),
    },
    Case {
        name: "4294967296 rows",
        records: &[STRUCT],
        changes: &[Set(0, Field::Length, 4294967296)],
        expected: Some(0),
    },
    Case {
        name: "4294967295 rows from 1",
        records: &[STRUCT],
        changes: &[Set(0, Field::Start, 1), Set(0, Field::Length, 4294967295)],
        expected: Some(0),
    },
    Case {
        name: "start and length add up to 2^64",
        records: &[STRUCT],
        changes: &[
            Set(0, Field::Start, 1 << 63),
            Set(0, Field::Length, 1 << 63),
        ],
        expected: Some(0),
    },
];

static VALIDITY: &[Case] = &[
    Case {
        name: "nulls 2",
        records: &[FLAT],
        changes: &[Set(0, Field::Nulls, 2)],
        expected: Some(0),
    },
    Case {
        name: "nulls 2 with a bitmap",
        records: &[Record { nulls: 1, ..FLAT }],
        changes: &[Set(0, Field::Nulls, 2)],
        expected: Some(0),
    },
    Case {
        name: "nulls 0, v 1",
        records: &[FLAT],
        changes: &[Set(0, Field::V, 1)],
        expected: Some(0),
    },
    Case {
        name: "struct, nulls 0, v 1",
        records: &[STRUCT],
        changes: &[Set(0, Field::V, 1)],
        expected: Some(0),
    },
    Case {
        name: "runs, nulls 1",
        records: &[Record { nulls: 1, ..RUNS }, INNER_FLAT],
        changes: &[],
        expected: Some(0),
    },
    // 9 bytes in all
    Case {
        name: "validity of 8 bits beyond the end",
        records: &[Record {
            width: 1,
            length: 8,
            nulls: 1,
            ..FLAT
        }],
        changes: &[Set(0, Field::V, 9)],
        expected: Some(0),
    },
    // 11 bytes in all
    Case {
        name: "validity of 9 bits one byte beyond the end",
        records: &[Record {
            width: 1,
            length: 9,
            nulls: 1,
            ..FLAT
        }],
        changes: &[Set(0, Field::V, 10)],
        expected: Some(0),
    },
    Case {
        name: "validity of 4 rows from 5 one byte beyond the end",
        records: &[Record {
            width: 1,
            start: 5,
            length: 4,
            nulls: 1,
            ..FLAT
        }],
        changes: &[Set(0, Field::V, 10)],
        expected: Some(0),
    },
];

static BUFFERS: &[Case] = &[
    Case {
        name: "flat one byte beyond the end",
        records: &[FLAT],
        changes: &[Bytes(11)],
        expected: Some(0),
    },
    Case {
        name: "flat from 5 one byte beyond the end",
        records: &[Record {
            start: 5,
            width: 1,
            ..FLAT
        }],
        changes: &[Bytes(7)],
        expected: Some(0),
    },
    Case {
        name: "no values beyond the end",
        records: &[Record { length: 0, ..FLAT }],
        changes: &[Set(0, Field::A, 1)],
        expected: Some(0),
    },
    Case {
        name: "8 bits in no byte",
        records: &[Record { length: 8, ..BITS }],
        changes: &[Bytes(0)],
        expected: Some(0),
    },
    Case {
        name: "9 bits in one byte",
        records: &[Record { length: 9, ..BITS }],
        changes: &[Bytes(1)],
        expected: Some(0),
    },
    Case {
        name: "4 bits from 5 in one byte",
        records: &[Record {
            start: 5,
            length: 4,
            ..BITS
        }],
        changes: &[Bytes(1)],
        expected: Some(0),
    },
    Case {
        name: "letters one byte beyond the end",
        records: &[TEXT],
        changes: &[Bytes(21)],
        expected: Some(0),
    },
    Case {
        name: "count one above the letters",
        records: &[TEXT],
        changes: &[Set(0, Field::Count, 7)],
        expected: Some(0),
    },
    Case {
        name: "no letters beyond the end",
        records: &[Record { length: 0, ..TEXT }],
        changes: &[Set(0, Field::B, 5)],
        expected: Some(0),
    },
    Case {
        name: "the one offset one byte beyond the end",
        records: &[Record { length: 0, ..TEXT }],
        changes: &[Set(0, Field::B, 0), Bytes(3)],
        expected: Some(0),
    },
    Case {
        name: "keys one byte beyond the end",
        records: &[KEYS, INNER_FLAT],
        changes: &[Set(1, Field::A, 0), Bytes(2)],
        expected: Some(0),
    },
    Case {
        name: "keys from 5 one byte beyond the end",
        records: &[Record { start: 5, ..KEYS }, INNER_FLAT],
        changes: &[Set(1, Field::A, 0), Bytes(7)],
        expected: Some(0),
    },
    Case {
        name: "list offsets one byte beyond the end",
        records: &[LIST, FOUR_VALUES],
        changes: &[Set(1, Field::A, 0), Bytes(11)],
        expected: Some(0),
    },
    Case {
        name: "list offsets from 5 one byte beyond the end",
        records: &[
            Record { start: 5, ..LIST },
            Record {
                length: 14,
                ..INNER_FLAT
            },
        ],
        changes: &[Set(1, Field::A, 0), Bytes(31)],
        expected: Some(0),
    },
    Case {
        name: "run ends one byte beyond the end",
        records: &[RUNS, INNER_FLAT],
        changes: &[Set(1, Field::A, 0), Bytes(5)],
        expected: Some(0),
    },
    Case {
        name: "no run ends beyond the end",
        records: &[
            Record {
                length: 0,
                count: 0,
                ..RUNS
            },
            Record {
                length: 0,
                ..INNER_FLAT
            },
        ],
        changes: &[Set(0, Field::A, 1)],
        expected: Some(0),
    },
    Case {
        name: "entries one byte beyond the end",
        records: &[KEYS, INNER_TEXT],
        changes: &[Bytes(24)],
        expected: Some(1),
    },
    Case {
        name: "third child one byte beyond the end",
        records: &[
            Record { span: 4, ..STRUCT },
            INNER_FLAT,
            INNER_BITS,
            INNER_TEXT,
        ],
        changes: &[Bytes(25)],
        expected: Some(3),
    },
];

// The four offsets of TEXT are bytes 0 to 15: 0, 2, 4, 6. The three of LIST are bytes 0 to 11: 0, 2, 4.
static OFFSETS: &[Case] = &[
    Case {
        name: "text, offsets 0, 5, 4, 6",
        records: &[TEXT],
        changes: &[Byte(4, 5)],
        expected: Some(0),
    },
    Case {
        name: "text, offsets 0, 2, 4, 3",
        records: &[TEXT],
        changes: &[Byte(12, 3)],
        expected: Some(0),
    },
    Case {
        name: "text, first offset negative",
        records: &[TEXT],
        changes: &[Byte(3, 0x80)],
        expected: Some(0),
    },
    Case {
        name: "text, second offset negative",
        records: &[TEXT],
        changes: &[Byte(7, 0x80)],
        expected: Some(0),
    },
    Case {
        name: "text, last offset negative",
        records: &[TEXT],
        changes: &[Byte(15, 0x80)],
        expected: Some(0),
    },
    Case {
        name: "text, width 8, second offset negative",
        records: &[Record { width: 8, ..TEXT }],
        changes: &[Byte(15, 0x80)],
        expected: Some(0),
    },
    Case {
        name: "text, last offset one above count",
        records: &[TEXT],
        changes: &[Byte(12, 7)],
        expected: Some(0),
    },
    Case {
        name: "text from 1, last offset one above count",
        records: &[Record {
            start: 1,
            length: 2,
            ..TEXT
        }],
        changes: &[Byte(12, 7)],
        expected: Some(0),
    },
    Case {
        name: "text, count one below the last offset",
        records: &[TEXT],
        changes: &[Set(0, Field::Count, 5)],
        expected: Some(0),
    },
    Case {
        name: "text, no rows, the one offset above count",
        records: &[Record { length: 0, ..TEXT }],
        changes: &[Byte(0, 1)],
        expected: Some(0),
    },
    // a bitmap of one byte, then the offsets: the second offset begins at byte 5
    Case {
        name: "text, fall under a null row",
        records: &[Record { nulls: 1, ..TEXT }],
        changes: &[Byte(5, 5)],
        expected: Some(0),
    },
    Case {
        name: "list, offsets 0, 5, 4",
        records: &[LIST, FOUR_VALUES],
        changes: &[Byte(4, 5)],
        expected: Some(0),
    },
    Case {
        name: "list, second offset negative",
        records: &[LIST, FOUR_VALUES],
        changes: &[Byte(7, 0x80)],
        expected: Some(0),
    },
    Case {
        name: "list, last offset -2^31 + 4, 4294967295 rows below",
        records: &[
            LIST,
            Record {
                length: 4294967295,
                ..INNER_STRUCT
            },
        ],
        changes: &[Byte(11, 0x80)],
        expected: Some(0),
    },
    // the child has too many rows; the parent is tested first, and only a negative offset is its fault
    Case {
        name: "list, width 8, last offset 4, 2^64 - 1 rows below",
        records: &[Record { width: 8, ..LIST }, INNER_STRUCT],
        changes: &[Set(1, Field::Length, u64::MAX)],
        expected: Some(1),
    },
    Case {
        name: "list, width 8, last offset -2^63 + 4, 2^64 - 1 rows below",
        records: &[Record { width: 8, ..LIST }, INNER_STRUCT],
        changes: &[Set(1, Field::Length, u64::MAX), Byte(23, 0x80)],
        expected: Some(0),
    },
    Case {
        name: "list, last offset one above the child's rows",
        records: &[LIST, INNER_FLAT],
        changes: &[],
        expected: Some(0),
    },
    Case {
        name: "list, last offset one above the rows of a child from 3",
        records: &[
            LIST,
            Record {
                start: 3,
                ..INNER_FLAT
            },
        ],
        changes: &[],
        expected: Some(0),
    },
    Case {
        name: "list, no rows, the one offset above the child's rows",
        records: &[
            Record { length: 0, ..LIST },
            Record {
                length: 0,
                ..INNER_FLAT
            },
        ],
        changes: &[Byte(0, 1)],
        expected: Some(0),
    },
];

// The keys of KEYS are bytes 0 to 2.
static KEY_NUMBERS: &[Case] = &[
    Case {
        name: "key 3, three entries",
        records: &[KEYS, INNER_TEXT],
        changes: &[Byte(2, 3)],
        expected: Some(0),
    },
    Case {
        name: "key 2, two entries from 3",
        records: &[
            KEYS,
            Record {
                start: 3,
                length: 2,
                ..INNER_FLAT
            },
        ],
        changes: &[Byte(2, 2)],
        expected: Some(0),
    },
    Case {
        name: "key 0, no entries",
        records: &[
            Record {
                start: 1,
                length: 1,
                ..KEYS
            },
            Record {
                length: 0,
                ..INNER_TEXT
            },
        ],
        changes: &[],
        expected: Some(0),
    },
    Case {
        name: "signed key -1",
        records: &[Record { size: 1, ..KEYS }, INNER_TEXT],
        changes: &[Byte(0, 0xff)],
        expected: Some(0),
    },
    Case {
        name: "byte 200 as a signed key, 300 entries",
        records: &[
            Record { size: 1, ..KEYS },
            Record {
                length: 300,
                ..INNER_FLAT
            },
        ],
        changes: &[Byte(0, 200)],
        expected: Some(0),
    },
    Case {
        name: "byte 128 as a signed key, 256 entries",
        records: &[
            Record { size: 1, ..KEYS },
            Record {
                length: 256,
                ..INNER_STRUCT
            },
        ],
        changes: &[Byte(0, 128)],
        expected: Some(0),
    },
    Case {
        name: "bytes 255, 255 as a signed key, 65536 entries",
        records: &[
            Record {
                size: 1,
                width: 2,
                ..KEYS
            },
            Record {
                length: 65536,
                ..INNER_STRUCT
            },
        ],
        changes: &[Byte(0, 255), Byte(1, 255)],
        expected: Some(0),
    },
    Case {
        name: "signed key -2 in 4 bytes, 4294967295 entries",
        records: &[
            Record {
                size: 1,
                width: 4,
                ..KEYS
            },
            Record {
                length: 4294967295,
                ..INNER_STRUCT
            },
        ],
        changes: &[Byte(0, 254), Byte(1, 255), Byte(2, 255), Byte(3, 255)],
        expected: Some(0),
    },
    Case {
        name: "key 4294967295, 4294967295 entries",
        records: &[
            Record { width: 4, ..KEYS },
            Record {
                length: 4294967295,
                ..INNER_STRUCT
            },
        ],
        changes: &[Byte(0, 255), Byte(1, 255), Byte(2, 255), Byte(3, 255)],
        expected: Some(0),
    },
    Case {
        name: "key 2^32 + 1, three entries",
        records: &[Record { width: 8, ..KEYS }, INNER_TEXT],
        changes: &[Byte(4, 1)],
        expected: Some(0),
    },
    Case {
        name: "key 2^63 + 1, three entries",
        records: &[Record { width: 8, ..KEYS }, INNER_TEXT],
        changes: &[Byte(7, 0x80)],
        expected: Some(0),
    },
    // the child has too many rows; the parent is tested first, and only a negative key is its fault
    Case {
        name: "key 2^63 + 1, 2^64 - 1 entries",
        records: &[Record { width: 8, ..KEYS }, INNER_STRUCT],
        changes: &[Set(1, Field::Length, u64::MAX), Byte(7, 0x80)],
        expected: Some(1),
    },
    Case {
        name: "signed key -2^63 + 1, 2^64 - 1 entries",
        records: &[
            Record {
                size: 1,
                width: 8,
                ..KEYS
            },
            INNER_STRUCT,
        ],
        changes: &[Set(1, Field::Length, u64::MAX), Byte(7, 0x80)],
        expected: Some(0),
    },
    // a bitmap of one byte, then the keys: row 2, which is not null, has byte 3
    Case {
        name: "key without entry beside a null row",
        records: &[Record { nulls: 1, ..KEYS }, INNER_TEXT],
        changes: &[Byte(3, 99)],
        expected: Some(0),
    },
    Case {
        name: "fewer entries than a key names",
        records: &[KEYS, INNER_TEXT],
        changes: &[Set(1, Field::Length, 1)],
        expected: Some(0),
    },
];

// The run ends of RUNS are bytes 0 to 5: 2, 4, 6.
static RUN_ENDS: &[Case] = &[
    Case {
        name: "run end 0",
        records: &[RUNS, INNER_FLAT],
        changes: &[Byte(0, 0)],
        expected: Some(0),
    },
    Case {
        name: "run ends 2, 2, 6",
        records: &[RUNS, INNER_FLAT],
        changes: &[Byte(2, 2)],
        expected: Some(0),
    },
    Case {
        name: "run ends 2, 1, 6",
        records: &[RUNS, INNER_FLAT],
        changes: &[Byte(2, 1)],
        expected: Some(0),
    },
    Case {
        name: "run ends 2, 4, 4 above the rows",
        records: &[Record { length: 1, ..RUNS }, INNER_FLAT],
        changes: &[Byte(4, 4)],
        expected: Some(0),
    },
    Case {
        name: "last run end one below the last row's end",
        records: &[Record { length: 7, ..RUNS }, INNER_FLAT],
        changes: &[],
        expected: Some(0),
    },
    Case {
        name: "last run end one below the end, from 3",
        records: &[
            Record {
                start: 3,
                length: 4,
                ..RUNS
            },
            INNER_FLAT,
        ],
        changes: &[],
        expected: Some(0),
    },
    Case {
        name: "first run end negative",
        records: &[RUNS, INNER_FLAT],
        changes: &[Byte(1, 0x80)],
        expected: Some(0),
    },
    Case {
        name: "last run end negative",
        records: &[RUNS, INNER_FLAT],
        changes: &[Byte(5, 0x80)],
        expected: Some(0),
    },
    Case {
        name: "last run end negative, width 4",
        records: &[Record { width: 4, ..RUNS }, INNER_FLAT],
        changes: &[Byte(11, 0x80)],
        expected: Some(0),
    },
    Case {
        name: "last run end negative, width 8",
        records: &[Record { width: 8, ..RUNS }, INNER_FLAT],
        changes: &[Byte(23, 0x80)],
        expected: Some(0),
    },
    Case {
        name: "a row, no runs",
        records: &[
            Record {
                length: 1,
                count: 0,
                ..RUNS
            },
            INNER_FLAT,
        ],
        changes: &[],
        expected: Some(0),
    },
    Case {
        name: "more runs than values",
        records: &[RUNS, INNER_FLAT],
        changes: &[Set(1, Field::Length, 2)],
        expected: Some(0),
    },
    Case {
        name: "more runs than values from 3",
        records: &[
            RUNS,
            Record {
                start: 3,
                length: 2,
                ..INNER_FLAT
            },
        ],
        changes: &[],
        expected: Some(0),
    },
];

static TREES: &[Case] = &[
    Case {
        name: "no records",
        records: &[],
        changes: &[],
        expected: Some(0),
    },
    Case {
        name: "root 0",
        records: &[FLAT],
        changes: &[Set(0, Field::Root, 0)],
        expected: Some(0),
    },
    Case {
        name: "root 2",
        records: &[FLAT],
        changes: &[Set(0, Field::Root, 2)],
        expected: Some(0),
    },
    Case {
        name: "root 1 below",
        records: &[LIST, FOUR_VALUES],
        changes: &[Set(1, Field::Root, 1)],
        expected: Some(1),
    },
    Case {
        name: "root 2 below",
        records: &[LIST, FOUR_VALUES],
        changes: &[Set(1, Field::Root, 2)],
        expected: Some(1),
    },
    Case {
        name: "flat, span 0",
        records: &[FLAT],
        changes: &[Set(0, Field::Span, 0)],
        expected: Some(0),
    },
    Case {
        name: "struct, span 0",
        records: &[STRUCT],
        changes: &[Set(0, Field::Span, 0)],
        expected: Some(0),
    },
    Case {
        name: "span 65, one record",
        records: &[STRUCT],
        changes: &[Set(0, Field::Span, 65)],
        expected: Some(0),
    },
    Case {
        name: "span 2, one record",
        records: &[STRUCT],
        changes: &[Set(0, Field::Span, 2)],
        expected: Some(0),
    },
    Case {
        name: "keys, the child is beyond the mark",
        records: &[KEYS, INNER_TEXT],
        changes: &[Records(1)],
        expected: Some(0),
    },
    Case {
        name: "child with span 0",
        records: &[LIST, FOUR_VALUES],
        changes: &[Set(1, Field::Span, 0)],
        expected: Some(0),
    },
    Case {
        name: "struct, child with span 0",
        records: &[Record { span: 2, ..STRUCT }, INNER_FLAT],
        changes: &[Set(1, Field::Span, 0)],
        expected: Some(0),
    },
    Case {
        name: "child that reaches past its column",
        records: &[LIST, FOUR_VALUES],
        changes: &[Set(1, Field::Span, 2)],
        expected: Some(0),
    },
    Case {
        name: "struct, last child that reaches past its column",
        records: &[
            Record { span: 3, ..STRUCT },
            INNER_FLAT,
            INNER_FLAT,
            INNER_FLAT,
        ],
        changes: &[Set(2, Field::Span, 2)],
        expected: Some(0),
    },
    Case {
        name: "struct, second of two children with span 0",
        records: &[Record { span: 3, ..STRUCT }, INNER_FLAT, INNER_FLAT],
        changes: &[Set(2, Field::Span, 0)],
        expected: Some(0),
    },
    Case {
        name: "flat with a child",
        records: &[FLAT, INNER_FLAT],
        changes: &[Set(0, Field::Span, 2)],
        expected: Some(0),
    },
    Case {
        name: "bits with a child",
        records: &[BITS, INNER_FLAT],
        changes: &[Set(0, Field::Span, 2)],
        expected: Some(0),
    },
    Case {
        name: "text with a child",
        records: &[TEXT, INNER_FLAT],
        changes: &[Set(0, Field::Span, 2)],
        expected: Some(0),
    },
    Case {
        name: "flat with a child in a struct",
        records: &[Record { span: 3, ..STRUCT }, INNER_FLAT, INNER_FLAT],
        changes: &[Set(1, Field::Span, 2)],
        expected: Some(1),
    },
    Case {
        name: "keys with two children",
        records: &[Record { span: 3, ..KEYS }, INNER_TEXT, INNER_TEXT],
        changes: &[],
        expected: Some(0),
    },
    Case {
        name: "list with two children",
        records: &[Record { span: 3, ..LIST }, FOUR_VALUES, FOUR_VALUES],
        changes: &[],
        expected: Some(0),
    },
    Case {
        name: "runs with two children",
        records: &[Record { span: 3, ..RUNS }, INNER_FLAT, INNER_FLAT],
        changes: &[],
        expected: Some(0),
    },
    Case {
        name: "keys with no child",
        records: &[Record { span: 1, ..KEYS }],
        changes: &[],
        expected: Some(0),
    },
    Case {
        name: "list with no child",
        records: &[Record { span: 1, ..LIST }],
        changes: &[],
        expected: Some(0),
    },
    Case {
        name: "runs with no child",
        records: &[Record { span: 1, ..RUNS }],
        changes: &[],
        expected: Some(0),
    },
    Case {
        name: "list with no child in a struct",
        records: &[
            Record {
                span: 3,
                length: 2,
                ..STRUCT
            },
            INNER_FLAT,
            Record {
                root: 0,
                span: 1,
                ..LIST
            },
        ],
        changes: &[],
        expected: Some(2),
    },
    Case {
        name: "list in a struct, its child is beyond the column",
        records: &[
            Record {
                span: 2,
                length: 2,
                ..STRUCT
            },
            Record { root: 0, ..LIST },
            FOUR_VALUES,
        ],
        changes: &[],
        expected: Some(0),
    },
    Case {
        name: "struct, second child one row short",
        records: &[
            Record { span: 3, ..STRUCT },
            INNER_FLAT,
            Record {
                length: 2,
                ..INNER_FLAT
            },
        ],
        changes: &[],
        expected: Some(0),
    },
    Case {
        name: "struct from 1, child one row short",
        records: &[
            Record {
                span: 2,
                start: 1,
                ..STRUCT
            },
            INNER_FLAT,
        ],
        changes: &[],
        expected: Some(0),
    },
    Case {
        name: "struct, child from 3 one row short",
        records: &[
            Record { span: 2, ..STRUCT },
            Record {
                start: 3,
                length: 2,
                ..INNER_FLAT
            },
        ],
        changes: &[],
        expected: Some(0),
    },
    Case {
        name: "inner struct, its child one row short",
        records: &[
            Record { span: 3, ..STRUCT },
            Record {
                span: 2,
                ..INNER_STRUCT
            },
            Record {
                length: 2,
                ..INNER_FLAT
            },
        ],
        changes: &[],
        expected: Some(1),
    },
    Case {
        name: "two faults, the first counts",
        records: &[
            Record { span: 4, ..STRUCT },
            INNER_FLAT,
            INNER_BITS,
            INNER_TEXT,
        ],
        changes: &[Set(3, Field::Kind, 0), Set(2, Field::Width, 1)],
        expected: Some(2),
    },
];

pub fn run(report: &mut Report<'_>) -> anyhow::Result<()> {
    try_all(
        report,
        &[
            FIELDS,
            VALIDITY,
            BUFFERS,
            OFFSETS,
            KEY_NUMBERS,
            RUN_ENDS,
            TREES,
        ],
    )
}
