// Columns that keep every rule. A column is described by its records with no places in them; `lay` writes the buffers and fills the
// places in. The buffers follow one another with no gap: for each record its validity bitmap, then the first buffer, then the second.
//
// - Validity: position j is null where j mod 8 is 1.
// - Flat: byte n of the values is n mod 256. Bits: bits 0 and 2 of each byte are set.
// - Offsets: number j is 2j. The second buffer of text has 2e bytes, `a` to `z` over and over.
// - Keys: number j is 1 - j mod 2. Run ends: number k is 2k + 2.
use records::{Kind, Record};
use std::alloc::{AllocError, Global};

// A constant calls no function, so its zeros are written out.
pub const NOTHING: Record = Record {
    root: 0,
    kind: 0,
    width: 0,
    logic: 0,
    size: 0,
    span: 0,
    start: 0,
    length: 0,
    nulls: 0,
    v: 0,
    a: 0,
    b: 0,
    count: 0,
};

// One record of each kind, the first of its column.
pub const FLAT: Record = Record {
    root: 1,
    kind: Kind::Flat as u64,
    width: 4,
    span: 1,
    length: 3,
    ..NOTHING
};

pub const BITS: Record = Record {
    root: 1,
    kind: Kind::Bits as u64,
    span: 1,
    length: 3,
    ..NOTHING
};

pub const TEXT: Record = Record {
    root: 1,
    kind: Kind::Bytes as u64,
    width: 4,
    span: 1,
    length: 3,
    ..NOTHING
};

pub const KEYS: Record = Record {
    root: 1,
    kind: Kind::Dictionary as u64,
    width: 1,
    span: 2,
    length: 3,
    ..NOTHING
};

pub const LIST: Record = Record {
    root: 1,
    kind: Kind::List as u64,
    width: 4,
    span: 2,
    length: 2,
    ..NOTHING
};

pub const STRUCT: Record = Record {
    root: 1,
    kind: Kind::Struct as u64,
    span: 1,
    length: 3,
    ..NOTHING
};

pub const RUNS: Record = Record {
    root: 1,
    kind: Kind::Runs as u64,
    width: 2,
    span: 2,
    length: 5,
    count: 3,
    ..NOTHING
};

// Some of them below the first record. The values of the flat one have one byte.
pub const INNER_FLAT: Record = Record {
    root: 0,
    width: 1,
    ..FLAT
};

pub const INNER_BITS: Record = Record { root: 0, ..BITS };

pub const INNER_TEXT: Record = Record { root: 0, ..TEXT };

pub const INNER_STRUCT: Record = Record { root: 0, ..STRUCT };

// It has a writer of its own, so that the cases do not rest on the library of the program `trace`.
#[derive(Debug, Drop)]
pub struct Column {
    pub records: Vec<Record>,
    pub bytes: Vec<u8>,
}

impl Column {
    // The low `width` bytes of a number, the lowest first.
    fn put_number(&mut self, n: u64, width: u64) -> Result<(), AllocError> {
        let end = self.bytes.len().saturating_add(width as usize);
        self.bytes.extend_from_slice(&n.to_le_bytes())?;
        self.bytes.resize(end, 0)
    }

    // `n` of them.
    fn put_numbers<F: Fn(u64) -> u64>(
        &mut self,
        n: u64,
        width: u64,
        number: F,
    ) -> Result<(), AllocError>
        requires { F.IsAlwaysCallable number }
    {
        for j in 0..n {
            self.put_number(number(j), width)?;
        }
        Ok(())
    }

    fn put_bitmap(&mut self, bits: u64, byte: u64) -> Result<(), AllocError> {
        self.put_numbers(bits.div_ceil(8), 1, |_| byte)
    }

    // The first buffer of a record whose last row ends at position e.
    fn put_first(&mut self, r: Record, e: u64) -> Result<(), AllocError> {
        match Kind::try_from(r.kind) {
            Ok(Kind::Flat) => self.put_numbers(e.wrapping_mul(r.width), 1, |n| n),
            Ok(Kind::Bits) => self.put_bitmap(e, 5),
            Ok(Kind::Bytes) | Ok(Kind::List) => {
                self.put_numbers(e.wrapping_add(1), r.width, |j| j.wrapping_mul(2))
            }
            Ok(Kind::Dictionary) => self.put_numbers(e, r.width, |j| 1 - j % 2),
            Ok(Kind::Runs) => self.put_numbers(r.count, r.width, |k| {
                k.wrapping_mul(2).wrapping_add(2)
            }),
            Ok(Kind::Struct) | Err(_) => Ok(()),
        }
    }

    fn put_record(&mut self, r: Record) -> Result<(), AllocError> {
        let e = r.start.wrapping_add(r.length);
        let kind = Kind::try_from(r.kind);
        let mut laid = r;
        if r.nulls == 1 {
            laid.v = self.bytes.len() as u64;
            self.put_bitmap(e, 0xfd)?;
        }
        if kind != Ok(Kind::Struct) {
            laid.a = self.bytes.len() as u64;
            self.put_first(r, e)?;
        }
        if kind == Ok(Kind::Bytes) {
            laid.b = self.bytes.len() as u64;
            laid.count = e.wrapping_mul(2);
            self.put_numbers(laid.count, 1, |n| u64::from(b'a') + n % 26)?;
        }
        self.records.push(laid)?;
        Ok(())
    }
}

pub fn lay(heap: Global, records: &[Record]) -> Result<Column, AllocError> {
    let mut column = Column {
        records: Vec::new(heap),
        bytes: Vec::new(heap),
    };
    for r in records {
        column.put_record(*r)?;
    }
    Ok(column)
}
