ghost use Rattle.std.specs.Prelude.{◌≡◌};
ghost use Rattle.records.specs.Fields.{fields, of_fields};

/// One node of a column: thirteen numbers, as they lie in the memory that a caller lends. A column is a run of records, each parent
/// before its children. The fields are plain numbers, flags and kinds among them, since lent memory may hold any.
#[derive(Clone, Copy, Debug, Default, PartialEq, Eq)]
#[repr(C)]
pub struct Record {
    pub root: u64,
    pub kind: u64,
    pub width: u64,
    pub logic: u64,
    pub size: u64,
    pub span: u64,
    pub start: u64,
    pub length: u64,
    pub nulls: u64,
    pub v: u64,
    pub a: u64,
    pub b: u64,
    pub count: u64,
}

// The fields in their order.
impl From<Record> for [u64; 13] {
    ghost from_gives = { λ r ns. ns ≡ fields r };

    fn from(r: Record) -> [u64; 13] {
        [
            r.root, r.kind, r.width, r.logic, r.size, r.span, r.start, r.length, r.nulls, r.v, r.a,
            r.b, r.count,
        ]
    }
}

impl From<[u64; 13]> for Record {
    ghost from_gives = { λ ns r. r ≡ of_fields ns };

    fn from(numbers: [u64; 13]) -> Record {
        let [
            root,
            kind,
            width,
            logic,
            size,
            span,
            start,
            length,
            nulls,
            v,
            a,
            b,
            count,
        ] = numbers;
        Record {
            root,
            kind,
            width,
            logic,
            size,
            span,
            start,
            length,
            nulls,
            v,
            a,
            b,
            count,
        }
    }
}
