ghost use Rattle.std.specs.Prelude.{◌≡◌, ◌+◌, ◌-◌, ◌*◌, ◌≤◌, length};
ghost use Rattle.format.specs.Meaning.{number, ends_of, run_of, is_null};
ghost use Rattle.format.specs.Cells.{bytes_at};
ghost use Rattle.columns.specs.Readable.{Readable};

use super::cells::Cell;
use column_check::is_null;
use numbers::{bit_at, read_little};
use records::{Kind, Record};
use std::ops::{ControlFlow, Range};

// A position of a record, where the buffers that a read touches are there.
#[derive(Clone, Copy)]
pub(super) struct Position<'m> {
    bytes: &'m [u8],
    r: Record,
    j: u64,
    ghost readable: { Readable bytes.now r j },
}

impl<'m> Position<'m> {
    ghost use Rattle.columns.specs.Held.{held, shown, stepped, step};

    // The position of row i.
    pub(super) fn of_row(bytes: &'m [u8], r: Record, i: u64) -> Self
        requires { Readable bytes.now r (r.start + i) }
        ensures bytes { result.bytes.now ≡ bytes.now }
        ensures r { result.r ≡ r }
        ensures j { result.j ≡ r.start + i }
    {
        Position {
            bytes,
            r,
            j: r.start + i,
        }
    }

    pub(super) fn is_null(&self) -> bool
        ensures { result ≡ is_null self.now.bytes.now self.now.r self.now.j }
    {
        is_null(self.bytes, self.r, self.j)
    }

    // Number k of the first buffer: the check has seen that it is not negative.
    fn number(&self, k: u64) -> u64
        requires wide { self.now.r.width ≤ 8 }
        requires room { self.now.r.a + k * self.now.r.width + self.now.r.width ≤ length self.now.bytes.now }
        ensures { result ≡ number self.now.bytes.now self.now.r k }
    {
        let width = self.r.width as usize;
        read_little(self.bytes, self.r.a as usize + k as usize * width, width)
    }

    // Where the value of a flat record lies.
    pub(super) fn flat(&self) -> Range<usize>
        requires { self.now.r.kind ≡ 1 }
        ensures start { result.start ≡ self.now.r.a + self.now.j * self.now.r.width }
        ensures end { result.end ≡ self.now.r.a + self.now.j * self.now.r.width + self.now.r.width }
    {
        let start = (self.r.a + self.j * self.r.width) as usize;
        start..start + self.r.width as usize
    }

    // Where the bytes between offset j and offset j + 1 lie.
    pub(super) fn text(&self) -> Range<usize>
        requires { self.now.r.kind ≡ 3 }
        ensures start { result.start ≡ self.now.r.b + number self.now.bytes.now self.now.r self.now.j }
        ensures end { result.end ≡ self.now.r.b + number self.now.bytes.now self.now.r (self.now.j + 1) }
    {
        let start = self.r.b as usize;
        let from = self.number(self.j) as usize;
        let to = self.number(self.j + 1) as usize;
        start + from..start + to
    }

    pub(super) fn key(&self) -> u64
        requires { self.now.r.kind ≡ 4 }
        ensures { result ≡ number self.now.bytes.now self.now.r self.now.j }
    {
        self.number(self.j)
    }

    // The first run that ends above j.
    fn run(&self) -> u64
        requires { self.now.r.kind ≡ 9 }
        ensures { result ≡ run_of (ends_of self.now.bytes.now self.now.r) self.now.j }
    {
        (0..self.r.count)
            .find(|&k| self.number(k) > self.j)
            .unwrap_or(self.r.count)
    }

    // The bytes there.
    fn part(&self, range: Range<usize>) -> Cell<'m>
        requires order { range.start ≤ range.end }
        requires inside { range.end ≤ length self.now.bytes.now }
        ensures { held result ≡ shown self.now.bytes.now (bytes_at range.start (range.end - range.start)) }
    {
        Cell::Bytes {
            place: range.start as u64,
            part: &self.bytes[range],
        }
    }

    // What the position comes to: a cell, or a row of the child.
    pub(super) fn look(&self) -> ControlFlow<Cell<'m>, u64>
        ensures { stepped result ≡ step self.now.bytes.now self.now.r self.now.j }
    {
        if self.is_null() {
            return ControlFlow::Break(Cell::Null);
        }
        match Kind::try_from(self.r.kind) {
            Ok(Kind::Flat) => ControlFlow::Break(self.part(self.flat())),
            Ok(Kind::Bits) => {
                ControlFlow::Break(Cell::Bit(bit_at(
                    self.bytes,
                    self.r.a as usize,
                    self.j as usize,
                )))
            }
            Ok(Kind::Bytes) => ControlFlow::Break(self.part(self.text())),
            Ok(Kind::Dictionary) => ControlFlow::Continue(self.key()),
            Ok(Kind::Runs) => ControlFlow::Continue(self.run()),
            Ok(Kind::List | Kind::Struct) | Err(_) => ControlFlow::Break(Cell::Null),
        }
    }
}
