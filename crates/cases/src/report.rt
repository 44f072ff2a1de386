// The answers so far, a line printed for each that is as expected.
use super::layout::Column;
use anyhow::anyhow;
use column_check as checked;
use std::alloc::{AllocError, Global};
use std::io;

#[derive(Drop)]
pub struct Report<'a> {
    rt: &'a HostRuntime,
    pub passed: usize,
}

// The check of the column at `place`: the record that is at fault there.
pub fn first_broken(column: &Column, place: u64) -> Option<u64> {
    checked::Column::check(column.records.as_slice(), column.bytes.as_slice(), place)
        .err()
        .map(|e| e.record)
}

// The answer of the check, as text.
pub fn verdict(heap: Global, broken: Option<u64>) -> Result<String, AllocError> {
    match broken {
        None => String::from_str(heap, "well formed"),
        Some(record) => format!(in heap; "record {record}"),
    }
}

impl<'a> Report<'a> {
    pub fn new(rt: &'a HostRuntime) -> Report<'a> {
        Report { rt, passed: 0 }
    }

    pub fn heap(&self) -> Global {
        self.rt.alloc()
    }

    pub fn pass(&mut self, name: &str, answer: &str) -> io::Result<()> {
        self.passed = self.passed.saturating_add(1);
        println!(self.rt; "ok {name}: {answer}")
    }

    // Ends the run where another answer is expected.
    pub fn settle(&mut self, name: &str, answer: &str, expected: &str) -> anyhow::Result<()> {
        if answer != expected {
            return Err(anyhow!(format!(in self.heap(); "{name}: {answer}, and not {expected}")?));
        }
        Ok(self.pass(name, answer)?)
    }

    // The check of the column at `place`, and the record that is at fault there.
    pub fn try_column(
        &mut self,
        name: &str,
        column: &Column,
        place: u64,
        expected: Option<u64>,
    ) -> anyhow::Result<()> {
        let broken = first_broken(column, place);
        let answer = verdict(self.heap(), broken)?;
        let wanted = verdict(self.heap(), expected)?;
        self.settle(name, answer.as_str(), wanted.as_str())
    }
}
