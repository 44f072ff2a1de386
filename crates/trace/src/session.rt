use crate::memory::Memory;
use script::{
    Call, Column, Command, Hashing, Mistake, Part, names_column, parse_line, parse_part, read_hex,
    show_cell, show_interned, show_place,
};
use std::alloc::{AllocError, Global};
use std::collections::BTreeMap;

/// A script on its way: what its lines made so far, and what is to be printed.
#[derive(Drop)]
pub struct Session {
    heap: Global,
    memory: Option<Memory>,
    columns: BTreeMap<String, Column>,
    // The column whose lines are being read.
    open: Option<(String, Column)>,
    pub out: String,
}

fn echo(out: &mut String, words: &[&str]) -> Result<(), AllocError> {
    out.push('>')?;
    for word in words {
        out.push(' ')?;
        out.push_str(word)?;
    }
    out.push('\n')
}

fn answer(out: &mut String, memory: &mut Memory, call: Call) -> Result<(), AllocError> {
    match call {
        Call::Slice(stretch) => show_place(out, memory.slice(stretch)),
        Call::Cell { place, row } => show_cell(out, memory.cell(place, row)),
        Call::Rows { place } => memory.show_rows(out, place),
        Call::Dump => memory.show_dump(out),
    }
}

impl Session {
    pub fn new(heap: Global) -> Session {
        Session {
            heap,
            memory: None,
            columns: BTreeMap::new(heap),
            open: None,
            out: String::new(heap),
        }
    }

    /// Carries out one line.
    pub fn step(&mut self, line: &str) -> Result<(), Mistake> {
        let words: Vec<&str> = line.split_whitespace().collect(self.heap)?;
        let Some((first, rest)) = words.as_slice().split_first() else {
            return Ok(());
        };
        if first.starts_with('#') {
            return Ok(());
        }
        match self.open.take() {
            Some((name, column)) => self.add(name, column, parse_part(first, rest)?),
            None => self.carry_out(parse_line(self.heap, first, rest)?, words.as_slice()),
        }
    }

    /// A script may not end inside a column.
    pub fn finish(&self) -> Result<(), Mistake> {
        if self.open.is_some() {
            Err(Mistake::InColumn)
        } else {
            Ok(())
        }
    }

    fn add(&mut self, name: String, mut column: Column, part: Part<'_>) -> Result<(), Mistake> {
        match part {
            Part::Record(record) => column.records.push(record)?,
            Part::Bytes { hex } => read_hex(&mut column.bytes, hex)?,
            Part::End => return self.keep(name, column),
        }
        self.open = Some((name, column));
        Ok(())
    }

    // A column given again under the same name replaces the old one.
    fn keep(&mut self, name: String, column: Column) -> Result<(), Mistake> {
        self.columns.insert(name, column)?;
        Ok(())
    }

    fn carry_out(&mut self, command: Command<'_>, words: &[&str]) -> Result<(), Mistake> {
        match command {
            Command::Memory { records, bytes } => self.set_up(records, bytes),
            Command::Column { name } => self.begin(name),
            Command::Names { name, width, words } => {
                let column = names_column(self.heap, width.bytes() as u64, words.as_slice())?;
                self.keep(String::from_str(self.heap, name)?, column)
            }
            Command::Admit { name } => self.admit(name, words),
            Command::Intern { hash, words: list } => self.intern(hash, list.as_slice(), words),
            Command::Call(call) => self.ask(call, words),
        }
    }

    fn set_up(&mut self, records: u64, bytes: u64) -> Result<(), Mistake> {
        // The old memory goes first, so that the new one can have its place.
        self.memory = None;
        self.memory = Some(Memory::new(self.heap, records, bytes)?);
        Ok(())
    }

    fn begin(&mut self, name: &str) -> Result<(), Mistake> {
        self.open = Some((String::from_str(self.heap, name)?, Column::new(self.heap)));
        Ok(())
    }

    fn admit(&mut self, name: &str, words: &[&str]) -> Result<(), Mistake> {
        let memory = self.memory.as_mut().ok_or(Mistake::NoMemory)?;
        let column = self.columns.get(name).ok_or(Mistake::NoColumn)?;
        echo(&mut self.out, words)?;
        Ok(show_place(&mut self.out, memory.admit(column))?)
    }

    fn intern(&mut self, hash: Hashing, list: &[&str], words: &[&str]) -> Result<(), Mistake> {
        echo(&mut self.out, words)?;
        show_interned(&mut self.out, self.heap, hash, list)
    }

    fn ask(&mut self, call: Call, words: &[&str]) -> Result<(), Mistake> {
        let memory = self.memory.as_mut().ok_or(Mistake::NoMemory)?;
        echo(&mut self.out, words)?;
        Ok(answer(&mut self.out, memory, call)?)
    }
}
