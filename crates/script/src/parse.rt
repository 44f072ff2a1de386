ghost use Rattle.std.specs.Prelude.{◌≡◌};
ghost use Rattle.script.specs.Hashings.{hashing_named};

use crate::mistake::{Form, Mistake};
use crate::width::Width;
use records::Record;
use std::alloc::Global;
use std::str::FromStr;
use store::Stretch;

/// A line between `column` and `end`.
#[derive(Drop)]
pub enum Part<'a> {
    Record(Record),
    Bytes { hex: &'a str },
    End,
}

/// A call that names its column by its place, or a look at the whole store.
#[derive(Clone, Copy, Debug, PartialEq, Eq)]
pub enum Call {
    Slice(Stretch),
    Cell { place: u64, row: u64 },
    Rows { place: u64 },
    Dump,
}

/// The hash that an `intern` line names.
#[derive(Clone, Copy, Debug, PartialEq, Eq)]
pub enum Hashing {
    Fnv,
    Lead,
}

/// What any other line asks for.
#[derive(Drop)]
pub enum Command<'a> {
    Memory {
        records: u64,
        bytes: u64,
    },
    Column {
        name: &'a str,
    },
    Names {
        name: &'a str,
        width: Width,
        words: Vec<&'a str>,
    },
    Admit {
        name: &'a str,
    },
    Intern {
        hash: Hashing,
        words: Vec<&'a str>,
    },
    Call(Call),
}

impl FromStr for Hashing {
    type Err = Mistake;

    ghost from_str_gives = { λ word r. r ≡ hashing_named word };

    fn from_str(word: &str) -> Result<Hashing, Mistake> {
        match word {
            "fnv" => Ok(Hashing::Fnv),
            "lead" => Ok(Hashing::Lead),
            _ => Err(Mistake::NoHash),
        }
    }
}

fn number(word: &str) -> Result<u64, Mistake> {
    word.parse().map_err(|_| Mistake::NoNumber)
}

// The words after the first, of a line of the form that is given: N numbers.
fn numbers<const N: usize>(words: &[&str], form: Form) -> Result<[u64; N], Mistake> {
    if words.len() != N {
        return Err(Mistake::Words(form));
    }
    let mut all = [0; N];
    for (n, word) in all.iter_mut().zip(words) {
        *n = number(word)?;
    }
    Ok(all)
}

// The one word after the first, of a line of the form that is given.
fn only<'a>(words: &[&'a str], form: Form) -> Result<&'a str, Mistake> {
    let [word] = words else {
        return Err(Mistake::Words(form));
    };
    Ok(word)
}

fn names<'a>(heap: Global, words: &[&'a str]) -> Result<Command<'a>, Mistake> {
    let [name, width, rest @ ..] = words else {
        return Err(Mistake::Words(Form::Names));
    };
    Ok(Command::Names {
        name,
        width: Width::try_from(number(width)?)?,
        words: rest.to_vec(heap)?,
    })
}

fn intern<'a>(heap: Global, words: &[&'a str]) -> Result<Command<'a>, Mistake> {
    let [hash, rest @ ..] = words else {
        return Err(Mistake::Words(Form::Intern));
    };
    Ok(Command::Intern {
        hash: hash.parse()?,
        words: rest.to_vec(heap)?,
    })
}

fn memory<'a>(words: &[&'a str]) -> Result<Command<'a>, Mistake> {
    let [records, bytes] = numbers::<2>(words, Form::Memory)?;
    Ok(Command::Memory { records, bytes })
}

fn slice(words: &[&str]) -> Result<Call, Mistake> {
    let [place, first, rows] = numbers::<3>(words, Form::Slice)?;
    Ok(Call::Slice(Stretch { place, first, rows }))
}

fn cell(words: &[&str]) -> Result<Call, Mistake> {
    let [place, row] = numbers::<2>(words, Form::Cell)?;
    Ok(Call::Cell { place, row })
}

fn rows(words: &[&str]) -> Result<Call, Mistake> {
    let [place] = numbers::<1>(words, Form::Rows)?;
    Ok(Call::Rows { place })
}

fn placed(first: &str, rest: &[&str]) -> Result<Call, Mistake> {
    match first {
        "slice" => slice(rest),
        "cell" => cell(rest),
        "rows" => rows(rest),
        "dump" if rest.is_empty() => Ok(Call::Dump),
        "dump" => Err(Mistake::Words(Form::Dump)),
        _ => Err(Mistake::Unknown),
    }
}

/// The command of a line outside a column, by its first word and the others.
pub fn parse_line<'a>(heap: Global, first: &str, rest: &[&'a str]) -> Result<Command<'a>, Mistake> {
    match first {
        "memory" => memory(rest),
        "column" => Ok(Command::Column {
            name: only(rest, Form::Column)?,
        }),
        "names" => names(heap, rest),
        "admit" => Ok(Command::Admit {
            name: only(rest, Form::Admit)?,
        }),
        "intern" => intern(heap, rest),
        _ => Ok(Command::Call(placed(first, rest)?)),
    }
}

/// What a line inside a column says, by its first word and the others.
pub fn parse_part<'a>(first: &str, rest: &[&'a str]) -> Result<Part<'a>, Mistake> {
    match first {
        "record" => Ok(Part::Record(Record::from(numbers::<13>(rest, Form::Record)?))),
        "bytes" => Ok(Part::Bytes {
            hex: only(rest, Form::Bytes)?,
        }),
        "end" if rest.is_empty() => Ok(Part::End),
        "end" => Err(Mistake::Words(Form::End)),
        _ => Err(Mistake::InColumn),
    }
}
