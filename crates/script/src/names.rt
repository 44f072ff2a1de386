use crate::column::Column;
use crate::layout::{Entries, Keys, lay_out};
use crate::mistake::Mistake;
use crate::width::Width;
use numbers::largest_of;
use std::alloc::Global;
use std::collections::BTreeMap;

// How many names a signed key of `width` bytes can number. A width that no key has counts as the largest.
fn most(width: u64) -> u64 {
    match Width::try_from(width) {
        Ok(width) => largest_of(true, width.bytes()) + 1,
        Err(_) => 1 << 63,
    }
}

// The different names so far, in the order of their first appearance, and the number of each. They are searched in a tree: a hash set
// with a fixed seed compares a name with all before it where all have one hash, and such names can be picked.
#[derive(Drop)]
struct Numbered<'a> {
    names: Vec<Option<&'a str>>,
    numbers: BTreeMap<&'a str, u64>,
}

impl<'a> Numbered<'a> {
    // The number of a name, which it has from its first appearance on; None for a null row.
    fn key(&mut self, width: u64, word: &'a str) -> Result<Option<u64>, Mistake> {
        if word == "-" {
            return Ok(None);
        }
        if let Some(n) = self.numbers.get(word) {
            return Ok(Some(*n));
        }
        let n = self.names.len() as u64;
        if n >= most(width) {
            return Err(Mistake::TooManyNames);
        }
        self.names.push(Some(word))?;
        self.numbers.insert(word, n)?;
        Ok(Some(n))
    }
}

/// A dictionary column of names, with signed keys of `width` bytes; `-` is a null row. Any width is taken: the type
/// `Width` would ask more of callers.
pub fn names_column(heap: Global, width: u64, words: &[&str]) -> Result<Column, Mistake> {
    let mut entries = Numbered {
        names: Vec::new(heap),
        numbers: BTreeMap::new(heap),
    };
    let mut keys = Vec::new(heap);
    for word in words {
        keys.push(entries.key(width, word)?)?;
    }
    let keys = Keys {
        width,
        signed: true,
        rows: keys.as_slice(),
    };
    let entries = Entries {
        width: 4,
        rows: entries.names.as_slice(),
    };
    Ok(lay_out(heap, keys, entries)?)
}
