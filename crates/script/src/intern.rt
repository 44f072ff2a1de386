use crate::column::Column;
use crate::layout::{Entries, Keys, lay_out};
use crate::mistake::Mistake;
use crate::parse::Hashing;
use dictionary::{Stretch, Tables, merge_pieces};
use hashes::{Fnv1a, Hash, Lead};
use records::Slot;
use std::alloc::{AllocError, Global};
use std::fmt::Write;

// What became of the words.
#[derive(Drop)]
struct Interned {
    // For each word, one more than the number of its entry, as the merge leaves it in a lent table.
    keys: Vec<u64>,
    // For each entry, the word that it was made for.
    chosen: Vec<Slot>,
}

// What a word stands for; None for an absent one.
fn entry<'a>(word: &'a str) -> Option<&'a str> {
    match word {
        "-" => None,
        "\"\"" => Some(""),
        _ => Some(word),
    }
}

// A dictionary column that has each word for an entry and for a row.
fn words_column(heap: Global, words: &[&str]) -> Result<Column, AllocError> {
    let keys: Vec<Option<u64>> = (0..words.len() as u64).map(|i| Some(i)).collect(heap)?;
    let entries: Vec<Option<&str>> = words.iter().map(|word| entry(word)).collect(heap)?;
    let keys = Keys {
        width: 8,
        signed: false,
        rows: keys.as_slice(),
    };
    let entries = Entries {
        width: 8,
        rows: entries.as_slice(),
    };
    lay_out(heap, keys, entries)
}

// The smallest power of two above n + 128, for the table that is lent. The merge has it as a shift, which its hashes need.
fn bucket_count(n: usize) -> Option<usize> {
    n.checked_add(129)?.checked_next_power_of_two()
}

fn intern_words<H: Hash>(heap: Global, hash: &mut H, words: &[&str]) -> Result<Interned, Mistake> {
    let column = words_column(heap, words)?;
    let n = words.len();
    let count = bucket_count(n).ok_or(Mistake::NoFit)?;
    let mut keys = vec![in heap; 0; n]?;
    let mut buckets = vec![in heap; 0; count]?;
    let mut chosen = vec![in heap; Slot::default(); n]?;
    let stretch = Stretch {
        place: 0,
        first: 0,
        rows: n as u64,
    };
    let merged = merge_pieces(
        column.records.as_slice(),
        column.bytes.as_slice(),
        &[stretch],
        hash,
        &mut Tables {
            keys: keys.as_mut_slice(),
            buckets: buckets.as_mut_slice(),
            chosen: chosen.as_mut_slice(),
        },
    );
    let entries = merged.map_err(|_| Mistake::NoFit)?;
    chosen.truncate(entries as usize);
    Ok(Interned { keys, chosen })
}

fn show_words(out: &mut String, words: &[&str], all: &Interned) -> Result<(), AllocError> {
    for (i, (word, key)) in words.iter().zip(all.keys.iter()).enumerate() {
        let entry = key.saturating_sub(1);
        let state = match all.chosen.get(entry as usize) {
            Some(slot) if slot.entry == i as u64 => "new",
            _ => "known",
        };
        writeln!(out, "{word} {entry} {state}")?;
    }
    Ok(())
}

fn show_entries(out: &mut String, words: &[&str], all: &Interned) -> Result<(), AllocError> {
    for (entry, slot) in all.chosen.iter().enumerate() {
        if let Some(word) = words.get(slot.entry as usize) {
            writeln!(out, "entry {entry} {word}")?;
        }
    }
    Ok(())
}

/// Interns the words of a line: a line for each word, then one for each entry.
pub fn show_interned(
    out: &mut String,
    heap: Global,
    hash: Hashing,
    words: &[&str],
) -> Result<(), Mistake> {
    // A line names its hash by a word; each is a type of its own.
    let all = match hash {
        Hashing::Fnv => intern_words(heap, &mut Fnv1a {}, words)?,
        Hashing::Lead => intern_words(heap, &mut Lead {}, words)?,
    };
    show_words(out, words, &all)?;
    Ok(show_entries(out, words, &all)?)
}
