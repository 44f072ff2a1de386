//! Tries the hashes on strings whose numbers are known: FNV-1a on the vectors of a file, `Lead` on a table worked out by
//! hand. A number other than the known one ends the run with an error, after all are tried.
#![tactic(auto)]

mod failure;
mod leads;
mod tally;
mod vector;

use failure::Failure;
use hashes::{Fnv1a, Lead};
use std::fs;
use tally::Tally;

const FILE: &str = "fnv1a64.txt";

fn try_fnv(rt: &HostRuntime) -> Result<Tally, Failure> {
    let text = fs::read_to_string(rt, FILE)?;
    let vectors = vector::parse_all(rt.alloc(), text.as_str())?;
    let mut tally = Tally::default();
    for v in &vectors {
        tally.compare(rt, &mut Fnv1a {}, v.bytes.as_slice(), v.number)?;
    }
    println!(rt;
        "fnv-1a 64: {} vectors, {} agree",
        tally.tried, tally.agreed
    )?;
    Ok(tally)
}

// It shares no more than `compare` with `try_fnv`: the strings, the hash and the words printed all differ.
fn try_lead(rt: &HostRuntime) -> Result<Tally, Failure> {
    let mut tally = Tally::default();
    for (text, number) in leads::LEADS {
        tally.compare(rt, &mut Lead {}, text.as_bytes(), *number)?;
    }
    println!(rt; "lead: {} values, {} agree", tally.tried, tally.agreed)?;
    Ok(tally)
}

fn run(rt: &HostRuntime) -> Result<(), Failure> {
    let fnv = try_fnv(rt)?;
    let lead = try_lead(rt)?;
    if fnv.all_agree() && lead.all_agree() {
        Ok(())
    } else {
        Err(Failure::Disagreement)
    }
}

fn main(rt: HostRuntime) -> Result<(), Failure> {
    run(&rt)
}
