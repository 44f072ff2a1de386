// Cases of the format and of the calls, each with the answer that the rules give. A case that is answered otherwise ends the run with
// an error that names it.
#![tactic(auto)]

mod calls;
mod case;
mod change;
mod example;
mod faults;
mod large;
mod layout;
mod malformed;
mod memory;
mod report;
mod spans;
mod well_formed;

use report::Report;

fn run(report: &mut Report<'_>) -> anyhow::Result<()> {
    well_formed::run(report)?;
    malformed::run(report)?;
    example::run(report)?;
    spans::run(report)?;
    large::run(report)?;
    calls::run(report)?;
    faults::run(report)
}

fn main(rt: HostRuntime) -> anyhow::Result<()> {
    let mut report = Report::new(&rt);
    run(&mut report)?;
    println!(rt; "{} cases", report.passed)?;
    Ok(())
}
