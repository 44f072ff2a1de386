// A case of the check: a column, changes to it, and the record that is at fault, or None where it is well formed.
use super::change::Change;
use super::layout::lay;
use super::report::Report;
use records::Record;

#[derive(Clone, Copy)]
pub struct Case {
    pub name: &'static str,
    pub records: &'static [Record],
    pub changes: &'static [Change],
    pub expected: Option<u64>,
}

fn try_case(report: &mut Report<'_>, case: Case) -> anyhow::Result<()> {
    let mut column = lay(report.heap(), case.records)?;
    column.change_all(case.changes)?;
    report.try_column(case.name, &column, 0, case.expected)
}

pub fn try_all(report: &mut Report<'_>, tables: &[&[Case]]) -> anyhow::Result<()> {
    for cases in tables {
        for case in *cases {
            try_case(report, *case)?;
        }
    }
    Ok(())
}
