// Tables for the tests, and what they expect of labels.
use labelling::whole::label_whole;
use labels::LabelKind;
use labels::dated::Dated;
use logic::types::{Formula, Rule, State};
use records::rows::Rows;
use std::process::Abort;
use std::test::Fail;
use table::finished::Table;

// The table of these formulas, with a rule of the last one.
pub(crate) fn table_of(formulas: &[Formula]) -> Result<Table, Fail> {
    let last = formulas.len().saturating_sub(1);
    let rule = Rule {
        condition: last,
        content: last,
    };
    Table::of(formulas, &[rule]).map_err(|_| Fail::new("no table"))
}

// The last formula is labelled so at the states, in dated numbers. Arrays, as a caller without a heap has them.
pub(crate) fn has_labels(
    rt: &impl Abort,
    formulas: &[Formula],
    log: &[State],
    expected: &[i16],
) -> Result<(), Fail> {
    let table = table_of(formulas)?;
    let mut labels = [Dated::true_from(9); 64];
    let mut work = [Dated::true_from(9); 64];
    assert!(rt; label_whole(&table, &Rows::new(log), &mut labels, &mut work).is_ok());
    let n = log.len();
    assert!(rt; n == expected.len() && n <= 64 && formulas.len() <= 64 && !formulas.is_empty());
    let last = (formulas.len() - 1) * n;
    assert!(rt; last + n <= labels.len());
    has_values(rt, &labels[last..last + n], expected);
    Ok(())
}

// The cells hold labels with these numbers.
pub(crate) fn has_values(rt: &impl Abort, cells: &[Dated], expected: &[i16]) {
    assert!(rt; cells.len() == expected.len());
    for (cell, value) in cells.iter().zip(expected) {
        assert_eq!(rt; cell.value(), *value);
    }
}
