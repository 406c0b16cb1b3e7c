// The text record.
use labelling::whole::label_whole;
use labels::LabelKind;
use labels::dated::Dated;
use logic::types::{Formula, Rule};
use records::readable::Readable;
use std::test::Fail;
use table::finished::Table;
use textrecord::text::TextRecord;

const TWO: &[u8] =
    b"s=1 signals=5 mark=0 ka=0 ta=0 kb=0 tb=0\ns=2 signals=6 mark=9 ka=2 ta=1 kb=0 tb=0\ns=4 signals=6 mark=9 ka=2 ta=1 kb=0 tb=0\n";

#[test]
fn leading_lines(rt: HostRuntime) {
    let record = TextRecord::new(TWO);
    assert_eq!(rt; record.count(), 2);
    assert_eq!(rt; record.state(1).signals, 5);
    assert_eq!(rt; record.state(2).nominal, 9);
    assert_eq!(rt; record.state(2).first.target, 1);
    assert_eq!(rt; record.state(0).signals, 0);
    assert_eq!(rt; record.state(3).signals, 0);
}

#[test]
fn no_lines(rt: HostRuntime) {
    assert_eq!(rt; TextRecord::new(b"").count(), 0);
    assert_eq!(rt;
        TextRecord::new(b"s=2 signals=5 mark=0 ka=0 ta=0 kb=0 tb=0\n").count(),
        0
    );
    assert_eq!(rt;
        TextRecord::new(b"s=1 signals=5 mark=0 ka=0 ta=0 kb=0 tb=0").count(),
        0
    );
}

// The two states of the text are labelled as they would be in rows.
#[test]
fn labelled(rt: HostRuntime) -> Result<(), Fail> {
    let formulas = [Formula::True, Formula::Signal(0), Formula::Some(2, 0)];
    let rule = Rule {
        condition: 1,
        content: 2,
    };
    let table = Table::of(&formulas, &[rule]).map_err(|_| Fail::new("no table"))?;
    let mut labels = [Dated::unknown(); 6];
    let mut work = [Dated::unknown(); 6];
    assert_eq!(rt;
        label_whole(&table, &TextRecord::new(TWO), &mut labels, &mut work).ok(),
        Some(2)
    );
    let expected = [256, 255, 256, -255, -256, 255];
    for (label, value) in labels.iter().zip(&expected) {
        assert_eq!(rt; label.value(), *value);
    }
    Ok(())
}
