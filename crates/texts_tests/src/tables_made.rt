// Tables that are built by calls: limits on both sides, and which defect fits first.
use logic::types::{Formula, Rule};
use std::process::Abort;
use table::defects::Defect;
use table::draft::Draft;
use table::finished::Table;

const ALWAYS: Rule = Rule {
    condition: 0,
    content: 0,
};

// The table of these formulas and rules has this defect, or none.
fn made(rt: &impl Abort, formulas: &[Formula], rules: &[Rule], defect: Option<Defect>) {
    assert_eq!(rt; Table::of(formulas, rules).err(), defect);
}

#[test]
fn full_tables(rt: HostRuntime) {
    made(&rt, &[Formula::True; 64], &[ALWAYS; 16], None);
    made(
        &rt,
        &[Formula::True; 65],
        &[ALWAYS; 16],
        Some(Defect::OutOfRange),
    );
    made(
        &rt,
        &[Formula::True; 64],
        &[ALWAYS; 17],
        Some(Defect::OutOfRange),
    );
    made(&rt, &[], &[ALWAYS], Some(Defect::NoSuchFormula));
    made(&rt, &[], &[], Some(Defect::OutOfRange));
    made(&rt, &[Formula::True], &[], Some(Defect::OutOfRange));
}

// A full draft refuses with 3 what it would else refuse with 4.
#[test]
fn full_drafts(rt: HostRuntime) {
    let mut draft = Draft::new();
    for _ in 0..64 {
        assert!(rt; draft.add_formula(Formula::True).is_ok());
    }
    assert_eq!(rt;
        draft.add_formula(Formula::Not(64)),
        Err(Defect::OutOfRange)
    );
    for _ in 0..16 {
        assert!(rt; draft.add_rule(ALWAYS).is_ok());
    }
    let dangling = Rule {
        condition: 64,
        content: 0,
    };
    assert_eq!(rt; draft.add_rule(dangling), Err(Defect::OutOfRange));
}

// Formula 0 is loose, and there is no formula 1.
#[test]
fn defects_in_order(rt: HostRuntime) {
    let mut draft = Draft::new();
    assert_eq!(rt;
        draft.add_formula(Formula::Some(16, 0)),
        Err(Defect::OutOfRange)
    );
    assert_eq!(rt;
        draft.add_formula(Formula::Some(15, 0)),
        Err(Defect::PartNotBelow)
    );
    assert_eq!(rt; draft.add_formula(Formula::Variable), Ok(0));
    for (condition, content, defect) in [
        (0, 1, Defect::NoSuchFormula),
        (1, 0, Defect::NoSuchFormula),
        (0, 0, Defect::LooseRule),
    ] {
        assert_eq!(rt; draft.add_rule(Rule { condition, content }), Err(defect));
    }
}
