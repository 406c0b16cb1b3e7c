// Rules texts that are taken, and those that end too soon.
use crate::asks::stopped;
use faults::layer::Layer;
use logic::types::Formula;
use rulestexts::texts::read_rules_text;
use std::process::Abort;

const WHOLE: &[u8] =
    b"formulas=3\nf=0 op=signal a=0 b=0\nf=1 op=signal a=1 b=0\nf=2 op=next a=1 b=0\nrules=1\nr=0 when=0 expect=2\ns=1";

const EVERY: &[u8] =
    b"formulas=15\nf=0 op=true a=0 b=0\nf=1 op=signal a=31 b=0\nf=2 op=mark a=255 b=0\nf=3 op=not a=0 b=0\nf=4 op=and a=0 b=1\nf=5 op=or a=1 b=2\nf=6 op=next a=3 b=0\nf=7 op=prev a=4 b=0\nf=8 op=until a=5 b=6\nf=9 op=since a=7 b=8\nf=10 op=at a=1 b=9\nf=11 op=var a=0 b=0\nf=12 op=link a=15 b=0\nf=13 op=bind a=11 b=0\nf=14 op=some a=1 b=12\nrules=2\nr=0 when=0 expect=13\nr=1 when=14 expect=10\n";

// The used bytes, and how many formulas and rules there are.
fn counted(rt: &impl Abort, text: &[u8], used: usize, formulas: usize, rules: usize) {
    let counts = read_rules_text(text).map(|read| {
        (
            read.used,
            read.value.formulas().len(),
            read.value.rules().len(),
        )
    });
    assert_eq!(rt; counts, Ok((used, formulas, rules)));
}

#[test]
fn whole_texts(rt: HostRuntime) {
    counted(&rt, WHOLE, 103, 3, 1);
    counted(&rt, EVERY, 371, 15, 2);
}

#[test]
fn last_formula(rt: HostRuntime) {
    let last = read_rules_text(EVERY).map(|read| read.value.formulas().get(14).copied());
    assert_eq!(rt; last, Ok(Some(Formula::Some(1, 12))));
}

// A missing line is a torn one.
#[test]
fn ends_after_each_line(rt: HostRuntime) {
    stopped(&rt, &WHOLE[0..0], Layer::Line, 1, 1);
    stopped(&rt, &WHOLE[0..11], Layer::Line, 1, 2);
    stopped(&rt, &WHOLE[0..33], Layer::Line, 1, 3);
    stopped(&rt, &WHOLE[0..55], Layer::Line, 1, 4);
    stopped(&rt, &WHOLE[0..75], Layer::Line, 1, 5);
    stopped(&rt, &WHOLE[0..83], Layer::Line, 1, 6);
}
