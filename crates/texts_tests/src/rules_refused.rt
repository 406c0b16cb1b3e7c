// Rules texts that are refused.
use crate::asks::all_stopped;
use faults::layer::Layer;

#[test]
fn counts(rt: HostRuntime) {
    all_stopped(&rt, &[b"formulas=0\n", b"formulas=65\n"], Layer::Line, 3, 1);
    all_stopped(
        &rt,
        &[
            b"formulas=03\n",
            b"formulas=\n",
            b"formula=3\n",
            b"formulas=3 \n",
            b"\n",
        ],
        Layer::Line,
        2,
        1,
    );
    all_stopped(
        &rt,
        &[
            b"formulas=3\nf=0 op=signal a=0 b=0\nf=1 op=signal a=1 b=0\nf=2 op=next a=1 b=0\nrules=0\n",
            b"formulas=3\nf=0 op=signal a=0 b=0\nf=1 op=signal a=1 b=0\nf=2 op=next a=1 b=0\nrules=17\n",
        ],
        Layer::Line,
        3,
        5,
    );
    all_stopped(
        &rt,
        &[
            b"formulas=3\nf=0 op=signal a=0 b=0\nf=1 op=signal a=1 b=0\nf=2 op=next a=1 b=0\nrule=1\n",
        ],
        Layer::Line,
        2,
        5,
    );
}

#[test]
fn formula_forms(rt: HostRuntime) {
    all_stopped(
        &rt,
        &[
            b"formulas=3\nf=0 op=signals a=0 b=0\n",
            b"formulas=3\nf=0 op= a=0 b=0\n",
            b"formulas=3\nf=0 op=7 a=0 b=0\n",
        ],
        Layer::Line,
        2,
        2,
    );
    all_stopped(
        &rt,
        &[
            b"formulas=3\nf=0 op=signal a=0 b=0\nf=1 a=1 op=signal b=0\n",
            b"formulas=3\nf=0 op=signal a=0 b=0\nf=1 op=signal a=1\n",
            b"formulas=3\nf=0 op=signal a=0 b=0\nf=9 op=signal a=1 b=0 \n",
        ],
        Layer::Line,
        2,
        3,
    );
    all_stopped(
        &rt,
        &[b"formulas=3\nf=0 op=signal a=0 b=0\nf=1 op=signal a=1 b=0\nf=2 op=Next a=1 b=0\n"],
        Layer::Line,
        2,
        4,
    );
}

#[test]
fn formula_ranges(rt: HostRuntime) {
    all_stopped(
        &rt,
        &[
            b"formulas=3\nf=1 op=signal a=0 b=0\n",
            b"formulas=3\nf=0 op=signal a=32 b=0\n",
            b"formulas=3\nf=0 op=signal a=0 b=1\n",
            b"formulas=3\nf=0 op=true a=1 b=0\n",
        ],
        Layer::Line,
        3,
        2,
    );
    all_stopped(
        &rt,
        &[
            b"formulas=3\nf=0 op=signal a=0 b=0\nf=1 op=mark a=0 b=0\n",
            b"formulas=3\nf=0 op=signal a=0 b=0\nf=1 op=mark a=256 b=0\n",
            b"formulas=3\nf=0 op=signal a=0 b=0\nf=1 op=link a=16 b=0\n",
        ],
        Layer::Line,
        3,
        3,
    );
    all_stopped(
        &rt,
        &[
            b"formulas=3\nf=0 op=signal a=0 b=0\nf=1 op=signal a=1 b=0\nf=2 op=some a=0 b=0\n",
            b"formulas=3\nf=0 op=signal a=0 b=0\nf=1 op=signal a=1 b=0\nf=2 op=next a=4294967296 b=0\n",
            b"formulas=3\nf=0 op=signal a=0 b=0\nf=1 op=signal a=1 b=0\nf=2 op=next a=2 b=1\n",
        ],
        Layer::Line,
        3,
        4,
    );
}

// A part is below its formula.
#[test]
fn parts(rt: HostRuntime) {
    all_stopped(
        &rt,
        &[b"formulas=3\nf=0 op=not a=0 b=0\n"],
        Layer::Table,
        4,
        2,
    );
    all_stopped(
        &rt,
        &[b"formulas=3\nf=0 op=signal a=0 b=0\nf=1 op=and a=0 b=1\n"],
        Layer::Table,
        4,
        3,
    );
    all_stopped(
        &rt,
        &[
            b"formulas=3\nf=0 op=signal a=0 b=0\nf=1 op=signal a=1 b=0\nf=2 op=next a=2 b=0\n",
            b"formulas=3\nf=0 op=signal a=0 b=0\nf=1 op=signal a=1 b=0\nf=2 op=until a=4294967295 b=0\n",
        ],
        Layer::Table,
        4,
        4,
    );
}

#[test]
fn rule_lines(rt: HostRuntime) {
    all_stopped(
        &rt,
        &[
            b"formulas=3\nf=0 op=signal a=0 b=0\nf=1 op=signal a=1 b=0\nf=2 op=next a=1 b=0\nrules=1\nr=1 when=0 expect=2\n",
            b"formulas=3\nf=0 op=signal a=0 b=0\nf=1 op=signal a=1 b=0\nf=2 op=next a=1 b=0\nrules=1\nr=0 when=0 expect=4294967296\n",
        ],
        Layer::Line,
        3,
        6,
    );
    all_stopped(
        &rt,
        &[
            b"formulas=3\nf=0 op=signal a=0 b=0\nf=1 op=signal a=1 b=0\nf=2 op=next a=1 b=0\nrules=1\nr=0 expect=2 when=0\n",
        ],
        Layer::Line,
        2,
        6,
    );
    all_stopped(
        &rt,
        &[
            b"formulas=3\nf=0 op=signal a=0 b=0\nf=1 op=signal a=1 b=0\nf=2 op=next a=1 b=0\nrules=1\nr=0 when=0 expect=3\n",
            b"formulas=3\nf=0 op=signal a=0 b=0\nf=1 op=signal a=1 b=0\nf=2 op=next a=1 b=0\nrules=1\nr=0 when=64 expect=2\n",
        ],
        Layer::Table,
        4,
        6,
    );
}

// A rule may not name a formula that speaks of an unbound variable.
#[test]
fn loose_rules(rt: HostRuntime) {
    all_stopped(
        &rt,
        &[
            b"formulas=3\nf=0 op=signal a=0 b=0\nf=1 op=var a=0 b=0\nf=2 op=next a=1 b=0\nrules=1\nr=0 when=0 expect=2\n",
            b"formulas=3\nf=0 op=signal a=0 b=0\nf=1 op=link a=1 b=0\nf=2 op=bind a=1 b=0\nrules=1\nr=0 when=0 expect=1\n",
        ],
        Layer::Table,
        5,
        6,
    );
}
