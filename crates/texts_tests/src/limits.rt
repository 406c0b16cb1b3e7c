// Limits of rules texts, on both sides, and which refusal fits first.
use faults::fault::Fault;
use rulestexts::texts::read_rules_text;
use std::alloc::{AllocError, Global};
use std::process::Abort;

// The refusal of a text, by number and line.
type Refused = Option<(u8, usize)>;

fn refusal(text: &str) -> Refused {
    read_rules_text(text.as_bytes())
        .err()
        .map(|fault| (fault.number(), fault.place()))
}

// A text of so many formulas and rules, all of them in order.
fn sized(heap: Global, formulas: usize, rules: usize) -> Result<String, AllocError> {
    let mut text = String::new(heap);
    writeln!(text, "formulas={formulas}")?;
    for k in 0..formulas {
        writeln!(text, "f={k} op=true a=0 b=0")?;
    }
    writeln!(text, "rules={rules}")?;
    for k in 0..rules {
        writeln!(text, "r={k} when=0 expect=0")?;
    }
    Ok(text)
}

// Each formula, as number 3 of a text, is refused so, at its line.
fn formulas(
    rt: &impl Abort,
    heap: Global,
    lines: &[&str],
    expected: Refused,
) -> Result<(), AllocError> {
    for line in lines {
        let text = format!(in heap;
            "formulas=4\nf=0 op=true a=0 b=0\nf=1 op=true a=0 b=0\nf=2 op=true a=0 b=0\nf=3 {line}\nrules=1\nr=0 when=0 expect=0\n"
        )?;
        assert_eq!(rt; refusal(text.as_str()), expected, "{line}");
    }
    Ok(())
}

// Each rule of a text, whose formula 1 is loose and which has two, is refused so, at its line.
fn rules(
    rt: &impl Abort,
    heap: Global,
    lines: &[&str],
    expected: Refused,
) -> Result<(), AllocError> {
    for line in lines {
        let text = format!(in heap;
            "formulas=2\nf=0 op=true a=0 b=0\nf=1 op=var a=0 b=0\nrules=1\n{line}\n"
        )?;
        assert_eq!(rt; refusal(text.as_str()), expected, "{line}");
    }
    Ok(())
}

#[test]
fn sizes(rt: HostRuntime) -> Result<(), AllocError> {
    for (formulas, rules, expected) in [
        (64, 16, None),
        (1, 1, None),
        (65, 16, Some((3, 1))),
        (64, 17, Some((3, 66))),
        (0, 1, Some((3, 1))),
        (1, 0, Some((3, 3))),
    ] {
        let text = sized(rt.alloc(), formulas, rules)?;
        assert_eq!(rt; refusal(text.as_str()), expected, "{formulas} {rules}");
    }
    Ok(())
}

#[test]
fn formulas_within(rt: HostRuntime) -> Result<(), AllocError> {
    formulas(
        &rt,
        rt.alloc(),
        &[
            "op=true a=0 b=0",
            "op=signal a=0 b=0",
            "op=signal a=31 b=0",
            "op=mark a=1 b=0",
            "op=mark a=255 b=0",
            "op=not a=2 b=0",
            "op=and a=2 b=2",
            "op=or a=2 b=2",
            "op=next a=2 b=0",
            "op=prev a=2 b=0",
            "op=until a=2 b=2",
            "op=since a=2 b=2",
            "op=at a=1 b=0",
            "op=at a=255 b=2",
            "op=var a=0 b=0",
            "op=link a=1 b=0",
            "op=link a=15 b=0",
            "op=bind a=2 b=0",
            "op=some a=1 b=0",
            "op=some a=15 b=2",
        ],
        None,
    )
}

// Each number just outside, and 3 before 4.
#[test]
fn formulas_out_of_range(rt: HostRuntime) -> Result<(), AllocError> {
    formulas(
        &rt,
        rt.alloc(),
        &[
            "op=true a=1 b=0",
            "op=true a=0 b=1",
            "op=signal a=32 b=0",
            "op=signal a=0 b=1",
            "op=mark a=0 b=0",
            "op=mark a=256 b=0",
            "op=mark a=1 b=1",
            "op=not a=0 b=1",
            "op=not a=3 b=1",
            "op=not a=4294967296 b=0",
            "op=and a=4294967296 b=0",
            "op=and a=3 b=4294967296",
            "op=or a=4294967296 b=0",
            "op=or a=0 b=4294967296",
            "op=next a=0 b=1",
            "op=next a=4294967296 b=0",
            "op=prev a=0 b=1",
            "op=prev a=4294967296 b=0",
            "op=until a=4294967296 b=0",
            "op=until a=0 b=4294967296",
            "op=since a=4294967296 b=0",
            "op=since a=0 b=4294967296",
            "op=at a=0 b=3",
            "op=at a=256 b=0",
            "op=at a=1 b=4294967296",
            "op=var a=1 b=0",
            "op=var a=0 b=1",
            "op=link a=0 b=0",
            "op=link a=16 b=0",
            "op=link a=1 b=1",
            "op=bind a=0 b=1",
            "op=bind a=4294967296 b=0",
            "op=some a=0 b=0",
            "op=some a=16 b=3",
            "op=some a=1 b=4294967296",
        ],
        Some((3, 5)),
    )
}

#[test]
fn parts_not_below(rt: HostRuntime) -> Result<(), AllocError> {
    formulas(
        &rt,
        rt.alloc(),
        &[
            "op=not a=3 b=0",
            "op=not a=4294967295 b=0",
            "op=and a=3 b=0",
            "op=and a=0 b=3",
            "op=or a=3 b=0",
            "op=or a=0 b=3",
            "op=next a=3 b=0",
            "op=prev a=3 b=0",
            "op=until a=3 b=0",
            "op=until a=0 b=3",
            "op=since a=3 b=0",
            "op=since a=0 b=3",
            "op=at a=1 b=3",
            "op=bind a=3 b=0",
            "op=some a=1 b=3",
        ],
        Some((4, 5)),
    )
}

#[test]
fn rules_in_order(rt: HostRuntime) -> Result<(), AllocError> {
    let heap = rt.alloc();
    rules(&rt, heap, &["r=0 when=0 expect=0"], None)?;
    rules(
        &rt,
        heap,
        &[
            "r=0 when=4294967296 expect=0",
            "r=0 when=1 expect=4294967296",
            "r=1 when=1 expect=2",
        ],
        Some((3, 5)),
    )?;
    rules(
        &rt,
        heap,
        &[
            "r=0 when=4294967295 expect=0",
            "r=0 when=0 expect=4294967295",
            "r=0 when=2 expect=0",
            "r=0 when=0 expect=2",
            "r=0 when=1 expect=2",
            "r=0 when=2 expect=1",
        ],
        Some((4, 5)),
    )?;
    rules(
        &rt,
        heap,
        &["r=0 when=1 expect=0", "r=0 when=0 expect=1"],
        Some((5, 5)),
    )
}
