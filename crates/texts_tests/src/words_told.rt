// What the faults of texts and the defects of tables tell, and their words.
use faults::fault::Fault;
use faults::layer::Layer;
use faults::line::LineFault;
use faults::read::ReadFault;
use faults::table::TableFault;
use std::alloc::AllocError;
use table::defects::Defect;

#[test]
fn faults_told(rt: HostRuntime) -> Result<(), AllocError> {
    for (fault, layer, text) in [
        (
            ReadFault::Line(LineFault::Torn(7)),
            Layer::Line,
            "refused=1 line=7",
        ),
        (
            ReadFault::Line(LineFault::Form(1)),
            Layer::Line,
            "refused=2 line=1",
        ),
        (
            ReadFault::Line(LineFault::Range(339)),
            Layer::Line,
            "refused=3 line=339",
        ),
        (
            ReadFault::Table(TableFault::Dangling(10)),
            Layer::Table,
            "refused=4 line=10",
        ),
        (
            ReadFault::Table(TableFault::Loose(82)),
            Layer::Table,
            "refused=5 line=82",
        ),
    ] {
        assert_eq!(rt; fault.layer(), layer);
        assert_eq!(rt; format!(in rt.alloc(); "{fault}")?.as_str(), text);
    }
    Ok(())
}

#[test]
fn defects_told(rt: HostRuntime) -> Result<(), AllocError> {
    for (defect, text) in [
        (Defect::OutOfRange, "refused=3"),
        (Defect::PartNotBelow, "refused=4"),
        (Defect::NoSuchFormula, "refused=4"),
        (Defect::LooseRule, "refused=5"),
    ] {
        assert_eq!(rt; format!(in rt.alloc(); "{defect}")?.as_str(), text);
    }
    Ok(())
}
