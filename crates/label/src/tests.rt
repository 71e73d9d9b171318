// What no contract says: the text of a label.
use crate::taking_apart::take_apart;
use plan::PositionPlan;
use std::test::Fail;

#[test]
fn a_label_is_printed_by_its_levels(rt: HostRuntime) -> Result<(), Fail> {
    let plan = PositionPlan::plan4();
    let label = take_apart(&plan, 0x10C2_2000_0000_0000)?;
    let text = label.to_string(rt.alloc())?;
    assert_eq!(rt; text.as_str(), "1.1/0/1");
    Ok(())
}
