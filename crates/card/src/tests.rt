// The text of cards, and words that were computed by hand.
use crate::firing::FiringCard;
use crate::kind::Card;
use crate::menu::MenuCard;
use std::test::Fail;

#[test]
fn steps_are_shown(rt: HostRuntime) -> Result<(), Fail> {
    let section = FiringCard::section();
    let ramp = FiringCard::ramp(700, 300)?;
    let hold = FiringCard::hold(700, 60)?;
    let cool = FiringCard::cool(20, 150)?;
    let text = format!(in rt.alloc(); "{section}, {ramp}, {hold}, {cool}")?;
    assert_eq!(rt;
        text.as_str(),
        "section, ramp 700 300, hold 700 60, cool 20 150"
    );
    Ok(())
}

#[test]
fn entries_are_shown(rt: HostRuntime) -> Result<(), Fail> {
    let menu = MenuCard::new(10, 4, 7)?;
    let text = format!(in rt.alloc(); "{menu}")?;
    assert_eq!(rt; text.as_str(), "menu 10 4 7");
    Ok(())
}

#[test]
fn words_are_as_computed_by_hand(rt: HostRuntime) -> Result<(), Fail> {
    assert_eq!(rt; FiringCard::ramp(700, 300)?.word(), 0x0002_02bc_012c_0000);
    assert_eq!(rt; MenuCard::new(10, 4, 7)?.word(), 0x0000_000a_0004_0007);
    Ok(())
}
