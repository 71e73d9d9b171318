// The programme as a caster meets it: what stands at its labels, and the order in which a firing comes to it.
use crate::FactoryShelf;
use label::Word;
use shelf::{Reading, next_filled};
use std::test::Fail;

fn card_at(shelf: &FactoryShelf, label: Word) -> Option<u64> {
    let row = shelf.row(shelf.find(label)?)?;
    Some(row.card)
}

#[test]
fn cards_are_where_they_belong(rt: HostRuntime) {
    let shelf = FactoryShelf::new();
    assert_eq!(rt;
        card_at(&shelf, 0x1000_0000_0000_0000),
        Some(0x0001_0000_0000_0000)
    );
    assert_eq!(rt;
        card_at(&shelf, 0x1084_0000_0000_0000),
        Some(0x0002_0096_0096_0000)
    );
    assert_eq!(rt;
        card_at(&shelf, 0x1190_0000_0000_0000),
        Some(0x0003_02DA_0000_00B4)
    );
    assert_eq!(rt;
        card_at(&shelf, 0x1204_0000_0000_0000),
        Some(0x0004_0226_0078_0000)
    );
    assert_eq!(rt; card_at(&shelf, 0x1300_0000_0000_0000), None);
}

#[test]
fn a_firing_comes_to_every_row(rt: HostRuntime) -> Result<(), Fail> {
    let shelf = FactoryShelf::new();
    let mut mark = 0;
    for step in 0..17usize {
        let (index, row) = next_filled(&shelf, mark).ok_or("it ended early")?;
        assert_eq!(rt; index, step);
        mark = row.label;
    }
    assert!(rt; next_filled(&shelf, mark).is_none());
    Ok(())
}
