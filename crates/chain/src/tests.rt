// One story on every keeping shelf, each lent to it.
use crate::{Chain, Link};
use label::Word;
use shelf::{Keeping, OrderedTable, Reading, Row, ShelfFault, State, next_filled};
use std::process::Abort;
use std::test::Fail;

fn opened(label: Word) -> Row {
    Row {
        label,
        state: State::Opened,
        card: 0,
    }
}

// Two rows on a shelf with two slots, put out of order, and a refusal of each kind; then one is filled and found.
fn tell<S: Keeping + Drop>(rt: &impl Abort, mut shelf: S) -> Result<(), Fail> {
    assert_eq!(rt; shelf.put(opened(50)), Ok(()));
    assert_eq!(rt; shelf.put(opened(30)), Ok(()));
    assert_eq!(rt; shelf.put(opened(50)), Err(ShelfFault::Held));
    assert_eq!(rt; shelf.put(opened(70)), Err(ShelfFault::Full));
    assert_eq!(rt; shelf.set(2, State::Filled, 7), Err(ShelfFault::Index));
    assert_eq!(rt; shelf.set(1, State::Filled, 7), Ok(()));
    let (index, row) = next_filled(&shelf, 30).ok_or("none is filled")?;
    assert_eq!(rt; index, 1);
    assert_eq!(rt; row, opened(50).restated(State::Filled, 7));
    Ok(())
}

#[test]
fn table_story(rt: HostRuntime) -> Result<(), Fail> {
    let mut memory = [opened(1); 2];
    let mut table = OrderedTable::new(&mut memory);
    tell(&rt, &mut table)
}

#[test]
fn chain_story(rt: HostRuntime) -> Result<(), Fail> {
    let mut memory = [Link::BLANK; 2];
    let mut chain = Chain::new(&mut memory);
    tell(&rt, &mut chain)
}
