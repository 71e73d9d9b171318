// The measured calls, each with what it adds to a checksum.
use crate::opening::Opening;
use gap::between;
use label::{Word, read};
use plan::PositionPlan;
use shelf::{Keeping, MOST_ROWS, Reading, Row};

pub fn read_sum(plan: &PositionPlan, word: Word) -> u64 {
    match read(plan, word) {
        Ok(reading) => {
            let shape = u64::from(reading.bits).wrapping_add(
                (reading.level as u64).wrapping_mul(100),
            );
            shape.wrapping_add(reading.parent.unwrap_or(0))
        }
        Err(fault) => 1000 * u64::from(fault.number()) + u64::from(fault.bit()),
    }
}

pub fn between_sum(plan: &PositionPlan, opening: &Opening) -> u64 {
    between(plan, opening.parent, opening.bounds())
        .ok()
        .flatten()
        .unwrap_or(1)
}

// The label that was put, or the number of the refusal.
pub fn put_sum<S: Keeping>(shelf: &mut S, label: Word) -> u64 {
    let row = Row {
        label,
        ..Row::BLANK
    };
    match shelf.put(row) {
        Ok(()) => label,
        Err(fault) => u64::from(fault.number()),
    }
}

// The index, or one that no row has.
pub fn find_sum<S: Reading>(shelf: &S, label: Word) -> u64 {
    shelf.find(label).unwrap_or(MOST_ROWS) as u64
}

pub fn rank_sum<S: Reading>(shelf: &S, label: Word) -> u64 {
    shelf.rank(label) as u64
}
