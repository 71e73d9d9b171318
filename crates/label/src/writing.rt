// Words of labels: writing them.
ghost use Rattle.std.specs.Prelude.{◌≡◌, ◌<◌, ◌≤◌};
ghost use Rattle.label.specs.Label.{word_bits};
ghost use Rattle.label.specs.Spelling.{Writes, WritesFrom, Places, separator_after};

use crate::spot::Spot;
use crate::subvalue::Subvalue;
use crate::word::{Word, power};
use plan::WidthPlan;

// The value of the bits left at a spot that begin with a subvalue of `width` bits and have zeros behind it. None where there are fewer bits, it is too large, or it may not stand there.
fn place(subvalue: Subvalue, spot: Spot, width: u32) -> Option<Word>
    requires { (1 ≤ width) × (width ≤ 8) }
    ensures { Places width spot.left spot.position subvalue.value subvalue.ends_level result }
{
    let behind = spot.left.checked_sub(width)?;
    let value = Word::from(subvalue.value);
    if value >= power(width) {
        return None;
    }
    if !spot.takes(subvalue) {
        return None;
    }
    Some(value * power(behind))
}

// The value of the separator behind a subvalue, with `behind` bits behind it.
fn separator(ends_level: bool, behind: u32) -> Word
    requires { behind < word_bits }
    ensures { result ≡ separator_after ends_level behind }
{
    if ends_level { 0 } else { power(behind) }
}

// The value of the bits left at a spot that begin with these subvalues and have zeros behind them. None where they spell no label that fits there.
fn spell<P: WidthPlan>(plan: &P, subvalues: &[Subvalue], spot: Spot) -> Option<Word>
    ensures { WritesFrom (P.width plan.now) spot.left spot.level spot.position subvalues.now result }
{
    let (first, further) = subvalues.split_first()?;
    let width = spot.width(plan);
    let value = place(*first, spot, width)?;
    if further.is_empty() {
        return first.ends_level.then_some(value);
    }
    if spot.left == width {
        return None;
    }
    let next = spot.behind(width, first.ends_level);
    let rest = spell(plan, further, next)?;
    Some(value + separator(first.ends_level, next.left) + rest)
}

// The word of the lawful label that the subvalues spell, or none where they spell no lawful label.
pub fn write<P: WidthPlan>(plan: &P, subvalues: &[Subvalue]) -> Option<Word>
    ensures { Writes (P.width plan.now) word_bits subvalues.now result }
{
    spell(plan, subvalues, Spot::start())
}
