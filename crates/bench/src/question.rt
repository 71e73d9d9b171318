// Which label a shelf is asked for. reference/bench.rs asks for the same.
use crate::random::SplitMix;
use label::Word;
use shelf::MOST_ROWS;

// One of the labels given, or a pseudo-random one, each as often.
pub fn question(labels: &[Word], random: &mut SplitMix) -> Word {
    let number = random.number();
    if number & 1 == 0 {
        let index = (number >> 1) as usize % MOST_ROWS;
        labels.get(index).copied().unwrap_or(number)
    } else {
        number
    }
}
