// Measures how long it takes to read a word and to find a label between two, under plan 4, and to put, find and rank a row on each of the two shelves.
// `bench COUNT` prints checksums over COUNT calls of each kind and the nanoseconds for one; with no word it makes 1000 calls of each and prints the checksums alone.
// Of puts there are always as many as a shelf has room for: they fill it.
#![tactic(auto)]

mod opening;
mod question;
mod random;
mod sums;

use chain::{Chain, Link};
use label::Word;
use opening::Opening;
use plan::PositionPlan;
use question::question;
use random::SplitMix;
use shelf::{Keeping, MOST_ROWS, OrderedTable, Row};
use std::env;
use std::iter::repeat_with;
use std::time::Instant;
use sums::{between_sum, find_sum, put_sum, rank_sum, read_sum};

// How many calls are made where no number is asked for.
const UNASKED: usize = 1000;

// The nanoseconds of one call, where `count` took so many.
fn each(total: u128, count: usize) -> u128 {
    total.checked_div(count as u128).unwrap_or(0)
}

// So many inputs, each made from the next pseudo-random numbers.
fn inputs<T: Drop, Make: Fn(&mut SplitMix) -> T>(
    rt: &HostRuntime,
    random: &mut SplitMix,
    count: usize,
    make: Make,
) -> anyhow::Result<Vec<T>>
    requires { (f : _) (x : _) → Make.pre f x }
{
    let made: Vec<T> = repeat_with(|| make(random))
        .take(count)
        .collect(rt.alloc())?;
    Ok(made)
}

// Prints the sum of what the call gives for each input, and the time of one where a number of calls is asked for.
fn measure<T, Call: FnMut(&T) -> u64>(
    rt: &HostRuntime,
    name: &str,
    asked: Option<usize>,
    inputs: &[T],
    call: Call,
) -> anyhow::Result<()>
    requires { (f : _) (x : _) → Call.pre f x }
{
    let count = inputs.len();
    let start = Instant::now(rt)?;
    let sum = inputs.iter().map(call).fold(0, u64::wrapping_add);
    let nanoseconds = start.elapsed(rt)?.as_nanos();
    if asked.is_some() {
        let ns = each(nanoseconds, count);
        println!(rt; "{name} count {count} checksum {sum:016X} ns {ns}")?
    } else {
        println!(rt; "{name} count {count} checksum {sum:016X}")?
    }
    Ok(())
}

// The calls on labels. Their inputs are made before the first line is printed, so that where these find no memory no line is.
fn measure_labels(rt: &HostRuntime, asked: Option<usize>) -> anyhow::Result<()> {
    let count = asked.unwrap_or(UNASKED);
    let plan = PositionPlan::plan4();
    let words = inputs(rt, &mut SplitMix::new(), count, |random| random.number())?;
    let openings = inputs(rt, &mut SplitMix::new(), count, Opening::random)?;
    measure(rt, "read", asked, &words, |word| read_sum(&plan, *word))?;
    measure(
        rt,
        "between",
        asked,
        &openings,
        |opening| between_sum(&plan, opening),
    )
}

// The calls on a shelf that comes empty: it is filled, and then asked. The names are those of put, find and rank.
fn measure_shelf<S: Keeping + Drop>(
    rt: &HostRuntime,
    names: [&str; 3],
    asked: Option<usize>,
    labels: &[Word],
    questions: &[Word],
    mut shelf: S,
) -> anyhow::Result<()> {
    let [put, find, rank] = names;
    measure(rt, put, asked, labels, |label| put_sum(&mut shelf, *label))?;
    measure(rt, find, asked, questions, |label| find_sum(&shelf, *label))?;
    measure(rt, rank, asked, questions, |label| rank_sum(&shelf, *label))
}

// The calls on shelves, the same on the ordered table and on the chain.
fn measure_shelves(rt: &HostRuntime, asked: Option<usize>) -> anyhow::Result<()> {
    let count = asked.unwrap_or(UNASKED);
    let mut random = SplitMix::new();
    let labels = inputs(rt, &mut random, MOST_ROWS, |random| random.number())?;
    let questions = inputs(rt, &mut random, count, |random| question(&labels, random))?;
    let mut rows = [Row::BLANK; MOST_ROWS];
    measure_shelf(
        rt,
        ["table put", "table find", "table rank"],
        asked,
        &labels,
        &questions,
        OrderedTable::new(&mut rows),
    )?;
    let mut links = [Link::BLANK; MOST_ROWS];
    measure_shelf(
        rt,
        ["chain put", "chain find", "chain rank"],
        asked,
        &labels,
        &questions,
        Chain::new(&mut links),
    )
}

fn run(rt: &HostRuntime) -> anyhow::Result<()> {
    let asked = env::args(rt)?
        .nth(1)
        .map(|count| count.as_str().parse::<usize>())
        .transpose()?;
    measure_labels(rt, asked)?;
    measure_shelves(rt, asked)
}

fn main(rt: HostRuntime) -> anyhow::Result<()> {
    run(&rt)
}
