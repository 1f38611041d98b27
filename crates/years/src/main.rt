// The program `years`: the worked years and thousands of random ones, each tried in all the ways that few traders allow.
#![tactic(auto)]

mod by_hand;
mod chances;
mod entries;
mod market;
mod opinions;
mod tallies;
mod trials;

use by_hand::{TABLE, Worked};
use chances::Chance;
use market::Year;
use std::alloc::{AllocError, Global};
use std::io;
use tallies::{Tally, print_table};
use trials::{Trial, try_year};

const SEED: u64 = 20_260_101;

const MOST_TRADERS: u16 = 6;

// How many random years there are of each number of traders.
const YEARS: u16 = 1000;

// The exchange gives the results and rounds that were worked out.
fn is_as_worked(heap: Global, year: &Year, worked: &Worked) -> Result<bool, AllocError> {
    let trial = Trial::run(heap, year)?;
    Ok(trial.is_some_and(|trial| trial.is(worked.results, worked.rounds)))
}

fn worked_years(heap: Global, chance: &mut Chance) -> Result<Tally, AllocError> {
    let mut tally = Tally::default();
    for worked in &TABLE {
        let year = Year::of(heap, worked.lists)?;
        if !is_as_worked(heap, &year, worked)? {
            tally.unlike_worked += 1;
        }
        try_year(heap, &year, chance, &mut tally)?;
    }
    Ok(tally)
}

fn random_years(heap: Global, traders: u16, chance: &mut Chance) -> Result<Tally, AllocError> {
    let mut tally = Tally::default();
    for _ in 0..YEARS {
        let year = Year::random(heap, traders, chance)?;
        try_year(heap, &year, chance, &mut tally)?;
    }
    Ok(tally)
}

fn main(rt: HostRuntime) -> io::Result<()> {
    let heap = rt.alloc();
    let mut chance = Chance::new(SEED);
    let mut tallies = vec![in heap; worked_years(heap, &mut chance)?]?;
    for traders in 1..=MOST_TRADERS {
        tallies.push(random_years(heap, traders, &mut chance)?)?;
    }
    print_table(&rt, &tallies)
}
