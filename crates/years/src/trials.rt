// What is tried with a year.
use crate::chances::Chance;
use crate::entries::{Entry, damaged, earlier, read_entries, write_entries};
use crate::market::{Year, all_lists};
use crate::opinions::opinion;
use crate::tallies::Tally;
use groups::bettering;
use papers::checking::check_paper;
use papers::writing::paper;
use sheet::checking::check;
use sheet::exchanging::exchange;
use std::alloc::{AllocError, Global};

// Other lists are tried in years of at most this many traders.
const FEW: u16 = 4;

// How many damaged sheets are made of each sheet.
const DAMAGED: u8 = 8;

// The longest paper of a year of six has 8 + 2 * 6 + 1 + 4 * 5 bytes.
const PAPER_ROOM: usize = 64;

// A year, and what the exchange gives for it.
#[derive(Drop)]
pub struct Trial<'a> {
    heap: Global,
    year: &'a Year,
    bytes: Vec<u8>,
    results: Vec<u16>,
    sheet: Vec<u8>,
    rounds: u16,
}

impl<'a> Trial<'a> {
    // Runs the exchange for a year; None where it refuses the year's bytes.
    pub(crate) fn run(heap: Global, year: &'a Year) -> Result<Option<Trial<'a>>, AllocError> {
        let n = year.traders() as usize;
        let bytes = year.bytes(heap)?;
        // what the exchange leaves unwritten is no stand, and a round that no small year has
        let mut results = vec![in heap; u16::MAX; n]?;
        let mut sheet = vec![in heap; u8::MAX; 4 * n]?;
        let mut work = vec![in heap; u16::MAX; 3 * n]?;
        let exchanged = exchange(&bytes, &mut results, &mut sheet, &mut work);
        Ok(
            exchanged.ok().map(|exchanged| Trial {
                heap,
                year,
                bytes,
                results,
                sheet,
                rounds: exchanged.rounds,
            }),
        )
    }

    // The results and the number of rounds are these.
    pub(crate) fn is(&self, results: &[u16], rounds: u16) -> bool {
        self.results.as_slice() == results && self.rounds == rounds
    }

    // How dear the stand that a trader got is by the trader's list in a year: the fewer are dearer, the lower.
    fn rank_by(&self, year: &Year, trader: u16) -> usize {
        self.results
            .get(trader as usize)
            .map_or(usize::MAX, |stand| year.rank(trader, *stand))
    }

    // Tries all that the year allows.
    fn try_all(&self, chance: &mut Chance, tally: &mut Tally) -> Result<(), AllocError> {
        let traders = self.year.traders();
        tally.traders += traders as u64;
        tally.rounds += self.rounds as u64;
        let entries = read_entries(self.heap, &self.sheet)?;
        self.try_sheet(&entries, tally)?;
        self.try_papers(tally)?;
        self.try_groups(tally);
        if traders <= FEW {
            self.try_lists(chance.below(traders), tally)?;
        }
        self.try_damaged(&entries, chance, tally)
    }

    // The sheet is accepted, and not with any ring a round earlier: so the rounds are the least.
    fn try_sheet(&self, entries: &[Entry], tally: &mut Tally) -> Result<(), AllocError> {
        if self.accepted(entries, tally)? {
            tally.sheets_accepted += 1;
        }
        for trader in 0..self.year.traders() {
            if let Some(entries) = earlier(self.heap, entries, trader)?
                && self.accepted(&entries, tally)?
            {
                tally.rings_late += 1;
            }
        }
        Ok(())
    }

    // The checker accepts the sheet with these entries. Its answer is held against the second opinion.
    fn accepted(&self, entries: &[Entry], tally: &mut Tally) -> Result<bool, AllocError> {
        let sheet = write_entries(self.heap, entries)?;
        let answer = check(&self.bytes, &sheet).map_err(|refusal| (
            refusal.number(),
            refusal.place(),
        ));
        if answer != opinion(self.year, entries) {
            tally.opinions_differ += 1;
        }
        Ok(answer.is_ok())
    }

    // Every trader's paper is accepted with that trader's list.
    fn try_papers(&self, tally: &mut Tally) -> Result<(), AllocError> {
        for trader in 0..self.year.traders() {
            let list = self.year.list_bytes(self.heap, trader)?;
            if self.paper_for(trader, &list) == Some(trader) {
                tally.papers_accepted += 1;
            }
        }
        Ok(())
    }

    // Whose paper it is that is written for a trader, if it is accepted with the list.
    fn paper_for(&self, trader: u16, list: &[u8]) -> Option<u16> {
        let mut out = [0; PAPER_ROOM];
        let length = paper(&self.bytes, &self.sheet, trader, &mut out).ok()?;
        check_paper(list, out.get(..length)?).ok()
    }

    // No group does better than the results.
    fn try_groups(&self, tally: &mut Tally) {
        if bettering(&self.bytes, &self.results) != Ok(None) {
            tally.groups_better += 1;
        }
    }

    // No other list of a trader gets it a stand that is truly dearer.
    fn try_lists(&self, trader: u16, tally: &mut Tally) -> Result<(), AllocError> {
        let by_truth = self.rank_by(self.year, trader);
        for list in all_lists(self.heap, self.year.traders(), trader)? {
            if list.as_slice() == self.year.list(trader) {
                continue;
            }
            let year = self.year.with_list(trader, list)?;
            tally.lists_tried += 1;
            match Trial::run(self.heap, &year)? {
                Some(other) if other.rank_by(self.year, trader) < by_truth => tally.gains += 1,
                Some(_) => {}
                None => tally.years_refused += 1,
            }
        }
        Ok(())
    }

    // Sheets with one value changed: the checker tells of each what the second opinion tells.
    fn try_damaged(
        &self,
        entries: &[Entry],
        chance: &mut Chance,
        tally: &mut Tally,
    ) -> Result<(), AllocError> {
        for _ in 0..DAMAGED {
            if self.accepted(&damaged(self.heap, entries, chance)?, tally)? {
                tally.damaged_accepted += 1;
            } else {
                tally.damaged_refused += 1;
            }
        }
        Ok(())
    }
}

// Tries a year.
pub(crate) fn try_year(
    heap: Global,
    year: &Year,
    chance: &mut Chance,
    tally: &mut Tally,
) -> Result<(), AllocError> {
    tally.years += 1;
    match Trial::run(heap, year)? {
        Some(trial) => trial.try_all(chance, tally),
        None => {
            tally.years_refused += 1;
            Ok(())
        }
    }
}
