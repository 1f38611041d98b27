// Checking anybody's sheet against the lists of a year.
ghost use Rattle.std.specs.Prelude.{◌≡◌, length};
ghost use Rattle.lists.specs.Format.{number_at, unless};
ghost use Rattle.sheet.specs.Check.{Checked};
ghost use Rattle.sheet.specs.Sheet.{AcceptsExactly, AcceptsWhatWasWritten, check_fault, dearer_fault, entry_fault, holder_fault, later_fault, length_fault, own_fault, sheet_fault, taken_fault, traders_fault};

use crate::accepted::AcceptedSheet;
use crate::entries::{round_in, stand_in};
use lists::list::List;
use lists::year::Year;
use refusals::Refusal;

// The sheet has an entry for each trader, and no more.
fn check_length(sheet: &[u8], n: u16) -> Result<(), Refusal>
    ensures { result ≡ unless (length_fault n sheet.now) tt }
{
    if sheet.len() != 4 * n as usize {
        return Err(Refusal::SheetLength {
            length: sheet.len(),
        });
    }
    Ok(())
}

// The stand that a trader got exists, and it was not got `again`.
fn check_taken(sheet: &[u8], n: u16, trader: u16, again: bool) -> Result<(), Refusal>
    ensures { result ≡ unless (taken_fault sheet.now n trader again) tt }
{
    if stand_in(sheet, trader) >= n || again {
        return Err(Refusal::StandTaken { trader });
    }
    Ok(())
}

// The holder of a dearer stand, at a place of a trader's list, went out before the trader.
fn check_later(sheet: &[u8], trader: u16, stand: u16, place: u8) -> Result<(), Refusal>
    ensures { result ≡ unless (later_fault sheet.now trader stand place) tt }
{
    if round_in(sheet, stand) >= round_in(sheet, trader) {
        return Err(Refusal::DearerLater { trader, place });
    }
    Ok(())
}

// Past its list, of `count` stands, a trader has got the own stand.
fn check_own(sheet: &[u8], trader: u16, count: u8) -> Result<(), Refusal>
    ensures { result ≡ unless (own_fault sheet.now trader count) tt }
{
    if stand_in(sheet, trader) != trader {
        return Err(Refusal::DearerLater {
            trader,
            place: count,
        });
    }
    Ok(())
}

// The holder of the stand that a trader got went out in the same round.
fn check_holder(sheet: &[u8], trader: u16) -> Result<(), Refusal>
    ensures { result ≡ unless (holder_fault sheet.now trader) tt }
{
    let holder = stand_in(sheet, trader);
    if round_in(sheet, holder) != round_in(sheet, trader) {
        return Err(Refusal::HolderElsewhere { trader });
    }
    Ok(())
}

// The holders of the stands of a trader's list went out before the trader, up to the stand that it got.
#[tactic(auto, using(std::proofs::lemmas::List::nil_from_length), unfolding(crate::specs::Sheet::dearer_fault))]
fn check_dearer(sheet: &[u8], list: &List, trader: u16) -> Result<(), Refusal>
    ensures { result ≡ unless (dearer_fault sheet.now trader list.now 0) tt }
{
    let got = stand_in(sheet, trader);
    for (place, stand) in (0..list.len()).zip(list.stands()) {
        if stand == got {
            return Ok(());
        }
        check_later(sheet, trader, stand, place)?;
    }
    check_own(sheet, trader, list.len())
}

// All that is checked of one trader, whose stand a trader before may have got.
#[tactic(auto, unfolding(crate::specs::Sheet::entry_fault))]
fn check_entry(sheet: &[u8], n: u16, list: &List, trader: u16, again: bool) -> Result<(), Refusal>
    ensures { result ≡ unless (entry_fault sheet.now n trader list.now again) tt }
{
    check_taken(sheet, n, trader, again)?;
    check_dearer(sheet, list, trader)?;
    check_holder(sheet, trader)
}

// The entries of all traders, one after the other.
#[tactic(auto, using(crate::proofs::Traders::entry_exists, std::proofs::lemmas::List::nil_from_length), unfolding(crate::proofs::Traders::left_fault))]
fn check_traders(year: &Year, sheet: &[u8]) -> Result<(), Refusal>
    ensures { result ≡ unless (traders_fault year.now sheet.now 0 (length year.now)) tt }
{
    let n = year.traders();
    // the stands that traders before got; in fixed memory, as a library crate takes no heap
    let mut taken = [false; 4000];
    for (trader, list) in (0..n).zip(year.lists()) {
        let got = stand_in(sheet, trader) as usize;
        let again = taken.get(got).copied().unwrap_or(false);
        check_entry(sheet, n, &list, trader, again)?;
        taken[got] = true;
    }
    Ok(())
}

impl<'a> AcceptedSheet<'a> {
    // Checks a sheet against the lists of a year, or finds the first fault.
    #[tactic(auto, using(crate::proofs::Checked::accepted_sheet))]
    pub fn check(year: &'a Year<'a>, sheet: &'a [u8]) -> Result<AcceptedSheet<'a>, Refusal>
        ensures { result ≡ unless (sheet_fault year.now sheet.now) (record { lists = year.now; bytes = sheet.now }) }
    {
        check_length(sheet, year.traders())?;
        check_traders(year, sheet)?;
        Ok(AcceptedSheet { year, bytes: sheet })
    }
}

// Checks a sheet against the lists of a year: the number of traders, or the first fault.
#[tactic(auto, using(crate::proofs::Checked::checked, lists::proofs::Positions::count_of_lists))]
pub fn check(bytes: &[u8], sheet: &[u8]) -> Result<u16, Refusal>
    ensures answer { result ≡ unless (check_fault bytes.now sheet.now) (number_at bytes.now 0) }
    ensures says { Checked bytes.now sheet.now result }
{
    let year = Year::read(bytes)?;
    check_for(&year, sheet)
}

// Checks a sheet against the lists of a year that was read: the number of traders, or the first fault.
fn check_for(year: &Year, sheet: &[u8]) -> Result<u16, Refusal>
    ensures { result ≡ unless (sheet_fault year.now sheet.now) (length year.now) }
{
    Ok(AcceptedSheet::check(year, sheet)?.traders())
}

// A sheet is accepted exactly if it is valid.
#[tactic(auto, using(crate::proofs::Checked::accepts_exactly))]
pub fn accepts_exactly()
    ensures { AcceptsExactly }
{}

// What the exchange writes is accepted.
#[tactic(auto, using(crate::proofs::Written::accepts_what_was_written))]
pub fn accepts_what_was_written()
    ensures { AcceptsWhatWasWritten }
{}

#[cfg(test)]
mod tests {
    use super::*;

    // trader 0 lists 1, trader 1 lists 2, trader 2 lists 1 and 0
    const YEAR: [u8; 13] = [3, 0, 1, 1, 0, 1, 2, 0, 2, 1, 0, 0, 0];

    // the number and the place of a refusal, or 0 and the number of traders
    fn outcome(bytes: &[u8], sheet: &[u8]) -> (u8, usize) {
        match check(bytes, sheet) {
            Ok(n) => (0, n as usize),
            Err(refusal) => (refusal.number(), refusal.place()),
        }
    }

    // the outcome for the year with these stands and rounds
    fn with(stands: [u8; 3], rounds: [u8; 3]) -> (u8, usize) {
        let [a, b, c] = stands;
        let [d, e, f] = rounds;
        outcome(&YEAR, &[a, 0, d, 0, b, 0, e, 0, c, 0, f, 0])
    }

    #[test]
    fn valid_sheets_are_accepted(rt: HostRuntime) {
        assert_eq!(rt; with([0, 2, 1], [1, 0, 0]), (0, 3));
        // the rounds drawn out
        assert_eq!(rt; with([0, 2, 1], [2, 0, 0]), (0, 3));
        assert_eq!(rt; with([0, 2, 1], [9, 5, 5]), (0, 3));
    }

    #[test]
    fn refusals_have_number_and_place(rt: HostRuntime) {
        assert_eq!(rt; outcome(&[2, 0, 0], &[]), (1, 3));
        assert_eq!(rt; outcome(&YEAR, &[0; 11]), (6, 11));
        assert_eq!(rt; outcome(&YEAR, &[0; 16]), (6, 16));
        assert_eq!(rt; with([3, 2, 1], [1, 0, 0]), (7, 0));
        assert_eq!(rt; with([0, 2, 2], [1, 0, 0]), (7, 2));
        assert_eq!(rt; with([0, 2, 1], [0, 0, 0]), (8, 0));
        // a stand that is not listed: the own one is dearer, past the list of one
        assert_eq!(rt; with([2, 1, 0], [1, 0, 0]), (8, 1));
        assert_eq!(rt; with([0, 2, 1], [1, 0, 1]), (9, 1));
    }

    #[test]
    fn the_most_contented_sharing_is_refused(rt: HostRuntime) {
        // each has a stand that it listed, but traders 1 and 2 could do better
        assert_eq!(rt; with([1, 2, 0], [0, 0, 0]), (8, 128));
        assert_eq!(rt; with([1, 2, 0], [0, 0, 1]), (9, 1));
    }
}
