// A second opinion on a sheet: slow and plain, from the rules alone.
use crate::entries::Entry;
use crate::market::Year;
use std::iter::once;

// A refusal's number and place, worked out here from the rules, and not by the crate that tells them.
pub type Told = (u8, usize);

// The number of traders, or the first fault, trader after trader.
pub(crate) fn opinion(year: &Year, entries: &[Entry]) -> Result<u16, Told> {
    let n = year.traders();
    for (trader, entry) in (0..n).zip(entries) {
        judge(year, entries, trader, *entry)?;
    }
    Ok(n)
}

// What is wrong with a trader's entry, in the order of the refusals' numbers.
fn judge(year: &Year, entries: &[Entry], trader: u16, entry: Entry) -> Result<(), Told> {
    if entry.stand >= year.traders() || got_before(entries, trader, entry.stand) {
        return Err((7, trader as usize));
    }
    if let Some(place) = dearer_fault(year.list(trader), entries, trader, entry) {
        return Err((8, (trader as usize * 64).saturating_add(place)));
    }
    if round_of(entries, entry.stand) != Some(entry.round) {
        return Err((9, trader as usize));
    }
    Ok(())
}

// A trader before got the stand.
fn got_before(entries: &[Entry], trader: u16, stand: u16) -> bool {
    entries
        .iter()
        .take(trader as usize)
        .any(|before| before.stand == stand)
}

// The place of the first dearer stand whose holder did not go out before the trader.
fn dearer_fault(list: &[u16], entries: &[Entry], trader: u16, entry: Entry) -> Option<usize> {
    // the own stand comes past the list, and its holder, the trader, went out in that very round
    list.iter()
        .chain(once(&trader))
        .take_while(|stand| **stand != entry.stand)
        .position(|stand| round_of(entries, *stand).is_none_or(|round| round >= entry.round))
}

// The round in which the holder of a stand went out.
fn round_of(entries: &[Entry], stand: u16) -> Option<u16> {
    entries.get(stand as usize).map(|entry| entry.round)
}
