// The entries of a sheet, apart from its bytes, and what may be done to them.
use crate::chances::Chance;
use std::alloc::{AllocError, Global};

#[derive(Clone, Copy)]
pub struct Entry {
    pub stand: u16,
    pub round: u16,
}

impl From<[u8; 4]> for Entry {
    fn from([a, b, c, d]: [u8; 4]) -> Entry {
        Entry {
            stand: u16::from_le_bytes([a, b]),
            round: u16::from_le_bytes([c, d]),
        }
    }
}

// The entries of a sheet.
pub(crate) fn read_entries(heap: Global, sheet: &[u8]) -> Result<Vec<Entry>, AllocError> {
    let (entries, _) = sheet.as_chunks();
    entries.iter().copied().map(Entry::from).collect(heap)
}

// The sheet with these entries.
pub(crate) fn write_entries(heap: Global, entries: &[Entry]) -> Result<Vec<u8>, AllocError> {
    let mut sheet = Vec::new(heap);
    for entry in entries {
        sheet.extend_from_slice(&entry.stand.to_le_bytes())?;
        sheet.extend_from_slice(&entry.round.to_le_bytes())?;
    }
    Ok(sheet)
}

// The entries of which one stand or round is changed to another value.
pub(crate) fn damaged(
    heap: Global,
    entries: &[Entry],
    chance: &mut Chance,
) -> Result<Vec<Entry>, AllocError> {
    let mut entries = Vec::from_slice(heap, entries)?;
    let traders = u16::try_from(entries.len()).unwrap_or(u16::MAX);
    let at = chance.below(traders);
    let value = drawn_value(traders, chance);
    let of_stand = chance.below(2) == 0;
    if let Some(entry) = entries.get_mut(at as usize) {
        let field = if of_stand {
            &mut entry.stand
        } else {
            &mut entry.round
        };
        *field = another(*field, value);
    }
    Ok(entries)
}

// A value for a stand or a round: mostly one that is, or is nearly, in use; sometimes one of two bytes.
fn drawn_value(traders: u16, chance: &mut Chance) -> u16 {
    let low = chance.below(traders.saturating_add(2));
    if chance.below(8) == 0 {
        low.saturating_add(256)
    } else {
        low
    }
}

// The value drawn, or the next one where that is the value that there was.
fn another(was: u16, drawn: u16) -> u16 {
    if drawn == was {
        was.wrapping_add(1)
    } else {
        drawn
    }
}

// Lets a trader go out a round earlier, and hands on the stand that it got; None where it went out in the first round.
fn go_earlier(entries: &mut [Entry], trader: u16) -> Option<u16> {
    let entry = entries.get_mut(trader as usize)?;
    entry.round = entry.round.checked_sub(1)?;
    Some(entry.stand)
}

// The entries by which a trader and all on its ring went out a round earlier; None for those of the first round.
pub(crate) fn earlier(
    heap: Global,
    entries: &[Entry],
    trader: u16,
) -> Result<Option<Vec<Entry>>, AllocError> {
    let mut entries = Vec::from_slice(heap, entries)?;
    let mut at = trader;
    for _ in 0..entries.len() {
        let Some(stand) = go_earlier(&mut entries, at) else {
            return Ok(None);
        };
        if stand == trader {
            return Ok(Some(entries));
        }
        at = stand;
    }
    Ok(None)
}
