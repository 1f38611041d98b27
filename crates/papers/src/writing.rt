// Writing a trader's paper from the lists of a year and a sheet.
ghost use Rattle.std.specs.Prelude.{◌≡◌, length};
ghost use Rattle.std.specs.Option.{option_or};
ghost use Rattle.lists.specs.Format.{lists_of, unless};
ghost use Rattle.sheet.specs.Sheet.{ring_of};
ghost use Rattle.papers.specs.Paper.{left_by, paper_fault, paper_for, paper_of, room_fault, trader_fault};

use crate::list::dearer_count;
use crate::writer::Writer;
use lists::list::List;
use lists::reading::{MOST_STANDS, MOST_TRADERS};
use lists::year::Year;
use refusals::{Lent, Refusal};
use sheet::accepted::AcceptedSheet;

// The longest paper: four numbers, a ring of all traders, and a full list of dearer stands, with its count.
pub const MOST_PAPER: usize = 8 + 2 * MOST_TRADERS as usize + 1 + 4 * MOST_STANDS as usize;

// Writes the paper of a trader with that list, whose ring has that many members: its length.
fn write_for(
    sheet: &AcceptedSheet,
    trader: u16,
    members: u16,
    list: &List,
    out: &mut [u8],
) -> Result<usize, Refusal>
    requires { members ≡ length (ring_of sheet.now.bytes (length sheet.now.lists) trader) }
    ensures answer { result ≡ unless (room_fault (length out.old) (paper_for sheet.now.bytes (length sheet.now.lists) trader list.now)) (length (paper_for sheet.now.bytes (length sheet.now.lists) trader list.now)) }
    ensures out { out.new ≡ left_by result (paper_for sheet.now.bytes (length sheet.now.lists) trader list.now) out.old }
{
    let stand = sheet.stand(trader);
    let dearer = dearer_count(list, stand);
    let length = 8 + 2 * members as usize + 1 + 4 * dearer as usize;
    if out.len() < length {
        return Err(Refusal::TooShort {
            lent: Lent::Results,
        });
    }
    let mut writer = Writer::over(out);
    writer.head(trader, sheet.round(trader), stand, members);
    writer.ring(sheet.ring(trader));
    writer.byte(dearer);
    writer.gone(sheet, list, dearer);
    Ok(length)
}

// Writes the paper of a trader by an accepted sheet: its length. A refusal leaves `out` as it was.
pub fn write_paper(sheet: &AcceptedSheet, trader: u16, out: &mut [u8]) -> Result<usize, Refusal>
    ensures answer { result ≡ unless (option_or (trader_fault (length sheet.now.lists) trader) (room_fault (length out.old) (paper_of sheet.now.lists sheet.now.bytes trader))) (length (paper_of sheet.now.lists sheet.now.bytes trader)) }
    ensures out { out.new ≡ left_by result (paper_of sheet.now.lists sheet.now.bytes trader) out.old }
{
    if trader >= sheet.traders() {
        return Err(Refusal::PaperFault { field: 0 });
    }
    let list = sheet.year().list(trader).unwrap();
    let members = sheet.ring(trader).count() as u16;
    write_for(sheet, trader, members, &list, out)
}

// Writes the paper of a trader by the lists of a year and a sheet for them: its length. What the checker of sheets refuses is
// refused as there; a refusal leaves `out` as it was.
#[tactic(auto, using(lists::proofs::Positions::count_of_lists))]
pub fn paper(bytes: &[u8], sheet: &[u8], trader: u16, out: &mut [u8]) -> Result<usize, Refusal>
    ensures answer { result ≡ unless (paper_fault bytes.now sheet.now trader (length out.old)) (length (paper_of (lists_of bytes.now) sheet.now trader)) }
    ensures out { out.new ≡ left_by result (paper_of (lists_of bytes.now) sheet.now trader) out.old }
{
    let year = Year::read(bytes)?;
    let sheet = AcceptedSheet::check(&year, sheet)?;
    write_paper(&sheet, trader, out)
}

#[cfg(test)]
mod tests {
    use super::*;
    use crate::checking::check_paper;
    use sheet::exchanging::exchange;

    // the lists 1 / 2 / 1 0, and the sheet for them
    const LISTS: [u8; 13] = [3, 0, 1, 1, 0, 1, 2, 0, 2, 1, 0, 0, 0];

    const SHEET: [u8; 12] = [0, 0, 1, 0, 2, 0, 0, 0, 1, 0, 0, 0];

    // the number and the place of a refusal, or 0 and the paper's length
    fn outcome(answer: Result<usize, Refusal>) -> (u8, usize) {
        match answer {
            Ok(length) => (0, length),
            Err(refusal) => (refusal.number(), refusal.place()),
        }
    }

    #[test]
    fn papers_of_a_year(rt: HostRuntime) {
        let mut out = [9u8; 16];
        assert_eq!(rt; outcome(paper(&LISTS, &SHEET, 0, &mut out)), (0, 15));
        assert_eq!(rt; out, [0, 0, 1, 0, 0, 0, 1, 0, 0, 0, 1, 1, 0, 0, 0, 9]);
        assert_eq!(rt; outcome(paper(&LISTS, &SHEET, 1, &mut out)), (0, 13));
        assert_eq!(rt; out, [1, 0, 0, 0, 2, 0, 2, 0, 1, 0, 2, 0, 0, 0, 0, 9]);
        assert_eq!(rt; outcome(paper(&LISTS, &SHEET, 2, &mut out)), (0, 13));
        assert_eq!(rt; out, [2, 0, 0, 0, 1, 0, 2, 0, 2, 0, 1, 0, 0, 0, 0, 9]);
    }

    #[test]
    fn no_paper(rt: HostRuntime) {
        let mut out = [9u8; 14];
        assert_eq!(rt; outcome(paper(&LISTS, &LISTS, 3, &mut out)), (6, 13));
        assert_eq!(rt; outcome(paper(&LISTS, &SHEET, 3, &mut out)), (10, 0));
        assert_eq!(rt; outcome(paper(&LISTS, &SHEET, 0, &mut out)), (5, 0));
        assert_eq!(rt; out, [9; 14]);
    }

    // the paper of a trader passes with the trader's list
    fn passes(bytes: &[u8], sheet: &[u8], trader: u16) -> bool {
        let mut out = [0; 64];
        let (Ok(size), Ok(year)) = (paper(bytes, sheet, trader, &mut out), Year::read(bytes)) else {
            return false;
        };
        match (year.list(trader), out.get(0..size)) {
            (Some(list), Some(written)) => check_paper(list.as_bytes(), written).is_ok(),
            _ => false,
        }
    }

    // how many papers of a year of at most 4 traders pass
    fn passing(bytes: &[u8], n: u16) -> usize {
        let mut sheet = [0; 16];
        let _ = exchange(bytes, &mut [0; 4], &mut sheet, &mut [0; 12]);
        let part = &sheet[0..4 * n.min(4) as usize];
        let mut passed = 0usize;
        for trader in 0..n {
            if passes(bytes, part, trader) {
                passed = passed.saturating_add(1);
            }
        }
        passed
    }

    #[test]
    fn papers_of_years_pass(rt: HostRuntime) {
        assert_eq!(rt;
            passing(&[3, 0, 2, 1, 0, 2, 0, 2, 2, 0, 0, 0, 2, 0, 0, 1, 0], 3),
            3
        );
        assert_eq!(rt; passing(&[3, 0, 1, 1, 0, 1, 0, 0, 2, 0, 0, 1, 0], 3), 3);
        assert_eq!(rt; passing(&[2, 0, 0, 0], 2), 2);
        assert_eq!(rt; passing(&LISTS, 3), 3);
        assert_eq!(rt; passing(&[4, 0, 1, 1, 0, 1, 2, 0, 1, 3, 0, 1, 1, 0], 4), 4);
        assert_eq!(rt; passing(&[1, 0, 0], 1), 1);
    }
}
