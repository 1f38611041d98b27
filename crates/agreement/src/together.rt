// All papers beside the one sheet that their stands and rounds make.
ghost use Rattle.std.specs.Prelude.{◌≡◌, ◌*◌, length, not, position, ◌==◌};
ghost use Rattle.std.specs.List.{zip};
ghost use Rattle.std.specs.Option.{option_or};
ghost use Rattle.lists.specs.Format.{Encodable, unless};
ghost use Rattle.papers.specs.Paper.{paper_of, room_fault, trader_fault};
ghost use Rattle.agreement.specs.Agreement.{agree_fault, difference, field_at, first_fault, sheet_fault, sheet_on, unlike_fault};

use crate::Fault;
use lists::reading::MOST_TRADERS;
use lists::year::Year;
use papers::paper::Paper;
use papers::splitting::Papers;
use papers::writing::{MOST_PAPER, write_paper};
use refusals::Refusal;
use sheet::accepted::AcceptedSheet;
use sheet::entries::write_entry;

// The most that a sheet has: four bytes for each trader.
const MOST_SHEET: usize = 4 * MOST_TRADERS as usize;

// Writes the sheet that the papers of n traders make.
fn write_sheet(papers: &[u8], n: u16, sheet: &mut [u8])
    requires { length sheet.old ≡ 4 * n }
    ensures { sheet.new ≡ sheet_on papers.now n }
{
    // after a loop over `chunks_exact_mut` a proof knows the slice's length and not its bytes
    for (trader, paper) in (0..n).zip(Papers::of(papers)) {
        let paper = Paper::of(paper);
        write_entry(sheet, 4 * trader as usize, paper.stand(), paper.round());
    }
}

// The first place at which two byte strings differ, of those that both have.
fn first_apart(given: &[u8], right: &[u8]) -> Option<usize>
    ensures { result ≡ position (λ bytes. not (bytes.0 == bytes.1)) (zip given.now right.now) }
{
    given.iter().zip(right).position(|(a, b)| a != b)
}

// Where two byte strings first differ: a byte, or the end of one of them.
#[tactic(auto, using(crate::proofs::Likeness::ends_apart, crate::proofs::Likeness::ends_together))]
fn first_difference(given: &[u8], right: &[u8]) -> Option<usize>
    ensures { result ≡ difference given.now right.now 0 }
{
    let apart = first_apart(given, right);
    if given.len() == right.len() {
        return apart;
    }
    apart.or(Some(given.len().min(right.len())))
}

// The field to which a byte of a paper belongs.
fn field_at(paper: &[u8], at: usize) -> usize
    ensures { result ≡ field_at paper.now at }
{
    if Paper::of(paper).count_place() < at {
        at.div_ceil(2)
    } else {
        at / 2
    }
}

// A trader's paper is the right one.
fn check_like(given: &[u8], right: &[u8]) -> Result<(), Refusal>
    ensures { result ≡ unless (unlike_fault given.now right.now) tt }
{
    match first_difference(given, right) {
        Some(at) => Err(Refusal::PaperFault {
            field: field_at(given, at),
        }),
        None => Ok(()),
    }
}

// A trader's paper is the one for the sheet.
fn check_written(sheet: &AcceptedSheet, given: &[u8], trader: u16) -> Result<(), Refusal>
    ensures { result ≡ unless (option_or (trader_fault (length sheet.now.lists) trader) (option_or (room_fault 8169 (paper_of sheet.now.lists sheet.now.bytes trader)) (unlike_fault given.now (paper_of sheet.now.lists sheet.now.bytes trader)))) tt }
{
    // in fixed memory, here and below, as a library crate takes no heap
    let mut right = [0; MOST_PAPER];
    let size = write_paper(sheet, trader, &mut right)?;
    check_like(given, &right[..size])
}

// The paper of each trader is the one for the sheet.
fn check_papers_written(sheet: &AcceptedSheet, papers: &[u8]) -> Result<(), Fault>
    ensures { result ≡ unless (first_fault (agree_fault sheet.now.lists papers.now sheet.now.bytes) 0 (length sheet.now.lists)) tt }
{
    for (trader, paper) in (0..sheet.year().traders()).zip(Papers::of(papers)) {
        check_written(sheet, paper, trader).map_err(|refusal| Fault::Paper { trader, refusal })?;
    }
    Ok(())
}

// The papers make an accepted sheet, and each is the one for that sheet.
pub(crate) fn check_together(year: &Year, papers: &[u8]) -> Result<(), Fault>
    ensures { result ≡ unless (sheet_fault year.now papers.now) tt }
{
    let mut bytes = [0; MOST_SHEET];
    let bytes = &mut bytes[..4 * year.traders() as usize];
    write_sheet(papers, year.traders(), bytes);
    let sheet = AcceptedSheet::check(year, bytes)?;
    check_papers_written(&sheet, papers)
}
