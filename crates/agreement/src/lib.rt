// The papers of all traders together: each passes with its trader's list, and they agree with each other.
#![tactic(auto)]

ghost use Rattle.std.specs.Prelude.{◌≡◌, length};
ghost use Rattle.lists.specs.Format.{Encodable, number_at, unless};
ghost use Rattle.agreement.specs.Agreement.{AgreedBy, papers_fault, year_fault};

mod each;
pub mod theorems;
mod together;

use each::check_each;
use lists::reading::check_end;
use lists::year::Year;
use refusals::Refusal;
use std::fmt;
use together::check_together;

// Why papers are refused.
#[derive(Clone, Copy)]
pub enum Fault {
    // the lists, the bytes after the last paper, or the sheet that the papers make
    Refused { refusal: Refusal },
    // a trader's paper, by itself or beside the others
    Paper { trader: u16, refusal: Refusal },
}

impl From<Refusal> for Fault {
    ghost use Rattle.agreement.specs.declared.Fault.TheVariants.{Refused};

    ghost from_gives = { λ refusal fault. fault ≡ Refused refusal };

    fn from(refusal: Refusal) -> Fault {
        Fault::Refused { refusal }
    }
}

// How a fault is told: a paper's after its trader.
impl fmt::Display for Fault {
    ghost use Rattle.std.specs.Prelude.{Some};
    ghost use Rattle.agreement.specs.Told.{fault_text};

    ghost output = { λ fault. Some (fault_text fault) };

    fn fmt<W: fmt::Write>(&self, f: &mut fmt::Formatter<W>) -> fmt::Result {
        match self {
            Fault::Refused { refusal } => write!(f, "{refusal}"),
            Fault::Paper { trader, refusal } => write!(f, "paper of trader {trader}: {refusal}"),
        }
    }
}

// Checks the papers of a year's traders: how many there are, or the first fault.
#[tactic(auto, unfolding(crate::specs::Agreement::year_fault))]
fn check_year(year: &Year, papers: &[u8]) -> Result<u16, Fault>
    ensures { result ≡ unless (year_fault year.now papers.now) (length year.now) }
{
    let end = check_each(year, papers)?;
    check_end(papers, end)?;
    check_together(year, papers)?;
    Ok(year.traders())
}

// Checks the papers of all traders, one after another in the order of their numbers, against the lists of a year: the number of
// traders, or the first fault.
#[tactic(auto, using(crate::proofs::Agreed::agreed_by, lists::proofs::Accepted::accepted_encodable, lists::proofs::Positions::count_of_lists))]
pub fn check_papers(lists: &[u8], papers: &[u8]) -> Result<u16, Fault>
    ensures answer { result ≡ unless (papers_fault lists.now papers.now) (number_at lists.now 0) }
    ensures says { AgreedBy result lists.now papers.now }
{
    let year = Year::read(lists)?;
    check_year(&year, papers)
}

#[cfg(test)]
mod tests {
    use super::*;

    // the lists 1 / 2 / 1 0
    const LISTS: [u8; 13] = [3, 0, 1, 1, 0, 1, 2, 0, 2, 1, 0, 0, 0];

    // trader 0 keeps its stand in round 1, and traders 1 and 2 exchange theirs in round 0
    const PAPERS: [u8; 41] = [
        0, 0, 1, 0, 0, 0, 1, 0, 0, 0, 1, 1, 0, 0, 0, 1, 0, 0, 0, 2, 0, 2, 0, 1, 0, 2, 0, 0, 2, 0,
        0, 0, 1, 0, 2, 0, 2, 0, 1, 0, 0,
    ];

    // the number and the place of a refusal, after the trader whose paper it is or 9; 0, 0 and the number of traders
    fn outcome(lists: &[u8], papers: &[u8]) -> (u16, u8, usize) {
        match check_papers(lists, papers) {
            Ok(n) => (0, 0, n as usize),
            Err(Fault::Refused { refusal }) => (9, refusal.number(), refusal.place()),
            Err(Fault::Paper { trader, refusal }) => (trader, refusal.number(), refusal.place()),
        }
    }

    // the outcome for the papers of the year with another byte at two places
    fn changed(at: usize, byte: u8, also: usize, other: u8) -> (u16, u8, usize) {
        let mut papers = PAPERS;
        if at < 41 && also < 41 {
            papers[at] = byte;
            papers[also] = other;
        }
        outcome(&LISTS, &papers)
    }

    #[test]
    fn papers_in_their_places(rt: HostRuntime) {
        assert_eq!(rt; outcome(&LISTS, &PAPERS), (0, 0, 3));
        // the last paper too short
        assert_eq!(rt; outcome(&LISTS, &PAPERS[..40]), (2, 10, 6));
        // somebody else's paper, which passes with the list
        let other = [1, 0, 0, 0, 1, 0, 1, 0, 1, 0, 0];
        assert_eq!(rt; outcome(&[2, 0, 0, 0], &other), (0, 10, 0));
        let long = [0, 0, 0, 0, 0, 0, 1, 0, 0, 0, 0, 7];
        assert_eq!(rt; outcome(&[1, 0, 0], &long), (9, 1, 11));
        assert_eq!(rt; outcome(&[1], &PAPERS), (9, 1, 1));
    }

    // papers that each pass and contradict each other
    #[test]
    fn papers_that_disagree(rt: HostRuntime) {
        // trader 1 went out in round 2 by its own paper, and in round 0 by the others
        assert_eq!(rt; changed(17, 2, 17, 2), (9, 8, 0));
        // trader 0 went out in round 2 by its own paper, and trader 1 in round 1 by that of trader 0
        assert_eq!(rt; changed(2, 2, 13, 1), (0, 10, 7));
    }
}
