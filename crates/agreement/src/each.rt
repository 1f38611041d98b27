// Each paper by itself, in its trader's place.
ghost use Rattle.std.specs.Prelude.{◌≡◌, length};
ghost use Rattle.lists.specs.Format.{encode_list, unless};
ghost use Rattle.papers.specs.Papers.{paper_start};
ghost use Rattle.agreement.specs.Agreement.{first_fault, own_fault, place_fault};

use crate::Fault;
use lists::list::List;
use lists::year::Year;
use papers::checking::check_paper;
use papers::splitting::Papers;
use refusals::Refusal;

// The paper passes with the list, and it is the trader's.
fn check_own(list: &List, paper: &[u8], trader: u16) -> Result<(), Refusal>
    ensures { result ≡ unless (own_fault (encode_list list.now) paper.now trader) tt }
{
    let own = check_paper(list.as_bytes(), paper)?;
    if own != trader {
        return Err(Refusal::PaperFault { field: 0 });
    }
    Ok(())
}

// Checks the paper of each trader by itself, and hands on where the last one ends.
pub(crate) fn check_each(year: &Year, papers: &[u8]) -> Result<usize, Fault>
    ensures { result ≡ unless (first_fault (place_fault year.now papers.now) 0 (length year.now)) (paper_start papers.now (length year.now)) }
{
    let mut rest = Papers::of(papers);
    for (trader, list) in (0..year.traders()).zip(year.lists()) {
        let paper = rest.next_paper();
        check_own(&list, paper, trader).map_err(|refusal| Fault::Paper { trader, refusal })?;
    }
    Ok(papers.len() - rest.left().len())
}
