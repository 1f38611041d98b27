// The readable page of a trader's paper.
ghost use Rattle.std.specs.Prelude.{◌≡◌, ◌≤◌, ◌++◌, IfOk, string_bytes, OnOk};
ghost use Rattle.text.specs.Page.{PagesAreNarrow, PagesOfAnyBytes, fits, gone_lines, gone_text, got_text, head_text, page_of, ring_text, step_column, step_text, width};
ghost use Rattle.papers.specs.Paper.{count_on};

use crate::words::push_word;
use itoa::Buffer;
use papers::paper::Paper;
use std::alloc::AllocError;

// No line of a page is wider where its paper passes.
const COLUMNS: usize = 72;

// How many columns a number takes.
fn width(number: u16) -> usize
    ensures answer { result ≡ width number }
    ensures few { result ≤ 5 }
{
    Buffer::new().format(number).len()
}

// Appends what the trader got. Where memory fails nothing is said of the text, here and below.
fn push_got(text: &mut String, own: u16, stand: u16) -> Result<(), AllocError>
    ensures { OnOk result (string_bytes text.new ≡ string_bytes text.old ++ got_text own stand) }
{
    if stand == own {
        return text.push_str("You keep your stand");
    }
    push_word(text, "You get stand ", stand as usize)
}

// Appends the lines before the ring.
fn push_head(text: &mut String, own: u16, round: u16, stand: u16) -> Result<(), AllocError>
    ensures { OnOk result (string_bytes text.new ≡ string_bytes text.old ++ head_text own round stand) }
{
    push_word(text, "Trader ", own as usize)?;
    text.push_str("\n")?;
    push_got(text, own, stand)?;
    push_word(text, ", in round ", round as usize)?;
    text.push_str(".\nRing: ")
}

// The next trader still fits on the line.
fn fits(column: usize, trader: u16) -> bool
    requires { column ≤ 1000 }
    ensures { result ≡ fits column trader }
{
    column + 4 + width(trader) <= COLUMNS
}

// Appends one step along the ring, and hands on how many columns of the line are taken.
fn push_step(text: &mut String, column: usize, trader: u16) -> Result<usize, AllocError>
    requires { column ≤ 1000 }
    ensures { IfOk result (λ c. (string_bytes text.new ≡ string_bytes text.old ++ step_text column trader) × (c ≡ step_column column trader) × (c ≤ 72)) }
{
    if fits(column, trader) {
        push_word(text, " -> ", trader as usize)?;
        return Ok(column + 4 + width(trader));
    }
    push_word(text, "\n-> ", trader as usize)?;
    Ok(3 + width(trader))
}

// Appends the ring: the own trader, the others, and the own trader again.
fn push_ring(text: &mut String, paper: &Paper) -> Result<(), AllocError>
    ensures { OnOk result (string_bytes text.new ≡ string_bytes text.old ++ ring_text paper.now) }
{
    let own = paper.own();
    push_word(text, "", own as usize)?;
    let mut column = 6 + width(own);
    let mut others = paper.ring();
    let _own = others.next();
    for member in others {
        column = push_step(text, column, member)?;
    }
    push_step(text, column, own)?;
    text.push_str("\n")
}

// Appends why a dearer stand was not to be had.
fn push_gone(text: &mut String, holder: u16, round: u16) -> Result<(), AllocError>
    ensures { OnOk result (string_bytes text.new ≡ string_bytes text.old ++ gone_text holder round) }
{
    write!(
        text,
        "Stand {holder}, held by trader {holder}, was gone: they went out in round {round}.\n"
    )
}

// Appends a line for each dearer stand.
#[tactic(auto, using(crate::proofs::PageText::lines_more, crate::proofs::PageText::no_lines, crate::proofs::PageText::lines_are))]
fn push_lines(text: &mut String, paper: &Paper) -> Result<(), AllocError>
    ensures { OnOk result (string_bytes text.new ≡ string_bytes text.old ++ gone_lines paper.now (count_on paper.now)) }
{
    for (holder, round) in paper.gone() {
        push_gone(text, holder, round)?;
    }
    Ok(())
}

// Appends the page of a paper that was checked; bytes that are missing count as 0.
#[tactic(auto, unfolding(crate::specs::Page::page_of))]
pub fn push_page(text: &mut String, paper: &[u8]) -> Result<(), AllocError>
    ensures { OnOk result (string_bytes text.new ≡ string_bytes text.old ++ page_of paper.now) }
{
    let paper = Paper::of(paper);
    push_head(text, paper.own(), paper.round(), paper.stand())?;
    push_ring(text, &paper)?;
    push_lines(text, &paper)
}

// No line of the page of a paper that passes is wider than 72 columns.
#[tactic(auto, using(crate::proofs::PageWidth::pages_are_narrow))]
pub fn pages_are_narrow()
    ensures { PagesAreNarrow }
{}

// No line of the page of any bytes is wider than 74 columns.
#[tactic(auto, using(crate::proofs::PageWidth::pages_of_any_bytes))]
pub fn pages_of_any_bytes()
    ensures { PagesOfAnyBytes }
{}

#[cfg(test)]
mod tests {
    use super::push_page;
    use std::test::Fail;

    #[test]
    fn page_of_one_who_keeps(rt: HostRuntime) -> Result<(), Fail> {
        let mut text = String::new(rt.alloc());
        push_page(&mut text, &[0, 0, 1, 0, 0, 0, 1, 0, 0, 0, 1, 1, 0, 0, 0])?;
        assert_eq!(rt;
            text.as_str(),
            "Trader 0\nYou keep your stand, in round 1.\nRing: 0 -> 0\nStand 1, held by trader 1, was gone: they went out in round 0.\n"
        );
        Ok(())
    }

    #[test]
    fn page_of_a_ring(rt: HostRuntime) -> Result<(), Fail> {
        let mut text = String::new(rt.alloc());
        push_page(&mut text, &[1, 0, 0, 0, 2, 0, 2, 0, 1, 0, 2, 0, 0])?;
        assert_eq!(rt;
            text.as_str(),
            "Trader 1\nYou get stand 2, in round 0.\nRing: 1 -> 2 -> 1\n"
        );
        Ok(())
    }

    // the ring's first line has 72 columns, and the step back to the own trader does not fit on it
    #[test]
    fn page_of_a_long_ring(rt: HostRuntime) -> Result<(), Fail> {
        let mut text = String::new(rt.alloc());
        push_page(
            &mut text,
            &[
                232, 3, 0, 0, 233, 3, 9, 0, 232, 3, 233, 3, 234, 3, 235, 3, 236, 3, 237, 3, 238, 3,
                239, 3, 42, 0, 0,
            ],
        )?;
        assert_eq!(rt;
            text.as_str(),
            "Trader 1000\nYou get stand 1001, in round 0.\nRing: 1000 -> 1001 -> 1002 -> 1003 -> 1004 -> 1005 -> 1006 -> 1007 -> 42\n-> 1000\n"
        );
        Ok(())
    }
}
