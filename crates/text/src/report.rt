// The text that the program prints of an exchange's results.
ghost use Rattle.std.specs.Prelude.{◌≡◌, ℕ, ◌^◌, ◌<◌, List, ◌++◌, length, string_bytes, OnOk};
ghost use Rattle.std.specs.Iterator.{YieldsFirst, item_count};
ghost use Rattle.text.specs.Report.{stand_got, more, moved, ring_on, ring_from, ring_text, line_of, lines_of, head_of, report_of, RingWritten};

use crate::words::push_word;
use std::alloc::AllocError;
use std::marker::Model;

// How many traders of a ring are written.
const SHOWN: usize = 20;

// The stand that a trader has got.
fn stand_got(results: &[u16], trader: usize) -> usize
    ensures { result ≡ stand_got results.now trader }
{
    results
        .get(trader)
        .map_or(trader, |&stand| usize::from(stand))
}

// The traders of a ring who are still to come: `next` first, at most `left` of them, until the next would be `home`.
// As the sheet's `Ring`, but over results: one over both would need a trait and a type for each, and be longer than this.
#[derive(Drop)]
struct Ring<'a> {
    results: &'a [u16],
    home: usize,
    left: usize,
    next: usize,
}

impl<'a> Model for Ring<'a> {
    ghost Value = { List ℕ };

    ghost view = { λ s. ring_on s.results.now s.home s.left s.next };
}

impl<'a> Ring<'a> {
    // The whole ring of a trader, from it on.
    #[tactic(auto, using(crate::proofs::RingText::ring_few))]
    fn new(results: &'a [u16], trader: usize) -> Ring<'a>
        ensures ring { result ≡ ring_from results.now trader }
        ensures fits { length result < 2 ^ 64 }
    {
        Ring {
            results,
            home: trader,
            left: results.len(),
            next: trader,
        }
    }
}

impl<'a> Iterator for Ring<'a> {
    type Item = usize;

    ghost next_gives = { YieldsFirst (λ s. s) };

    ghost remaining = { item_count (λ s. s) };

    #[tactic(auto, unfolding(crate::specs::Report::ring_on))]
    fn next(&mut self) -> Option<usize> {
        self.left = self.left.checked_sub(1)?;
        let trader = self.next;
        self.next = stand_got(self.results, trader);
        if self.next == self.home {
            self.left = 0;
        }
        Some(trader)
    }
}

// Appends how many of a ring are left out, if any are. Where memory fails nothing is said of the text, here and below.
// Not inlined: in the midst of a line's other values the way around a ring of 4,000 takes twice as long.
#[inline(never)]
fn push_more(text: &mut String, left_out: Ring) -> Result<(), AllocError>
    requires { length left_out < 2 ^ 64 }
    ensures { OnOk result (string_bytes text.new ≡ string_bytes text.old ++ more (length left_out.entry)) }
{
    let rest = left_out.count();
    if rest == 0 {
        return Ok(());
    }
    write!(text, " and {rest} more")
}

// Appends the ring of a trader.
#[tactic(auto, using(crate::proofs::RingText::one_written, crate::proofs::RingText::rest_written), unfolding(crate::specs::Report::ring_text, crate::specs::Report::spaced))]
fn push_ring(text: &mut String, results: &[u16], trader: usize) -> Result<(), AllocError>
    ensures { OnOk result (string_bytes text.new ≡ string_bytes text.old ++ ring_text (ring_from results.now trader)) }
{
    let mut ring = Ring::new(results, trader);
    // not `ring.by_ref().take(SHOWN)`: of what `take` leaves behind its last item the library says nothing
    for _ in 0..SHOWN {
        let Some(member) = ring.next() else {
            return Ok(());
        };
        push_word(text, " ", member)?;
    }
    push_more(text, ring)
}

// Appends the line of a trader.
#[tactic(auto, unfolding(crate::specs::Report::line_of))]
fn push_line(text: &mut String, results: &[u16], trader: usize) -> Result<(), AllocError>
    ensures { OnOk result (string_bytes text.new ≡ string_bytes text.old ++ line_of results.now trader) }
{
    let stand = stand_got(results, trader);
    push_word(text, "trader ", trader)?;
    if stand == trader {
        return text.push_str(" keeps\n");
    }
    push_word(text, " gets ", stand)?;
    text.push_str(" ring")?;
    push_ring(text, results, trader)?;
    text.push_str("\n")
}

// How many traders do not keep their own stand.
fn moved(results: &[u16]) -> usize
    ensures { result ≡ moved results.now }
{
    results
        .iter()
        .enumerate()
        .filter(|&(trader, &stand)| usize::from(stand) != trader)
        .count()
}

// Appends the first line.
#[tactic(auto, unfolding(crate::specs::Report::head_of))]
fn push_head(text: &mut String, rounds: u16, results: &[u16]) -> Result<(), AllocError>
    ensures { OnOk result (string_bytes text.new ≡ string_bytes text.old ++ head_of rounds results.now) }
{
    push_word(text, "rounds ", rounds as usize)?;
    push_word(text, " moved ", moved(results))?;
    text.push_str("\n")
}

// Appends the line of each trader.
#[tactic(auto, unfolding(crate::specs::Report::lines_of))]
fn push_lines(text: &mut String, results: &[u16]) -> Result<(), AllocError>
    ensures { OnOk result (string_bytes text.new ≡ string_bytes text.old ++ lines_of results.now (length results.now)) }
{
    for trader in 0..results.len() {
        push_line(text, results, trader)?;
    }
    Ok(())
}

// Appends the first line, and the line of each trader.
pub fn push_report(text: &mut String, rounds: u16, results: &[u16]) -> Result<(), AllocError>
    ensures { OnOk result (string_bytes text.new ≡ string_bytes text.old ++ report_of rounds results.now) }
{
    push_head(text, rounds, results)?;
    push_lines(text, results)
}

// Of the exchange's results, what is written as a trader's ring is its ring.
#[tactic(auto, using(crate::proofs::RingText::ring_written))]
pub fn ring_written()
    ensures { RingWritten }
{}

#[cfg(test)]
mod tests {
    use super::{push_line, push_report};
    use std::test::Fail;

    // 1 and 2 exchange their stands, in the second round
    #[test]
    fn three_traders(rt: HostRuntime) -> Result<(), Fail> {
        let mut text = String::new(rt.alloc());
        push_report(&mut text, 2, &[0, 2, 1])?;
        assert_eq!(rt;
            text.as_str(),
            "rounds 2 moved 2\ntrader 0 keeps\ntrader 1 gets 2 ring 1 2\ntrader 2 gets 1 ring 2 1\n"
        );
        Ok(())
    }

    // a ring of 27, of which each trader gets the stand of the next
    #[test]
    fn long_ring(rt: HostRuntime) -> Result<(), Fail> {
        let mut results = Vec::new(rt.alloc());
        for next in 1..27u16 {
            results.push(next)?;
        }
        results.push(0)?;
        let mut text = String::new(rt.alloc());
        push_line(&mut text, results.as_slice(), 10)?;
        assert_eq!(rt;
            text.as_str(),
            "trader 10 gets 11 ring 10 11 12 13 14 15 16 17 18 19 20 21 22 23 24 25 26 0 1 2 and 7 more\n"
        );
        Ok(())
    }
}
