// Who is on a ring: a walk from each trader to the holder of the stand that it points to, and on, may come back to it.
#![tactic(auto)]

ghost use Rattle.std.specs.Prelude.{◌≡◌, ◌↔◌, IsTrue, ◌+◌, ◌*◌, ◌<◌, ◌≤◌, length, slice_index, EachIndex};
ghost use Rattle.rings.specs.Ring.{answer, left_by, ring_flags};
ghost use Rattle.rings.specs.Walk.{HasMark, Told, Walked, flag_of, unmet};

use lists::reading::MOST_TRADERS;
use refusals::{Lent, Refusal};

// The mark of a trader whom no walk has met yet. Marks are numbers, since they stand in the lent work slice.
const UNMET: u16 = 0;

// The mark of a trader on a ring; every walk has a smaller mark of its own.
const RING: u16 = 65535;

// Says who is on a ring, by where each trader points: a number past the last trader is nobody's.
// work: n entries that say who is in (1), then n flags to be written; what else is lent is left alone.
pub fn mark_rings(next: &[u16], work: &mut [u16]) -> Result<(), Refusal>
    ensures answer { result ≡ answer next.now work.old }
    ensures work { work.new ≡ left_by result next.now work.old }
{
    let n = next.len();
    if n == 0 || n > MOST_TRADERS as usize {
        return Err(Refusal::WrongCount);
    }
    if work.len() < 2 * n {
        return Err(Refusal::TooShort { lent: Lent::Work });
    }
    let (inside, rest) = work.split_at_mut(n);
    let (flags, _) = rest.split_at_mut(n);
    flag_rings(next, inside, flags);
    Ok(())
}

// Writes the flags: first marks in their place, which tell who is on a ring, and then what they say of those who are in.
#[tactic(auto, using(crate::proofs::Flags::flags_are))]
fn flag_rings(next: &[u16], inside: &[u16], flags: &mut [u16])
    requires most { length next.now ≤ 4000 }
    requires entries { length inside.now ≡ length next.now }
    requires flags { length flags.old ≡ length next.now }
    ensures { flags.new ≡ ring_flags inside.now next.now }
{
    mark_all(next, flags);
    turn_to_flags(inside, flags);
}

// Marks all traders, those on rings with RING. Each is met once, so the time grows with their number.
// Those who are out are walked from too, since a ring may pass through them.
fn mark_all(next: &[u16], marks: &mut [u16])
    requires same { length marks.old ≡ length next.now }
    requires most { length next.now ≤ 4000 }
    ensures { Told next.now marks.new }
{
    marks.fill(UNMET);
    let n = next.len() as u16;
    'traders: for start in 0..n {
        if !has_mark(marks, start, UNMET) {
            continue 'traders;
        }
        let walker = start + 1;
        let met = walk(next, marks, walker, start, n);
        // a walk that ends at nobody, or on the way of a walk before, has found no ring
        if !has_mark(marks, met, walker) {
            continue 'traders;
        }
        let mut at = met;
        'ring: loop {
            marks[at as usize] = RING;
            at = next[at as usize];
            if at == met {
                break 'ring;
            }
        }
    }
}

// Walks on from `at`, and marks everybody on the way, until it comes to nobody or to somebody met before.
// No struct of `next` and the marks: it would ensure at each call that `next` stays, in place of their one length.
#[tactic(auto, using(crate::proofs::Marks::walk_steps))]
fn walk(next: &[u16], marks: &mut [u16], walker: u16, at: u16, steps: u16) -> u16
    requires same { length marks.old ≡ length next.now }
    requires mark { 0 < walker }
    requires enough { unmet marks.old ≤ steps }
    ensures { Walked next.now marks.old marks.new walker at result steps }
{
    if steps == 0 || !has_mark(marks, at, UNMET) {
        return at;
    }
    marks[at as usize] = walker;
    walk(next, marks, walker, next[at as usize], steps - 1)
}

// The number is a trader's, and not nobody's, and the trader has that mark.
fn has_mark(marks: &[u16], trader: u16, mark: u16) -> bool
    ensures { IsTrue result ↔ HasMark marks.now trader mark }
{
    marks.get(trader as usize) == Some(&mark)
}

// Turns each mark into the flag: 1 for a trader who is in and on a ring.
fn turn_to_flags(inside: &[u16], marks: &mut [u16])
    requires { length inside.now ≡ length marks.old }
    ensures { EachIndex marks.new (λ i. slice_index marks.new i ≡ flag_of (slice_index inside.now i) (slice_index marks.old i)) }
{
    // by number: after a `zip` with `iter_mut` a proof does not know what was written
    for (trader, mark) in marks.iter_mut().enumerate() {
        *mark = u16::from(inside[trader] == 1 && *mark == RING);
    }
}

#[cfg(test)]
mod tests {
    use super::mark_rings;
    use refusals::{Lent, Refusal};
    use std::test::Fail;

    // three in a ring
    #[test]
    fn ring_of_three(rt: HostRuntime) -> Result<(), Fail> {
        let mut work = [1, 1, 1, 7, 7, 7, 9];
        mark_rings(&[1, 2, 0], &mut work)?;
        assert_eq!(rt; work, [1, 1, 1, 1, 1, 1, 9]);
        Ok(())
    }

    // 0 and 1 lead to the ring of 2 and 3
    #[test]
    fn way_to_a_ring(rt: HostRuntime) -> Result<(), Fail> {
        let mut work = [1, 1, 1, 1, 0, 0, 0, 0];
        mark_rings(&[1, 2, 3, 2], &mut work)?;
        assert_eq!(rt; work, [1, 1, 1, 1, 0, 0, 1, 1]);
        Ok(())
    }

    // 1 points to the own stand, and 2 to nobody's
    #[test]
    fn own_stand(rt: HostRuntime) -> Result<(), Fail> {
        let mut work = [1, 1, 1, 0, 0, 0];
        mark_rings(&[1, 1, 9], &mut work)?;
        assert_eq!(rt; work, [1, 1, 1, 0, 1, 0]);
        Ok(())
    }

    // 0 and 1 in one ring, 2 and 3 in another, and 1 is out
    #[test]
    fn two_rings(rt: HostRuntime) -> Result<(), Fail> {
        let mut work = [1, 0, 1, 1, 0, 0, 0, 0];
        mark_rings(&[1, 0, 3, 2], &mut work)?;
        assert_eq!(rt; work, [1, 0, 1, 1, 1, 0, 1, 1]);
        Ok(())
    }

    #[test]
    fn refusals(rt: HostRuntime) {
        let mut work = [1, 2, 3];
        assert!(rt; mark_rings(&[], &mut work) == Err(Refusal::WrongCount));
        assert!(rt; mark_rings(&[1, 0], &mut work) == Err(Refusal::TooShort { lent: Lent::Work }));
        assert_eq!(rt; work, [1, 2, 3]);
    }
}
