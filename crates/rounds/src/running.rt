// The exchange over lent slices: round after round, until nobody is in.
ghost use Rattle.std.specs.Prelude.{◌≡◌, ◌*◌, ◌<◌, ◌≤◌, ◌++◌, drop, length, not, replicate, take, Ok};
ghost use Rattle.lists.specs.Format.{lists_of, unless};
ghost use Rattle.rings.specs.Ring.{answer, left_by};
ghost use Rattle.theory.specs.Trade.{none_in, round_count};
ghost use Rattle.rounds.specs.Run.{exchanged, outs_of, results_left, results_of, room_fault, run_fault, work_left};
ghost use Rattle.rounds.specs.Turn.{all_pointed, one_pointed};

use lists::list::List;
use lists::year::Year;
use pointing::point_to;
use refusals::{Lent, Refusal};
use rings::mark_rings;

// The entry of a trader who is in, and that of one who is out: numbers, since they stand in the lent work slice.
const IN: u16 = 1;

const OUT: u16 = 0;

// The flag of a trader on a ring.
const RING: u16 = 1;

// How many took part, and in how many rounds all went out.
#[derive(Clone, Copy, PartialEq, Eq, Debug)]
pub struct Exchanged {
    pub traders: u16,
    pub rounds: u16,
}

// Does the exchange of a year with n traders. `results` gets the stand that each trader has at the end, in its first n entries.
// `work` has 3 n entries of use: who is in (all 0 at the end), the flags of those on rings (all 0 at the end), and the round,
// from 0, in which each trader went out. A refusal changes nothing that is lent.
#[tactic(auto, using(lists::proofs::Positions::count_of_lists, lists::proofs::Accepted::some_traders))]
pub fn run_rounds(bytes: &[u8], results: &mut [u16], work: &mut [u16]) -> Result<Exchanged, Refusal>
    ensures answer { result ≡ unless (run_fault bytes.now (length results.old) (length work.old)) (exchanged (lists_of bytes.now)) }
    ensures results { results.new ≡ results_left result (lists_of bytes.now) results.old }
    ensures work { work.new ≡ work_left result (lists_of bytes.now) work.old }
{
    let year = Year::read(bytes)?;
    let n = year.traders() as usize;
    check_room(n, results, work)?;
    let (work, outs) = work.split_at_mut(2 * n);
    let rounds = all_rounds(&year, &mut results[..n], work, &mut outs[..n])?;
    Ok(Exchanged {
        traders: year.traders(),
        rounds,
    })
}

// The lent slices have room for n traders.
fn check_room(n: usize, results: &[u16], work: &[u16]) -> Result<(), Refusal>
    ensures { result ≡ unless (room_fault n (length results.now) (length work.now)) tt }
{
    if results.len() < n {
        return Err(Refusal::TooShort {
            lent: Lent::Results,
        });
    }
    if work.len() < 3 * n {
        return Err(Refusal::TooShort { lent: Lent::Work });
    }
    Ok(())
}

// The rounds of a year, and how many they are. `results` has where each trader who is in points, and so what it has got once it
// is out; `work` has who is in, and the flags; `outs` gets the round in which each trader goes out.
// That the parts are of one length is said here and twice below: a struct of several `&mut` parts did not prove.
#[tactic(auto, using(crate::proofs::Stands::stands_start, crate::proofs::Stands::stands_bound, crate::proofs::Stands::count_at_end, crate::proofs::Stands::results_at_end, crate::proofs::Stands::outs_at_end))]
fn all_rounds(
    year: &Year,
    results: &mut [u16],
    work: &mut [u16],
    outs: &mut [u16],
) -> Result<u16, Refusal>
    requires traders { length year.now ≤ 4000 }
    requires lengths { (length results.old ≡ length year.now) × (length work.old ≡ 2 * length year.now) × (length outs.old ≡ length year.now) }
    ensures answer { result ≡ Ok (round_count year.now) }
    ensures results { results.new ≡ results_of year.now }
    ensures work { work.new ≡ replicate (2 * length year.now) 0 }
    ensures outs { outs.new ≡ outs_of year.now }
{
    let n = results.len();
    work[..n].fill(IN);
    let mut round = 0;
    'rounds: loop {
        if !somebody_in(&work[..n]) {
            break 'rounds;
        }
        find_rings(year, results, work)?;
        let (inside, flags) = work.split_at_mut(n);
        'traders: for (i, flag) in flags.iter().enumerate() {
            if *flag != RING {
                continue 'traders;
            }
            inside[i] = OUT;
            outs[i] = round;
        }
        round += 1;
    }
    // nobody is in any more, and the flags are cleared
    work.fill(0);
    Ok(round)
}

// Some of these traders are in.
fn somebody_in(inside: &[u16]) -> bool
    ensures { result ≡ not (none_in inside.now) }
{
    inside.contains(&IN)
}

// Everybody who is in points, and only then are the rings looked for: who is on one, and so gets what, is by what all point to.
fn find_rings(year: &Year, results: &mut [u16], work: &mut [u16]) -> Result<(), Refusal>
    requires lengths { (length results.old ≡ length year.now) × (length work.old ≡ 2 * length year.now) }
    ensures pointed { results.new ≡ all_pointed year.now 0 (take (length year.now) work.old) results.old }
    ensures answer { result ≡ answer results.new work.old }
    ensures work { work.new ≡ left_by result results.new work.old }
{
    point_all(year, &work[..results.len()], results);
    mark_rings(results, work)
}

// Everybody who is in points: so nobody's going out changes what another points to in the same round.
#[tactic(auto, using(std::proofs::lemmas::List::nil_from_length), unfolding(crate::specs::Turn::all_pointed))]
fn point_all(year: &Year, inside: &[u16], results: &mut [u16])
    requires lengths { (length inside.now ≡ length year.now) × (length results.old ≡ length year.now) }
    ensures { results.new ≡ all_pointed year.now 0 inside.now results.old }
{
    for (i, list) in (0..year.traders()).zip(year.lists()) {
        point(&list, i, inside, results);
    }
}

// Trader i points, if it is in. Whoever is out keeps what it got.
#[tactic(auto, using(lists::proofs::Encoding::stands_again))]
fn point(list: &List, i: u16, inside: &[u16], results: &mut [u16])
    requires trader { (i < length inside.now) × (i < length results.old) }
    ensures { results.new ≡ one_pointed list.now i inside.now results.old }
{
    if inside[i as usize] == IN {
        results[i as usize] = point_to(list.stand_bytes(), inside).stand(i);
    }
}

#[cfg(test)]
mod tests {
    use super::*;
    use std::test::Fail;

    // the results and the number of rounds of a year with at most four traders
    fn year(bytes: &[u8]) -> ([u16; 4], u16) {
        let mut results = [9; 4];
        let mut work = [9; 12];
        match run_rounds(bytes, &mut results, &mut work) {
            Ok(done) => (results, done.rounds),
            Err(_) => (results, 0),
        }
    }

    #[test]
    fn small_years(rt: HostRuntime) {
        assert_eq!(rt;
            year(&[3, 0, 2, 1, 0, 2, 0, 2, 2, 0, 0, 0, 2, 0, 0, 1, 0]),
            ([1, 2, 0, 9], 1)
        );
        assert_eq!(rt;
            year(&[3, 0, 1, 1, 0, 1, 0, 0, 2, 0, 0, 1, 0]),
            ([1, 0, 2, 9], 2)
        );
        assert_eq!(rt; year(&[2, 0, 0, 0]), ([0, 1, 9, 9], 1));
        assert_eq!(rt;
            year(&[3, 0, 1, 1, 0, 1, 2, 0, 2, 1, 0, 0, 0]),
            ([0, 2, 1, 9], 2)
        );
        assert_eq!(rt;
            year(&[4, 0, 1, 1, 0, 1, 2, 0, 1, 3, 0, 1, 1, 0]),
            ([0, 2, 3, 1], 2)
        );
        assert_eq!(rt; year(&[1, 0, 0]), ([0, 9, 9, 9], 1));
        assert_eq!(rt;
            year(&[4, 0, 2, 2, 0, 1, 0, 1, 2, 0, 2, 1, 0, 3, 0, 2, 0, 0, 2, 0]),
            ([0, 2, 1, 3], 3)
        );
        assert_eq!(rt; year(&[4, 0, 0, 0, 0, 0]), ([0, 1, 2, 3], 1));
    }

    #[test]
    fn slices_are_left(rt: HostRuntime) -> Result<(), Fail> {
        let bytes = [3, 0, 1, 1, 0, 1, 0, 0, 2, 0, 0, 1, 0];
        let mut results = [7; 4];
        let mut work = [7; 10];
        assert!(rt;
            run_rounds(&bytes, &mut results[0..2], &mut work)
                == Err(Refusal::TooShort {
                    lent: Lent::Results,
                })
        );
        assert!(rt;
            run_rounds(&bytes, &mut results, &mut work[0..8])
                == Err(Refusal::TooShort { lent: Lent::Work })
        );
        assert_eq!(rt; results, [7; 4]);
        assert_eq!(rt; work, [7; 10]);
        assert!(rt;
            run_rounds(&bytes, &mut results, &mut work)
                == Ok(Exchanged {
                    traders: 3,
                    rounds: 2,
                })
        );
        assert_eq!(rt; results, [1, 0, 2, 7]);
        assert_eq!(rt; work, [0, 0, 0, 0, 0, 0, 0, 0, 1, 7]);
        let mut ring = vec![in rt.alloc(); 27, 0]?;
        for i in 0..27u8 {
            ring.push(1)?;
            ring.push((i + 1) % 27)?;
            ring.push(0)?;
        }
        let mut got = [0; 27];
        let mut used = [0; 81];
        assert!(rt;
            run_rounds(ring.as_slice(), &mut got, &mut used)
                == Ok(Exchanged {
                    traders: 27,
                    rounds: 1,
                })
        );
        assert_eq!(rt; got[0], 1);
        assert_eq!(rt; got[26], 0);
        Ok(())
    }
}
