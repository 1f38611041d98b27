// The search through all groups of a year of few traders, and all ways in which a group could share the stands that it
// brought, for one that does better than results give. It goes by the lists and the results alone.
#![tactic(auto)]

ghost use Rattle.std.specs.Prelude.{◌≡◌, ℕ, ◌<◌, ◌≤◌, false, length, All, IfSome, MatchBool, MatchOption, nat_le, slice_index_or, take};
ghost use Rattle.theory.specs.Promise.{rank_in};
ghost use Rattle.groups.specs.Groups.{AnswerDetermined, Outcome, OutcomeDetermined};

use lists::list::List;
use lists::year::Year;
use refusals::{Lent, Refusal};

// The most traders that a search is made for.
const MOST: usize = 8;

// How a group shares the stands that it brought: each trader's stand, and None for who is not in the group.
pub type Share = [Option<u16>; MOST];

#[derive(Clone, Copy, PartialEq, Eq, Debug)]
pub enum Unsearched {
    Refused { refusal: Refusal },
    // more than 8 traders
    TooMany,
}

impl From<Refusal> for Unsearched {
    ghost use Rattle.groups.specs.declared.Unsearched.TheVariants.{Refused};

    ghost from_gives = { λ refusal e. e ≡ Refused refusal };

    fn from(refusal: Refusal) -> Unsearched {
        Unsearched::Refused { refusal }
    }
}

// The rank of a stand by a trader's list: its place; then comes the own stand, and then all others.
fn rank_of(list: &List, own: u16, stand: u16) -> usize
    ensures { result ≡ rank_in list.now own stand }
{
    let listed = list.len() as usize;
    let unlisted = if stand == own { listed } else { listed + 1 };
    list.stands()
        .position(|other| other == stand)
        .unwrap_or(unlisted)
}

// Of the stands from 0 on, those that are no less dear to a trader, by the list, than the one got.
fn no_less_dear(list: &List, own: u16, got: u16) -> [bool; MOST]
    ensures { (t : ℕ) → t < 8 → slice_index_or result t false ≡ nat_le (rank_in list.now own t) (rank_in list.now own got) }
{
    let rank_got = rank_of(list, own, got);
    let mut row = [false; MOST];
    for (stand, entry) in row.iter_mut().enumerate() {
        *entry = rank_of(list, own, stand as u16) <= rank_got;
    }
    row
}

// What a search goes by, in a year of at most 8 traders.
#[derive(Clone, Copy)]
struct Search<'a> {
    // row i, entry t: stand t is no less dear to trader i than the one got
    table: [[bool; MOST]; MOST],
    // the stands that the traders got, one for each
    results: &'a [u16],
    ghost few: { length results.now ≤ 8 },
}

impl<'a> Search<'a> {
    ghost use Rattle.groups.specs.Sharings.{Brought, Differs, Found, Hopeless, MayHave, MayNotHave, Right, Same, Sound, Unbrought, choice_in, size};

    // The table by the lists of a year, and the results of its traders.
    fn of(year: &Year, results: &'a [u16]) -> Search<'a>
        requires few { length year.now ≤ 8 }
        requires whole { length results.now ≡ length year.now }
        ensures right { Right year.now result }
        ensures same { result.results.now ≡ results.now }
    {
        let mut table = [[false; MOST]; MOST];
        for (own, list) in year.lists().enumerate() {
            table[own] = no_less_dear(&list, own as u16, results[own]);
        }
        Search { table, results }
    }

    // Every stand chosen is one that the group brought.
    fn all_brought(chosen: &Share) -> bool
        requires { All (λ choice. IfSome choice (λ stand. stand < 8)) chosen.now }
        ensures { MatchBool result (Brought 8 chosen.now) (Unbrought 8 chosen.now) }
    {
        chosen.iter().all(|choice| choice.is_none_or(|stand| chosen[stand as usize].is_some()))
    }

    // Somebody in the group has another stand than the one got.
    fn some_differs(&self, chosen: &Share) -> bool
        ensures { MatchBool result (Differs self.now chosen.now) (Same self.now chosen.now) }
    {
        chosen
            .iter()
            .zip(self.results)
            .any(|(choice, got)| choice.is_some_and(|stand| stand != *got))
    }

    // What is tried for a trader, turn by turn: to stay out of the group, and then the stands from 0 on.
    fn choice_in(turn: u16) -> Option<u16>
        ensures { result ≡ choice_in turn }
    {
        turn.checked_sub(1)
    }

    // The trader may stay out, or have a stand that is dear enough and that no trader before was given.
    fn may_have(&self, chosen: &Share, trader: usize, choice: Option<u16>) -> bool
        requires within { trader < size self.now }
        requires stand { IfSome choice (λ t. t < size self.now) }
        requires sound { Sound self.now chosen.now trader }
        ensures { MatchBool result (MayHave self.now chosen.now trader choice) (MayNotHave self.now chosen.now trader choice) }
    {
        let Some(stand) = choice else {
            return true;
        };
        self.table[trader][stand as usize] && !chosen.contains(&choice)
    }

    // Goes on from the choices for the traders before this one: each of the others stays out or gets a stand, and the first way
    // that serves is handed on.
    fn complete(&self, trader: usize, chosen: Share) -> Option<Share>
        requires { Sound self.now chosen trader }
        ensures { MatchOption result (Hopeless self.now chosen trader) (Found self.now chosen trader) }
    {
        let traders = self.results.len();
        if trader == traders {
            if Search::all_brought(&chosen) && self.some_differs(&chosen) {
                return Some(chosen);
            }
            return None;
        }
        // by turns: of `once(None).chain(..)` the invariant would have to say what is left of each part
        for turn in 0..traders as u16 + 1 {
            let choice = Search::choice_in(turn);
            if self.may_have(&chosen, trader, choice) {
                let mut next = chosen;
                next[trader] = choice;
                if let Some(share) = self.complete(trader + 1, next) {
                    return Some(share);
                }
            }
        }
        None
    }
}

// Searches for the first group, in the order of the search, that could do better among themselves than the results give.
#[tactic(auto, using(lists::proofs::Positions::count_of_lists, crate::proofs::Tables::answer_by_search))]
pub fn bettering(bytes: &[u8], results: &[u16]) -> Result<Option<Share>, Unsearched>
    ensures { Outcome bytes.now results.now result }
{
    let year = Year::read(bytes)?;
    let traders = year.traders() as usize;
    if traders > MOST {
        return Err(Unsearched::TooMany);
    }
    let lent = Lent::Results;
    let results = results.get(..traders).ok_or(Refusal::TooShort { lent })?;
    Ok(Search::of(&year, results).complete(0, [None; MOST]))
}

// Two answers that are both right for the same lists and results are equal.
#[tactic(auto, using(crate::proofs::Orders::answer_determined))]
pub fn answer_determined()
    ensures { AnswerDetermined }
{}

// For all bytes and results there is one outcome.
#[tactic(auto, using(crate::proofs::Orders::outcome_determined))]
pub fn outcome_determined()
    ensures { OutcomeDetermined }
{}

#[cfg(test)]
mod tests {
    use super::*;

    // 0 lists 1 and 2, 1 lists 0 and 3, 2 lists 0 and 1, 3 lists 1 and 0
    const TWO_SWAPS: [u8; 22] = [
        4, 0, 2, 1, 0, 2, 0, 2, 0, 0, 3, 0, 2, 0, 0, 1, 0, 2, 1, 0, 0, 0,
    ];

    // 0 lists 1, 1 lists 2, 2 lists 0
    const ONE_RING: [u8; 11] = [3, 0, 1, 1, 0, 1, 2, 0, 1, 0, 0];

    // 0 lists 1, 1 lists 0, 2 lists 0 and 3, 3 lists 2
    const OUT_FIRST: [u8; 16] = [4, 0, 1, 1, 0, 1, 0, 0, 2, 0, 0, 3, 0, 1, 2, 0];

    // Everybody has a stand listed, and the two who could swap their dearest have less dear ones.
    #[test]
    fn the_most_contented_sharing_is_bettered(rt: HostRuntime) {
        let share = [Some(1), Some(0), None, None, None, None, None, None];
        assert_eq!(rt; bettering(&TWO_SWAPS, &[2, 3, 0, 1]), Ok(Some(share)));
    }

    // With only rings of two everybody would keep the own stand.
    #[test]
    fn rings_of_two_are_bettered(rt: HostRuntime) {
        let share = [Some(1), Some(2), Some(0), None, None, None, None, None];
        assert_eq!(rt; bettering(&ONE_RING, &[0, 1, 2]), Ok(Some(share)));
    }

    // Were 2 to go on pointing to 0's stand when 0 is out, 2 and 3 would never swap.
    #[test]
    fn pointing_to_one_who_is_out_is_bettered(rt: HostRuntime) {
        let share = [None, None, Some(3), Some(2), None, None, None, None];
        assert_eq!(rt; bettering(&OUT_FIRST, &[1, 0, 2, 3]), Ok(Some(share)));
    }

    // Two pairs could swap. The one that leaves the first traders out comes first.
    #[test]
    fn the_first_group_is_answered(rt: HostRuntime) {
        let share = [None, None, Some(3), Some(2), None, None, None, None];
        assert_eq!(rt; bettering(&OUT_FIRST, &[0, 1, 2, 3]), Ok(Some(share)));
    }

    #[test]
    fn the_exchange_is_not_bettered(rt: HostRuntime) {
        assert_eq!(rt; bettering(&TWO_SWAPS, &[1, 0, 2, 3]), Ok(None));
        assert_eq!(rt; bettering(&ONE_RING, &[1, 2, 0]), Ok(None));
        assert_eq!(rt; bettering(&OUT_FIRST, &[1, 0, 3, 2]), Ok(None));
    }

    #[test]
    fn no_search_is_made(rt: HostRuntime) {
        let nine = [9, 0, 0, 0, 0, 0, 0, 0, 0, 0, 0];
        assert_eq!(rt; bettering(&nine, &[]), Err(Unsearched::TooMany));
        let refusal = Refusal::TooShort {
            lent: Lent::Results,
        };
        assert_eq!(rt;
            bettering(&ONE_RING, &[1, 2]),
            Err(Unsearched::Refused { refusal })
        );
        let refusal = Refusal::WrongLength { at: 0 };
        assert_eq!(rt;
            bettering(&[], &[1, 2]),
            Err(Unsearched::Refused { refusal })
        );
    }
}
