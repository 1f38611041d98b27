// The public exchange: lists in, results and sheet out.
ghost use Rattle.std.specs.Prelude.{◌≡◌, ℕ, ◌*◌, List, ◌++◌, length, replicate, IfOk, MatchResult};
ghost use Rattle.lists.specs.Format.{fault, lists_of, number_at, unless};
ghost use Rattle.rounds.specs.Run.{exchanged, results_left, results_of};
ghost use Rattle.sheet.specs.Exchange.{PromisedBy, entries, exchange_fault, lent_fault, sheet_left, work_cleared};
ghost use Rattle.sheet.specs.Sheet.{sheet_of};

use crate::entries::write_entry;
use lists::year::Year;
use refusals::{Lent, Refusal};
use rounds::running::{Exchanged, run_rounds};

// The exchange of a year: `results` gets the stand of each trader, `sheet` the stand and the round of each, in their order.
// `work` has at least 3 n entries, which are cleared at the end. A refusal changes nothing that is lent.
#[tactic(auto, using(lists::proofs::Positions::count_of_lists))]
pub fn exchange(
    bytes: &[u8],
    results: &mut [u16],
    sheet: &mut [u8],
    work: &mut [u16],
) -> Result<Exchanged, Refusal>
    ensures answer { result ≡ unless (exchange_fault bytes.now (length results.old) (length sheet.old) (length work.old)) (exchanged (lists_of bytes.now)) }
    ensures results { results.new ≡ results_left result (lists_of bytes.now) results.old }
    ensures sheet { sheet.new ≡ sheet_left result (lists_of bytes.now) sheet.old }
    ensures work { work.new ≡ work_cleared result (lists_of bytes.now) work.old }
    ensures promise { PromisedBy result bytes.now results.new sheet.new }
{
    let n = traders_of(bytes)?;
    check_lent(n, results.len(), sheet.len(), work.len())?;
    let n = n as usize;
    exchange_whole(
        bytes,
        &mut results[..n],
        &mut sheet[..4 * n],
        &mut work[..3 * n],
    )
}

// The exchange of a year, in slices that are just as long as it wants them.
fn exchange_whole(
    bytes: &[u8],
    results: &mut [u16],
    sheet: &mut [u8],
    work: &mut [u16],
) -> Result<Exchanged, Refusal>
    requires results { length results.old ≡ length (lists_of bytes.now) }
    requires sheet { length sheet.old ≡ 4 * length results.old }
    requires work { length work.old ≡ 3 * length results.old }
    ensures answer { result ≡ unless (fault bytes.now) (exchanged (lists_of bytes.now)) }
    ensures left { MatchResult result (λ _. (results.new ≡ results_of (lists_of bytes.now)) × (sheet.new ≡ sheet_of (lists_of bytes.now)) × (work.new ≡ replicate (3 * length (lists_of bytes.now)) 0)) (λ _. (results.new ≡ results.old) × (sheet.new ≡ sheet.old) × (work.new ≡ work.old)) }
    ensures promise { (xs ys : List ℕ) → PromisedBy result bytes.now (results.new ++ xs) (sheet.new ++ ys) }
{
    let exchanged = run_rounds(bytes, results, work)?;
    write_sheet(sheet, results, work);
    work.fill(0);
    Ok(exchanged)
}

// How many traders the lists of a year have.
#[tactic(auto, using(lists::proofs::Positions::count_of_lists))]
fn traders_of(bytes: &[u8]) -> Result<u16, Refusal>
    ensures answer { result ≡ unless (fault bytes.now) (number_at bytes.now 0) }
    ensures count { IfOk result (λ n. n ≡ length (lists_of bytes.now)) }
{
    Ok(Year::read(bytes)?.traders())
}

// Each lent slice is long enough for n traders, by the lengths of the slices.
fn check_lent(n: u16, results: usize, sheet: usize, work: usize) -> Result<(), Refusal>
    ensures { result ≡ unless (lent_fault n results sheet work) tt }
{
    let n = n as usize;
    if results < n {
        return Err(Refusal::TooShort {
            lent: Lent::Results,
        });
    }
    if sheet < 4 * n {
        return Err(Refusal::TooShort { lent: Lent::Sheet });
    }
    if work < 3 * n {
        return Err(Refusal::TooShort { lent: Lent::Work });
    }
    Ok(())
}

// Writes the sheet: the results, and the rounds, which stand in the third part of the work slice.
#[tactic(auto, using(crate::proofs::Writing::all_entries, crate::proofs::Writing::written_more, std::proofs::lemmas::List::nil_from_length, std::proofs::lemmas::List::take_rest), unfolding(crate::proofs::Writing::entries_left))]
fn write_sheet(sheet: &mut [u8], results: &[u16], work: &[u16])
    requires sheet { length sheet.old ≡ 4 * length results.now }
    requires work { length work.now ≡ 3 * length results.now }
    ensures { sheet.new ≡ entries results.now work.now (length results.now) (length results.now) }
{
    let rounds = &work[2 * results.len()..];
    for (i, (stand, round)) in results.iter().zip(rounds).enumerate() {
        write_entry(sheet, 4 * i, *stand, *round);
    }
}

#[cfg(test)]
mod tests {
    use super::*;
    use crate::checking::check;

    // trader 0 lists 1, trader 1 lists 2, trader 2 lists 1 and 0
    const YEAR: [u8; 13] = [3, 0, 1, 1, 0, 1, 2, 0, 2, 1, 0, 0, 0];

    // the number and the place of a refusal, or 0 and the number of rounds
    fn outcome(
        bytes: &[u8],
        results: &mut [u16],
        sheet: &mut [u8],
        work: &mut [u16],
    ) -> (u8, usize) {
        match exchange(bytes, results, sheet, work) {
            Ok(exchanged) => (0, exchanged.rounds as usize),
            Err(refusal) => (refusal.number(), refusal.place()),
        }
    }

    // the checker's answer to the sheet of a year of at most 4 traders: 0 and their number where it is accepted
    fn checked(bytes: &[u8]) -> (u8, u16) {
        let mut sheet = [0; 16];
        match exchange(bytes, &mut [0; 4], &mut sheet, &mut [0; 12]) {
            Ok(exchanged) if exchanged.traders <= 4 => match check(
                bytes,
                &sheet[0..4 * exchanged.traders as usize],
            ) {
                Ok(n) => (0, n),
                Err(refusal) => (refusal.number(), 0),
            },
            _ => (1, 0),
        }
    }

    #[test]
    fn what_is_written(rt: HostRuntime) {
        let (mut results, mut sheet, mut work) = ([9; 4], [9; 14], [9; 10]);
        assert_eq!(rt; outcome(&YEAR, &mut results, &mut sheet, &mut work), (0, 2));
        assert_eq!(rt; results, [0, 2, 1, 9]);
        assert_eq!(rt; sheet, [0, 0, 1, 0, 2, 0, 0, 0, 1, 0, 0, 0, 9, 9]);
        assert_eq!(rt; work, [0, 0, 0, 0, 0, 0, 0, 0, 0, 9]);
    }

    #[test]
    fn short_slices_are_refused(rt: HostRuntime) {
        let (mut results, mut sheet, mut work) = ([9; 3], [9; 12], [9; 8]);
        assert_eq!(rt;
            outcome(&[0, 0], &mut results, &mut sheet, &mut work),
            (2, 0)
        );
        assert_eq!(rt;
            outcome(&YEAR, &mut [0; 2], &mut [0; 11], &mut work),
            (5, 0)
        );
        assert_eq!(rt;
            outcome(&YEAR, &mut results, &mut [0; 11], &mut work),
            (5, 1)
        );
        assert_eq!(rt; outcome(&YEAR, &mut results, &mut sheet, &mut work), (5, 2));
        assert_eq!(rt; results, [9; 3]);
        assert_eq!(rt; sheet, [9; 12]);
        assert_eq!(rt; work, [9; 8]);
    }

    // the sheet of each worked year is accepted
    #[test]
    fn sheets_of_years(rt: HostRuntime) {
        assert_eq!(rt;
            checked(&[3, 0, 2, 1, 0, 2, 0, 2, 2, 0, 0, 0, 2, 0, 0, 1, 0]),
            (0, 3)
        );
        assert_eq!(rt; checked(&[3, 0, 1, 1, 0, 1, 0, 0, 2, 0, 0, 1, 0]), (0, 3));
        assert_eq!(rt; checked(&[2, 0, 0, 0]), (0, 2));
        assert_eq!(rt; checked(&YEAR), (0, 3));
        assert_eq!(rt;
            checked(&[4, 0, 1, 1, 0, 1, 2, 0, 1, 3, 0, 1, 1, 0]),
            (0, 4)
        );
        assert_eq!(rt; checked(&[1, 0, 0]), (0, 1));
    }
}
