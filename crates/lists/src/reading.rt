// Reading the bytes of a year's lists, from front to back.
ghost use Rattle.std.specs.Prelude.{◌≡◌, ◌≤◌, Some, MatchResult};
ghost use Rattle.lists.specs.Format.{count_fault, end_fault, fault, list_bytes, lists_fault, lists_of, number_at, start, unless};

use crate::bytes::{byte_at, number_in};
use crate::reader::Reader;
use crate::year::Year;
use refusals::Refusal;

// No year has more traders, and no list more stands.
pub const MOST_TRADERS: u16 = 4000;

pub const MOST_STANDS: u8 = 40;

// The longest lists have as many of both.
pub const MOST_BYTES: usize = 2 + MOST_TRADERS as usize * (1 + 2 * MOST_STANDS as usize);

// The number of traders.
fn read_count(bytes: &[u8]) -> Result<u16, Refusal>
    ensures { result ≡ unless (count_fault bytes.now) (number_at bytes.now 0) }
{
    let Some(traders) = number_in(bytes, 0) else {
        return Err(Refusal::WrongLength { at: bytes.len() });
    };
    if traders == 0 || traders > MOST_TRADERS {
        return Err(Refusal::WrongCount);
    }
    Ok(traders)
}

// Where the list of a trader begins: its count's byte. It is found by going over the lists before it.
pub fn start_of(bytes: &[u8], trader: u16) -> usize
    ensures { result ≡ start bytes.now trader }
{
    // a place kept by hand: any bytes are taken, and those that were not accepted have no lists to go over
    let mut position = 2;
    for i in 0..trader {
        position += 1 + 2 * byte_at(bytes, position) as usize;
    }
    position
}

// The bytes of the stands of the list that begins at byte `at`, a part of the bytes; where some are missing, those that are there.
pub fn list_at(bytes: &[u8], at: usize) -> &[u8]
    ensures { result.now ≡ list_bytes bytes.now at }
{
    if at >= bytes.len() {
        return &bytes[0..0];
    }
    let size = 2 * bytes[at] as usize;
    if bytes.len() - at - 1 < size {
        return &bytes[at + 1..];
    }
    &bytes[at + 1..at + 1 + size]
}

// Nothing follows byte `end`.
pub fn check_end(bytes: &[u8], end: usize) -> Result<(), Refusal>
    ensures { result ≡ unless (end_fault bytes.now end) tt }
{
    if end < bytes.len() {
        return Err(Refusal::WrongLength { at: end });
    }
    Ok(())
}

// Reads the lists of that many traders, and hands on where they end.
fn read_lists(bytes: &[u8], traders: u16) -> Result<usize, Refusal>
    requires { traders ≤ 4000 }
    ensures { MatchResult result (λ end. lists_fault bytes.now traders 0 traders 2 ≡ end_fault bytes.now end) (λ f. lists_fault bytes.now traders 0 traders 2 ≡ Some f) }
{
    let mut reader = Reader::new(bytes, 2, traders);
    for own in 0..traders {
        reader.list(own, own + 1)?;
    }
    Ok(reader.at)
}

impl<'a> Year<'a> {
    #[tactic(auto, using(crate::proofs::Parts::read_year))]
    // Reads the lists of a year, or finds the first fault from front to back.
    pub fn read(bytes: &'a [u8]) -> Result<Year<'a>, Refusal>
        ensures { result ≡ unless (fault bytes.now) (lists_of bytes.now) }
    {
        let traders = read_count(bytes)?;
        let end = read_lists(bytes, traders)?;
        check_end(bytes, end)?;
        Ok(Year {
            bytes,
            count: traders,
        })
    }
}

#[cfg(test)]
mod tests {
    use super::*;
    use std::test::Fail;

    // the number and the place of a refusal, or 0 and the number of traders
    fn outcome(bytes: &[u8]) -> (u8, usize) {
        match Year::read(bytes) {
            Ok(year) => (0, year.traders() as usize),
            Err(refusal) => (refusal.number(), refusal.place()),
        }
    }

    #[test]
    fn refusals_have_number_and_place(rt: HostRuntime) {
        assert_eq!(rt; outcome(&[]), (1, 0));
        assert_eq!(rt; outcome(&[1]), (1, 1));
        assert_eq!(rt; outcome(&[0, 0]), (2, 0));
        assert_eq!(rt; outcome(&[0xa1, 0x0f]), (2, 0));
        assert_eq!(rt; outcome(&[2, 0, 0]), (1, 3));
        assert_eq!(rt; outcome(&[2, 0, 41, 0, 0]), (3, 2));
        assert_eq!(rt; outcome(&[2, 0, 1, 1]), (1, 4));
        assert_eq!(rt; outcome(&[2, 0, 1, 2, 0, 0]), (4, 3));
        assert_eq!(rt; outcome(&[2, 0, 0, 1, 1, 0]), (4, 4));
        assert_eq!(rt; outcome(&[3, 0, 2, 1, 0, 1, 0, 0, 0]), (4, 5));
        assert_eq!(rt; outcome(&[3, 0, 0, 0, 1, 0, 0, 9]), (1, 7));
    }

    #[test]
    fn accepted_years(rt: HostRuntime) -> Result<(), Fail> {
        assert_eq!(rt; outcome(&[1, 0, 0]), (0, 1));
        assert_eq!(rt; outcome(&[3, 0, 1, 1, 0, 1, 2, 0, 2, 1, 0, 0, 0]), (0, 3));
        let mut most = vec![in rt.alloc(); 0u8; 4002]?;
        assert!(rt; most.len() == 4002);
        most[0] = 0xa0;
        most[1] = 0x0f;
        assert_eq!(rt; outcome(most.as_slice()), (0, 4000));
        most[2] = 40;
        assert_eq!(rt; outcome(most.as_slice()).0, 4);
        most[2] = 41;
        assert_eq!(rt; outcome(most.as_slice()), (3, 2));
        Ok(())
    }

    #[test]
    fn a_list_of_forty(rt: HostRuntime) -> Result<(), Fail> {
        let mut bytes = vec![in rt.alloc(); 41, 0, 40]?;
        for stand in 1..41u8 {
            bytes.push(stand)?;
            bytes.push(0)?;
        }
        for _ in 0..40 {
            bytes.push(0)?;
        }
        assert_eq!(rt; outcome(bytes.as_slice()), (0, 41));
        assert_eq!(rt; start_of(bytes.as_slice(), 1), 83);
        Ok(())
    }
}
