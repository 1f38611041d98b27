// A sheet that was accepted for the lists of a year.
ghost use Rattle.std.specs.Prelude.{◌≡◌, ◌<◌, ◌≤◌, length};
ghost use Rattle.sheet.specs.Sheet.{ring_of, round_in, stand_in};

use crate::entries::{round_in, stand_in};
use lists::year::Year;
use std::marker::Model;

// The sheet, with the year whose lists it was checked against.
#[derive(Drop)]
pub struct AcceptedSheet<'a> {
    pub(crate) year: &'a Year<'a>,
    pub(crate) bytes: &'a [u8],
}

impl<'a> Model for AcceptedSheet<'a> {
    ghost use Rattle.sheet.specs.Sheet.{Accepted, IsAccepted};

    ghost Value = { Accepted };

    ghost view = { λ sheet. record { lists = sheet.year.now; bytes = sheet.bytes.now } };

    ghost invariant = { λ sheet. IsAccepted sheet.year.now sheet.bytes.now };
}

impl<'a> AcceptedSheet<'a> {
    // The year whose lists it was checked against.
    pub fn year(&self) -> &'a Year<'a>
        ensures { result.now ≡ self.now.lists }
    {
        self.year
    }

    // Its bytes: four for each trader.
    pub fn as_bytes(&self) -> &'a [u8]
        ensures { result.now ≡ self.now.bytes }
    {
        self.bytes
    }

    // How many traders there are.
    pub fn traders(&self) -> u16
        ensures { result ≡ length self.now.lists }
    {
        self.year.traders()
    }

    // The stand that a trader got.
    pub fn stand(&self, trader: u16) -> u16
        ensures stand { result ≡ stand_in self.now.bytes trader }
        ensures exists { trader < length self.now.lists → result < length self.now.lists }
    {
        stand_in(self.bytes, trader)
    }

    // The round in which a trader went out.
    pub fn round(&self, trader: u16) -> u16
        ensures { result ≡ round_in self.now.bytes trader }
    {
        round_in(self.bytes, trader)
    }

    // The traders of a trader's ring: the trader first, and after each the holder of the stand that it got.
    #[tactic(auto, using(crate::proofs::Rings::ring_most))]
    pub fn ring(&self, trader: u16) -> Ring<'a>
        ensures ring { result ≡ ring_of self.now.bytes (length self.now.lists) trader }
        ensures most { length result ≤ length self.now.lists }
    {
        Ring {
            sheet: self.bytes,
            own: trader,
            next: trader,
            left: self.traders(),
        }
    }
}

// The traders of a ring that are left, until the own one comes next.
#[derive(Drop)]
pub struct Ring<'a> {
    sheet: &'a [u8],
    own: u16,
    next: u16,
    left: u16,
}

impl<'a> Model for Ring<'a> {
    ghost use Rattle.std.specs.Prelude.{ℕ, List};
    ghost use Rattle.sheet.specs.Sheet.{ring_from};

    ghost Value = { List ℕ };

    ghost view = { λ ring. ring_from ring.sheet.now ring.own ring.left ring.next };
}

impl<'a> Iterator for Ring<'a> {
    ghost use Rattle.std.specs.Iterator.{YieldsFirst, item_count};

    type Item = u16;

    ghost next_gives = { YieldsFirst (λ ring. ring) };

    ghost remaining = { item_count (λ ring. ring) };

    #[tactic(auto, using(crate::proofs::Rings::ring_none, crate::proofs::Rings::ring_last, crate::proofs::Rings::ring_more))]
    fn next(&mut self) -> Option<u16> {
        if self.left == 0 {
            return None;
        }
        let trader = self.next;
        self.next = stand_in(self.sheet, trader);
        self.left -= 1;
        if self.next == self.own {
            self.left = 0;
        }
        Some(trader)
    }
}

#[cfg(test)]
mod tests {
    use super::*;

    // trader 0 lists 1, trader 1 lists 2, trader 2 lists 1 and 0
    const YEAR: [u8; 13] = [3, 0, 1, 1, 0, 1, 2, 0, 2, 1, 0, 0, 0];

    // trader 0 keeps its stand in round 1, and traders 1 and 2 exchange theirs in round 0
    const SHEET: [u8; 12] = [0, 0, 1, 0, 2, 0, 0, 0, 1, 0, 0, 0];

    // the stand and the round of a trader, and its ring, filled up with 9
    fn seen(trader: u16) -> [u16; 5] {
        let Ok(year) = Year::read(&YEAR) else {
            return [9; 5];
        };
        let Ok(sheet) = AcceptedSheet::check(&year, &SHEET) else {
            return [9; 5];
        };
        let mut ring = sheet.ring(trader);
        [
            sheet.stand(trader),
            sheet.round(trader),
            ring.next().unwrap_or(9),
            ring.next().unwrap_or(9),
            ring.next().unwrap_or(9),
        ]
    }

    #[test]
    fn stands_rounds_and_rings(rt: HostRuntime) {
        assert_eq!(rt; seen(0), [0, 1, 0, 9, 9]);
        assert_eq!(rt; seen(1), [2, 0, 1, 2, 9]);
        assert_eq!(rt; seen(2), [1, 0, 2, 1, 9]);
        // a trader past the last: bytes that are missing count as 0
        assert_eq!(rt; seen(7), [0, 0, 7, 0, 0]);
    }
}
