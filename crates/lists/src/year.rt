// The accepted lists of a year, and those of its traders.
ghost use Rattle.std.specs.Prelude.{◌≡◌, ◌≤◌, length, slice_get};
ghost use Rattle.lists.specs.Format.{Encodable};

use crate::list::List;
use std::marker::Model;

// The lists of a year's traders, in the order of their numbers: bytes that were accepted.
#[derive(Drop)]
pub struct Year<'a> {
    pub(crate) bytes: &'a [u8],
    // how many traders there are, read once
    pub(crate) count: u16,
}

impl<'a> Model for Year<'a> {
    ghost use Rattle.lists.specs.Format.{IsYear, lists_of};
    ghost use Rattle.theory.specs.Trade.{Lists};

    ghost Value = { Lists };

    ghost view = { λ year. lists_of year.bytes.now };

    ghost invariant = { λ year. IsYear year.bytes.now year.count };
}

impl<'a> Year<'a> {
    // How many traders there are, at most 4,000.
    pub fn traders(&self) -> u16
        ensures count { result ≡ length self.now }
        ensures most { result ≤ 4000 }
        ensures lists { Encodable self.now }
    {
        self.count
    }

    // The lists of all traders.
    #[tactic(auto, using(crate::proofs::Parts::year_are, crate::proofs::Parts::year_lists, crate::proofs::Parts::year_begins))]
    pub fn lists(&self) -> Lists<'a>
        ensures { result ≡ self.now }
    {
        Lists {
            left: self.traders(),
            bytes: &self.bytes[2..],
        }
    }

    // The list of a trader; None past the last.
    pub fn list(&self, trader: u16) -> Option<List<'a>>
        ensures { result ≡ slice_get self.now trader }
    {
        self.lists().nth(trader as usize)
    }
}

// The lists that are left, one after another.
#[derive(Drop)]
pub struct Lists<'a> {
    // how many lists they are: contracts see them by it
    left: u16,
    bytes: &'a [u8],
}

impl<'a> Model for Lists<'a> {
    ghost use Rattle.lists.specs.Format.{AreLists, lists_from};
    ghost use Rattle.theory.specs.Trade.{Lists};

    ghost Value = { Lists };

    ghost view = { λ lists. lists_from lists.bytes.now lists.left 0 };

    ghost invariant = { λ lists. AreLists lists.bytes.now lists.left };
}

impl<'a> Iterator for Lists<'a> {
    ghost use Rattle.std.specs.Iterator.{YieldsFirst, item_count};

    type Item = List<'a>;

    ghost next_gives = { YieldsFirst (λ lists. lists) };

    ghost remaining = { item_count (λ lists. lists) };

    #[tactic(auto, using(crate::proofs::Parts::part_within, crate::proofs::Parts::part_is_list, crate::proofs::Parts::rest_are_lists, crate::proofs::Parts::part_and_rest, crate::proofs::Parts::some_left, crate::proofs::Parts::none_left))]
    fn next(&mut self) -> Option<List<'a>> {
        if self.bytes.is_empty() {
            return None;
        }
        let (bytes, rest) = self.bytes.split_at(1 + 2 * self.bytes[0] as usize);
        self.left -= 1;
        self.bytes = rest;
        Some(List { bytes })
    }
}
