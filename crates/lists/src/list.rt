// A trader's list.
ghost use Rattle.std.specs.Prelude.{◌≡◌, length};
ghost use Rattle.lists.specs.Format.{encode_list, encode_stands, list_bytes, numbers, own_list_fault, unless};

use crate::reader::Reader;
use crate::reading::{MOST_TRADERS, check_end};
use crate::stands::Stands;
use refusals::Refusal;
use std::marker::Model;

// A trader's list, the dearest stand first: a part of the bytes of its year, its count and then its stands.
#[derive(Drop)]
pub struct List<'a> {
    pub(crate) bytes: &'a [u8],
}

impl<'a> Model for List<'a> {
    ghost use Rattle.std.specs.Prelude.{ℕ, List};
    ghost use Rattle.lists.specs.Format.{IsList, list_bytes, numbers};

    ghost Value = { List ℕ };

    ghost view = { λ list. numbers (list_bytes list.bytes.now 0) };

    ghost invariant = { λ list. IsList list.bytes.now };
}

impl<'a> List<'a> {
    #[tactic(auto, using(crate::proofs::Accepted::no_more, crate::proofs::Parts::accepted_list))]
    // Reads one trader's list by itself: its count, its stands, and nothing after them.
    pub fn read(list: &'a [u8], own: u16) -> Result<List<'a>, Refusal>
        ensures { result ≡ unless (own_list_fault list.now own) (numbers (list_bytes list.now 0)) }
    {
        let mut reader = Reader::new(list, 0, MOST_TRADERS);
        reader.list(own, 1)?;
        check_end(list, reader.at)?;
        Ok(List { bytes: list })
    }

    // Its bytes: the count, and the stands.
    pub fn as_bytes(&self) -> &'a [u8]
        ensures { result.now ≡ encode_list self.now }
    {
        self.bytes
    }

    // The bytes of its stands.
    pub fn stand_bytes(&self) -> &'a [u8]
        ensures { result.now ≡ encode_stands self.now }
    {
        &self.as_bytes()[1..]
    }

    // Its stands, one after another.
    #[tactic(auto, using(crate::proofs::Encoding::stands_again))]
    pub fn stands(&self) -> Stands<'a>
        ensures { numbers result.bytes.now ≡ self.now }
    {
        Stands::of(self.stand_bytes())
    }

    // How many stands it has.
    pub fn len(&self) -> u8
        ensures { result ≡ length self.now }
    {
        self.as_bytes()[0]
    }
}
