// Writing a paper's parts, one after the other.
ghost use Rattle.std.specs.Prelude.{◌≡◌, ◌+◌, ◌*◌, ◌≤◌, ◌++◌, ◌∷◌, [], length, take};
ghost use Rattle.lists.specs.Format.{bytes_of, encode_stands};
ghost use Rattle.papers.specs.Paper.{gone_bytes, written};

use lists::list::List;
use sheet::accepted::{AcceptedSheet, Ring};

// Bytes that are lent to be written, of which those before `at` have been.
#[derive(Drop)]
pub(crate) struct Writer<'a> {
    out: &'a mut [u8],
    // kept as a place: of a rest that is cut off with each number a contract can't say what was written before it
    at: usize,
}

impl<'a> Writer<'a> {
    pub(crate) fn over(out: &'a mut [u8]) -> Writer<'a>
        ensures same_reference { result.out.ghost_name ≡ out.entry.ghost_name }
        ensures out { result.out.now ≡ out.old }
        ensures at { result.at ≡ 0 }
    {
        Writer { out, at: 0 }
    }

    // A byte.
    pub(crate) fn byte(&mut self, byte: u8)
        requires { self.old.at + 1 ≤ length self.old.out.now }
        ensures same_reference { self.new.out.ghost_name ≡ self.old.out.ghost_name }
        ensures out { self.new.out.now ≡ written self.old.at (byte ∷ []) self.old.out.now }
        ensures at { self.new.at ≡ self.old.at + 1 }
    {
        self.out[self.at] = byte;
        self.at += 1;
    }

    // A number's two bytes, low byte first.
    pub(crate) fn number(&mut self, number: u16)
        requires { self.old.at + 2 ≤ length self.old.out.now }
        ensures same_reference { self.new.out.ghost_name ≡ self.old.out.ghost_name }
        ensures out { self.new.out.now ≡ written self.old.at (bytes_of number) self.old.out.now }
        ensures at { self.new.at ≡ self.old.at + 2 }
        ensures long { length self.new.out.now ≡ length self.old.out.now }
    {
        self.out[self.at..self.at + 2].copy_from_slice(&number.to_le_bytes());
        self.at += 2;
    }

    // The four numbers before the ring's traders.
    pub(crate) fn head(&mut self, own: u16, round: u16, stand: u16, members: u16)
        requires { self.old.at + 8 ≤ length self.old.out.now }
        ensures same_reference { self.new.out.ghost_name ≡ self.old.out.ghost_name }
        ensures out { let at = self.old.at in self.new.out.now ≡ written (at + 6) (bytes_of members) (written (at + 4) (bytes_of stand) (written (at + 2) (bytes_of round) (written at (bytes_of own) self.old.out.now))) }
        ensures at { self.new.at ≡ self.old.at + 8 }
    {
        self.number(own);
        self.number(round);
        self.number(stand);
        self.number(members);
    }

    // The traders of a ring.
    #[tactic(auto, using(crate::proofs::Writes::ring_none, crate::proofs::Writes::ring_written))]
    pub(crate) fn ring(&mut self, ring: Ring)
        requires { self.old.at + 2 * length ring ≤ length self.old.out.now }
        ensures same_reference { self.new.out.ghost_name ≡ self.old.out.ghost_name }
        ensures out { self.new.out.now ≡ written self.old.at (encode_stands ring.entry) self.old.out.now }
        ensures at { self.new.at ≡ self.old.at + 2 * length ring.entry }
    {
        for trader in ring {
            self.number(trader);
        }
    }

    // The holder and the round of each of the first stands of a list.
    #[tactic(auto, using(crate::proofs::Writes::gone_none, crate::proofs::Writes::gone_written, crate::proofs::Writes::first_taken, crate::proofs::Writes::none_taken))]
    pub(crate) fn gone(&mut self, sheet: &AcceptedSheet, list: &List, dearer: u8)
        requires few { dearer ≤ length list.now }
        requires room { self.old.at + 4 * dearer ≤ length self.old.out.now }
        ensures same_reference { self.new.out.ghost_name ≡ self.old.out.ghost_name }
        ensures out { self.new.out.now ≡ written self.old.at (gone_bytes sheet.now.bytes (take dearer list.now)) self.old.out.now }
        ensures at { self.new.at ≡ self.old.at + 4 * dearer }
    {
        for holder in list.stands().take(dearer as usize) {
            self.number(holder);
            self.number(sheet.round(holder));
        }
    }
}
