// Checking a paper, by itself and the trader's list. Bytes that are missing count as 0, and their field is in fault.
ghost use Rattle.std.specs.Prelude.{◌≡◌, [], length, slice_index_or, false};
ghost use Rattle.lists.specs.Format.{unless};
ghost use Rattle.papers.specs.Paper.{count_on, dearer_than, own_on, ring_length, ring_on, stand_on};
ghost use Rattle.papers.specs.Faults.{count_fault, dearer_fault, end_fault, field_fault, fields_fault, gone_fault, head_fault, holder_fault, in_place, length_fault, member_fault, own_fault, owner, paper_check_fault, ring_fault, round_fault, stand_fault, tail_fault};

use crate::list::{dearer_count, names};
use crate::paper::Paper;
use lists::list::List;
use lists::reading::MOST_TRADERS;
use refusals::Refusal;

impl<'a> Paper<'a> {
    // A field is in fault where the paper ends before byte `end`, or where it is not right.
    fn check_field(&self, field: usize, end: usize, right: bool) -> Result<(), Refusal>
        ensures { result ≡ unless (field_fault self.now field end right) tt }
    {
        if self.as_bytes().len() < end || !right {
            return Err(Refusal::PaperFault { field });
        }
        Ok(())
    }

    // The trader whose list it has to be; where the paper ends before its number, a number that nobody has.
    fn owner(&self) -> u16
        ensures { result ≡ owner self.now }
    {
        if self.as_bytes().len() < 2 {
            return MOST_TRADERS;
        }
        self.own()
    }

    // Field 0: whose paper it is.
    fn check_own(&self) -> Result<(), Refusal>
        ensures { result ≡ unless (own_fault self.now) tt }
    {
        self.check_field(0, 2, self.own() < MOST_TRADERS)
    }

    // Field 1: the round in which the trader went out.
    fn check_round(&self) -> Result<(), Refusal>
        ensures { result ≡ unless (round_fault self.now) tt }
    {
        self.check_field(1, 4, true)
    }

    // Field 2: the stand got, the own one or a listed one.
    fn check_stand(&self, list: &List) -> Result<(), Refusal>
        ensures { result ≡ unless (stand_fault list.now self.now) tt }
    {
        let got = self.stand();
        let right = got == self.own() || names(list, got);
        self.check_field(2, 6, right)
    }

    // Field 3: how many traders are on the ring, one just where the own stand is kept.
    fn check_length(&self) -> Result<(), Refusal>
        ensures { result ≡ unless (length_fault self.now) tt }
    {
        let members = self.ring_length();
        let keeps = self.stand() == self.own();
        let right = members > 0 && members <= MOST_TRADERS && (members == 1) == keeps;
        self.check_field(3, 8, right)
    }

    // The four fields before the ring's traders.
    fn check_head(&self, list: &List) -> Result<(), Refusal>
        ensures { result ≡ unless (head_fault list.now self.now) tt }
    {
        self.check_own()?;
        self.check_round()?;
        self.check_stand(list)?;
        self.check_length()
    }

    // The ring begins with the own trader and goes on with the holder of the stand got.
    fn in_place(&self, k: u16) -> bool
        ensures { result ≡ in_place self.now k }
    {
        match k {
            0 => self.trader(k) == self.own(),
            1 => self.trader(k) == self.stand(),
            _ => true,
        }
    }

    // The trader at place k of the ring. `named` tells who stands before it on the ring.
    fn check_trader(&self, k: u16, named: &[bool; 4000]) -> Result<u16, Refusal>
        ensures { result ≡ unless (member_fault self.now k (slice_index_or named.now (ring_on self.now k) false)) (ring_on self.now k) }
    {
        let trader = self.trader(k);
        let right = trader < MOST_TRADERS && self.in_place(k) && !named[trader as usize];
        self.check_field(4 + k as usize, self.trader_place(k) + 2, right)?;
        Ok(trader)
    }

    // The traders of the ring: the own one first, then the holder of the stand got, and nobody twice.
    fn check_ring(&self) -> Result<(), Refusal>
        ensures { result ≡ unless (ring_fault self.now [] (ring_length self.now) 0) tt }
    {
        // in fixed memory, as a library crate takes no heap
        let mut named = [false; 4000];
        // by places and not by `ring()`: a trader is checked, and its field told, by its place
        for k in 0..self.ring_length() {
            let trader = self.check_trader(k, &named)?;
            named[trader as usize] = true;
        }
        Ok(())
    }

    // The count of the dearer stands: of those before the stand got, in the list.
    fn check_count(&self, list: &List) -> Result<(), Refusal>
        ensures { result ≡ unless (count_fault self.now (length (dearer_than (stand_on self.now) list.now))) tt }
    {
        let dearer = dearer_count(list, self.stand());
        let field = 4 + self.ring_length() as usize;
        self.check_field(field, self.count_place() + 1, self.count() == dearer)
    }

    // The holder of the dearer stand at place j of the list, who is the one with the stand's number.
    fn check_holder(&self, j: u8, stand: u16) -> Result<(), Refusal>
        ensures { result ≡ unless (holder_fault self.now j stand) tt }
    {
        let field = 5 + self.ring_length() as usize + 2 * j as usize;
        self.check_field(field, self.holder_place(j) + 2, self.holder(j) == stand)
    }

    // The round in which that holder went out: an earlier one than the own.
    fn check_gone(&self, j: u8) -> Result<(), Refusal>
        ensures { result ≡ unless (gone_fault self.now j) tt }
    {
        let field = 6 + self.ring_length() as usize + 2 * j as usize;
        self.check_field(
            field,
            self.holder_place(j) + 4,
            self.gone_in(j) < self.round(),
        )
    }

    // Nothing follows the dearer stands.
    fn check_end(&self) -> Result<(), Refusal>
        ensures { result ≡ unless (end_fault self.now (count_on self.now)) tt }
    {
        if self.size() < self.as_bytes().len() {
            return Err(Refusal::PaperFault {
                field: 5 + self.ring_length() as usize + 2 * self.count() as usize,
            });
        }
        Ok(())
    }

    // The dearer stands, each with its holder and the holder's round, and then nothing. Their count was found right.
    fn check_dearer(&self, list: &List) -> Result<(), Refusal>
        requires { count_on self.now ≡ length (dearer_than (stand_on self.now) list.now) }
        ensures { result ≡ unless (dearer_fault self.now (dearer_than (stand_on self.now) list.now) 0) tt }
    {
        for (j, stand) in (0..self.count()).zip(list.stands()) {
            self.check_holder(j, stand)?;
            self.check_gone(j)?;
        }
        self.check_end()
    }

    // The count of the dearer stands, and then each.
    fn check_tail(&self, list: &List) -> Result<(), Refusal>
        ensures { result ≡ unless (tail_fault self.now (dearer_than (stand_on self.now) list.now)) tt }
    {
        self.check_count(list)?;
        self.check_dearer(list)
    }

    // All fields, for the trader whose list it is: hands on whose paper it is.
    fn check_fields(&self, list: &List) -> Result<u16, Refusal>
        ensures { result ≡ unless (fields_fault list.now self.now) (own_on self.now) }
    {
        self.check_head(list)?;
        self.check_ring()?;
        self.check_tail(list)?;
        Ok(self.own())
    }
}

// Checks a paper by itself and the trader's list, which is its count's byte and its stands: hands on whose paper it is, or the
// first fault of the list and then of the paper. Where the paper ends before its trader's number, the list may be anybody's.
#[tactic(auto, using(crate::proofs::Rings::list_right))]
pub fn check_paper(list: &[u8], paper: &[u8]) -> Result<u16, Refusal>
    ensures { result ≡ unless (paper_check_fault list.now paper.now) (own_on paper.now) }
{
    let paper = Paper::of(paper);
    let list = List::read(list, paper.owner())?;
    paper.check_fields(&list)
}

#[cfg(test)]
mod tests {
    use super::*;

    // the list 1 0 of trader 2, whose round is 3 and who keeps its stand: 1 and 0 went out in rounds 0 and 2
    const LIST: [u8; 5] = [2, 1, 0, 0, 0];

    const KEPT: [u8; 19] = [2, 0, 3, 0, 2, 0, 1, 0, 2, 0, 2, 1, 0, 0, 0, 0, 0, 2, 0];

    // a ring of three: 2 got stand 0, whose holder got stand 5
    const RING: [u8; 19] = [2, 0, 3, 0, 0, 0, 3, 0, 2, 0, 0, 0, 5, 0, 1, 1, 0, 2, 0];

    // the number and the place of a refusal, or 0 and whose paper it is
    fn outcome(list: &[u8], paper: &[u8]) -> (u8, usize) {
        match check_paper(list, paper) {
            Ok(own) => (0, own as usize),
            Err(refusal) => (refusal.number(), refusal.place()),
        }
    }

    // the refusal of a paper with another byte at a place
    fn changed(mut paper: [u8; 19], at: usize, byte: u8) -> (u8, usize) {
        if at < 19 {
            paper[at] = byte;
        }
        outcome(&LIST, &paper)
    }

    #[test]
    fn accepted(rt: HostRuntime) {
        assert_eq!(rt; outcome(&LIST, &KEPT), (0, 2));
        assert_eq!(rt; outcome(&LIST, &RING), (0, 2));
    }

    // another byte at a place, and the field that is then in fault
    #[test]
    fn fields_in_fault(rt: HostRuntime) {
        let kept = [
            (1, 16),
            (4, 7),
            (6, 2),
            (8, 1),
            (10, 1),
            (11, 0),
            (13, 3),
            (15, 1),
            (17, 3),
        ];
        let fields = [0, 2, 3, 4, 5, 6, 7, 8, 9];
        for k in 0..9 {
            assert_eq!(rt; changed(KEPT, kept[k].0, kept[k].1), (10, fields[k]));
        }
        // the ring not closed, next not the holder of the stand got, and a trader twice
        let ring = [(6, 1), (10, 1), (12, 2)];
        let members = [3, 5, 6];
        for k in 0..3 {
            assert_eq!(rt; changed(RING, ring[k].0, ring[k].1), (10, members[k]));
        }
    }

    // the first field that is missing
    #[test]
    fn short_papers(rt: HostRuntime) {
        let missing = [0, 0, 1, 1, 2, 2, 3, 3, 4, 4, 5, 5, 6, 6, 7, 8, 8, 9, 9];
        for length in 0..19 {
            assert_eq!(rt; outcome(&LIST, &RING[..length]), (10, missing[length]));
        }
    }

    // one byte too many, and lists in fault
    #[test]
    fn too_much_and_lists(rt: HostRuntime) {
        assert_eq!(rt;
            outcome(&[0], &[2, 0, 0, 0, 2, 0, 1, 0, 2, 0, 0, 9]),
            (10, 6)
        );
        assert_eq!(rt; outcome(&[41], &[]), (3, 0));
        assert_eq!(rt; outcome(&[2, 1, 0, 0], &KEPT), (1, 4));
        assert_eq!(rt; outcome(&[2, 1, 0, 2, 0], &KEPT), (4, 3));
    }
}
