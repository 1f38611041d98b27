// A trader's paper by its bytes. Bytes that are missing count as 0.
ghost use Rattle.std.specs.Prelude.{◌≡◌, ◌+◌, ◌*◌, ◌≤◌, length};
ghost use Rattle.papers.specs.Paper.{all_gone_on, count_on, count_place, gone_on, holder_on, own_on, ring_length, ring_on, round_on, stand_on, traders_on};

use lists::bytes::{byte_at, number_at};
use std::marker::Model;
use std::ops::Range;

// A paper: four numbers, the ring's traders, the count of the dearer stands, and the holder and the round of each.
#[derive(Drop)]
pub struct Paper<'a> {
    bytes: &'a [u8],
}

impl<'a> Model for Paper<'a> {
    ghost use Rattle.std.specs.Prelude.{ℕ, List};

    ghost Value = { List ℕ };

    ghost view = { λ paper. paper.bytes.now };
}

impl<'a> Paper<'a> {
    pub fn of(bytes: &'a [u8]) -> Paper<'a>
        ensures { result ≡ bytes.now }
    {
        Paper { bytes }
    }

    // Its bytes.
    pub fn as_bytes(&self) -> &'a [u8]
        ensures { result.now ≡ self.now }
    {
        self.bytes
    }

    // Whose paper it is.
    pub fn own(&self) -> u16
        ensures { result ≡ own_on self.now }
    {
        number_at(self.bytes, 0)
    }

    // The round in which the trader went out.
    pub fn round(&self) -> u16
        ensures { result ≡ round_on self.now }
    {
        number_at(self.bytes, 2)
    }

    // The stand that the trader got.
    pub fn stand(&self) -> u16
        ensures { result ≡ stand_on self.now }
    {
        number_at(self.bytes, 4)
    }

    // How many traders are on the ring.
    pub fn ring_length(&self) -> u16
        ensures { result ≡ ring_length self.now }
    {
        number_at(self.bytes, 6)
    }

    // Where the trader at place k of the ring stands.
    pub(crate) fn trader_place(&self, k: u16) -> usize
        ensures { result ≡ 8 + 2 * k }
    {
        8 + 2 * k as usize
    }

    // The trader at place k of the ring, the own one at place 0.
    pub fn trader(&self, k: u16) -> u16
        ensures { result ≡ ring_on self.now k }
    {
        number_at(self.bytes, self.trader_place(k))
    }

    // The traders of the ring, the own one first.
    #[tactic(auto, using(crate::proofs::Parts::count_of_places))]
    pub fn ring(&self) -> Ring<'a>
        ensures ring { result ≡ traders_on self.now }
        ensures most { length result ≤ 65535 }
    {
        Ring {
            paper: Paper { bytes: self.bytes },
            places: 0..self.ring_length(),
        }
    }

    // Where the count of the dearer stands is.
    pub fn count_place(&self) -> usize
        ensures place { result ≡ count_place self.now }
        ensures bound { result ≤ 131078 }
    {
        self.trader_place(self.ring_length())
    }

    // How many stands were dearer.
    pub fn count(&self) -> u8
        ensures { result ≡ count_on self.now }
    {
        byte_at(self.bytes, self.count_place())
    }

    // Where the holder of the dearer stand at place j of the list stands, and after it the round.
    pub(crate) fn holder_place(&self, j: u8) -> usize
        ensures place { result ≡ count_place self.now + 1 + 4 * j }
        ensures bound { result ≤ 132099 }
    {
        self.count_place() + 1 + 4 * j as usize
    }

    // The holder of the dearer stand at place j of the list.
    pub fn holder(&self, j: u8) -> u16
        ensures { result ≡ holder_on self.now j }
    {
        number_at(self.bytes, self.holder_place(j))
    }

    // The round in which that holder went out.
    pub fn gone_in(&self, j: u8) -> u16
        ensures { result ≡ gone_on self.now j }
    {
        number_at(self.bytes, self.holder_place(j) + 2)
    }

    // The dearer stands: the holder of each and the round in which that holder went out.
    #[tactic(auto, using(crate::proofs::Parts::count_of_places))]
    pub fn gone(&self) -> Gone<'a>
        ensures gone { result ≡ all_gone_on self.now }
        ensures most { length result ≤ 255 }
    {
        Gone {
            paper: Paper { bytes: self.bytes },
            places: 0..self.count(),
        }
    }

    // How many bytes it has, as its own numbers say.
    pub fn size(&self) -> usize
        ensures size { result ≡ count_place self.now + 1 + 4 * count_on self.now }
        ensures bound { result ≤ 132099 }
    {
        self.holder_place(self.count())
    }
}

// The traders of a ring that are left, one after another.
#[derive(Drop)]
pub struct Ring<'a> {
    paper: Paper<'a>,
    places: Range<u16>,
}

impl<'a> Model for Ring<'a> {
    ghost use Rattle.std.specs.Prelude.{ℕ, List};
    ghost use Rattle.papers.specs.Paper.{ring_on, from_place};

    ghost Value = { List ℕ };

    ghost view = { λ ring. from_place (ring_on ring.paper) ring.places.start ring.places.end };
}

impl<'a> Iterator for Ring<'a> {
    ghost use Rattle.std.specs.Iterator.{YieldsFirst, item_count};

    type Item = u16;

    ghost next_gives = { YieldsFirst (λ traders. traders) };

    ghost remaining = { item_count (λ traders. traders) };

    #[tactic(auto, using(crate::proofs::Parts::places_more, crate::proofs::Parts::places_done))]
    fn next(&mut self) -> Option<u16> {
        let k = self.places.next()?;
        Some(self.paper.trader(k))
    }
}

// The dearer stands that are left, one after another: the holder of each and the round in which that holder went out.
#[derive(Drop)]
pub struct Gone<'a> {
    paper: Paper<'a>,
    places: Range<u8>,
}

impl<'a> Model for Gone<'a> {
    ghost use Rattle.std.specs.Prelude.{ℕ, List};
    ghost use Rattle.papers.specs.Paper.{holder_and_round, from_place};

    ghost Value = { List (ℕ × ℕ) };

    ghost view = { λ gone. from_place (holder_and_round gone.paper) gone.places.start gone.places.end };
}

impl<'a> Iterator for Gone<'a> {
    ghost use Rattle.std.specs.Iterator.{YieldsFirst, item_count};

    type Item = (u16, u16);

    ghost next_gives = { YieldsFirst (λ gone. gone) };

    ghost remaining = { item_count (λ gone. gone) };

    #[tactic(auto, using(crate::proofs::Parts::places_more, crate::proofs::Parts::places_done))]
    fn next(&mut self) -> Option<(u16, u16)> {
        let j = self.places.next()?;
        Some((self.paper.holder(j), self.paper.gone_in(j)))
    }
}

#[cfg(test)]
mod tests {
    use super::Paper;

    // trader 2 got stand 0 on a ring of three in round 3; the dearer stand 1 was gone in round 2
    const RING: [u8; 19] = [2, 0, 3, 0, 0, 0, 3, 0, 2, 0, 0, 0, 5, 1, 1, 1, 0, 2, 0];

    #[test]
    fn fields(rt: HostRuntime) {
        let paper = Paper::of(&RING);
        assert_eq!(rt; (paper.own(), paper.round(), paper.stand()), (2, 3, 0));
        assert_eq!(rt; (paper.ring_length(), paper.trader(2)), (3, 261));
        assert_eq!(rt; (paper.count_place(), paper.count()), (14, 1));
        assert_eq!(rt; (paper.holder(0), paper.gone_in(0)), (1, 2));
        assert_eq!(rt; paper.size(), 19);
    }

    #[test]
    fn parts(rt: HostRuntime) {
        let mut ring = Paper::of(&RING).ring();
        assert_eq!(rt; (ring.next(), ring.next()), (Some(2), Some(0)));
        assert_eq!(rt; (ring.next(), ring.next()), (Some(261), None));
        let mut gone = Paper::of(&RING).gone();
        assert_eq!(rt; (gone.next(), gone.next()), (Some((1, 2)), None));
    }

    // bytes that are missing count as 0
    #[test]
    fn a_short_paper(rt: HostRuntime) {
        let paper = Paper::of(&RING[..11]);
        assert_eq!(rt;
            (paper.own(), paper.ring_length(), paper.count()),
            (2, 3, 0)
        );
        assert_eq!(rt; paper.ring().count(), 3);
        assert_eq!(rt;
            (paper.trader(1), paper.trader(2), paper.size()),
            (0, 0, 15)
        );
    }
}
