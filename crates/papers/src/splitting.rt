// Papers that stand one after another in a file.
ghost use Rattle.std.specs.Prelude.{◌≡◌, ◌+◌, ◌*◌, length, drop};
ghost use Rattle.papers.specs.Paper.{count_on, count_place};
ghost use Rattle.papers.specs.Papers.{paper_at};

use crate::paper::Paper;
use std::marker::Model;

// How many bytes the first paper has, as its own numbers say; bytes that are missing count as 0.
pub fn first_size(bytes: &[u8]) -> usize
    ensures { result ≡ count_place bytes.now + 1 + 4 * count_on bytes.now }
{
    Paper::of(bytes).size()
}

// The papers that are left in a file, one after another. They do not end: past the last byte come papers of no bytes.
#[derive(Drop)]
pub struct Papers<'a> {
    left: &'a [u8],
}

impl<'a> Model for Papers<'a> {
    ghost use Rattle.std.specs.Prelude.{ℕ, List};

    ghost Value = { List ℕ };

    ghost view = { λ papers. papers.left.now };
}

impl<'a> Papers<'a> {
    pub fn of(bytes: &'a [u8]) -> Papers<'a>
        ensures { result ≡ bytes.now }
    {
        Papers { left: bytes }
    }

    // The bytes that are left.
    pub fn left(&self) -> &'a [u8]
        ensures { result.now ≡ self.now }
    {
        self.left
    }

    // The next paper, as long as its own numbers say, and cut where the bytes end.
    #[tactic(auto, using(std::proofs::lemmas::List::take_min))]
    pub fn next_paper(&mut self) -> &'a [u8]
        ensures paper { result.now ≡ paper_at self.old 0 }
        ensures left { self.new ≡ drop (length result.now) self.old }
    {
        let size = first_size(self.left).min(self.left.len());
        let (paper, left) = self.left.split_at(size);
        self.left = left;
        paper
    }
}

impl<'a> Iterator for Papers<'a> {
    ghost use Rattle.papers.specs.Papers.{GivesPaper};

    type Item = &'a [u8];

    ghost next_gives = { GivesPaper };

    fn next(&mut self) -> Option<&'a [u8]> {
        Some(self.next_paper())
    }
}

#[cfg(test)]
mod tests {
    use super::Papers;

    // two papers of 15 and 13 bytes
    const TWO: [u8; 28] = [
        0, 0, 1, 0, 0, 0, 1, 0, 0, 0, 1, 1, 0, 0, 0, 1, 0, 0, 0, 2, 0, 2, 0, 1, 0, 2, 0, 0,
    ];

    #[test]
    fn one_after_another(rt: HostRuntime) {
        let mut papers = Papers::of(&TWO);
        assert_eq!(rt; papers.next_paper().len(), 15);
        assert_eq!(rt; papers.left().len(), 13);
        assert_eq!(rt; papers.next_paper().len(), 13);
        // past the last byte
        assert_eq!(rt; papers.next_paper().len(), 0);
        let mut sizes = 0usize;
        for (_, paper) in (0..4u16).zip(Papers::of(&TWO[..20])) {
            sizes = sizes.saturating_mul(100).saturating_add(paper.len());
        }
        assert_eq!(rt; sizes, 15_050_000);
    }
}
