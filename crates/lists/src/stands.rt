// The stands of a list, read one after another from a part of the bytes.
ghost use Rattle.std.specs.Prelude.{◌≡◌};

// The stands that are left, the dearest first: two bytes each, low byte first. A last byte by itself is no stand.
#[derive(Clone, Copy, Debug)]
pub struct Stands<'a> {
    bytes: &'a [u8],
}

impl<'a> Stands<'a> {
    pub fn of(bytes: &'a [u8]) -> Stands<'a>
        ensures { result.bytes.now ≡ bytes.now }
    {
        Stands { bytes }
    }
}

impl<'a> Iterator for Stands<'a> {
    ghost use Rattle.std.specs.Iterator.{YieldsFirst, item_count};
    ghost use Rattle.lists.specs.Format.{numbers};

    type Item = u16;

    ghost next_gives = { YieldsFirst (λ left. numbers left.bytes.now) };

    ghost remaining = { item_count (λ left. numbers left.bytes.now) };

    #[tactic(auto, using(crate::proofs::Positions::numbers_none, crate::proofs::Positions::numbers_more, crate::proofs::Positions::numbers_fewer))]
    fn next(&mut self) -> Option<u16> {
        let [low, high, rest @ ..] = self.bytes else {
            return None;
        };
        self.bytes = rest;
        Some(u16::from_le_bytes([*low, *high]))
    }
}
