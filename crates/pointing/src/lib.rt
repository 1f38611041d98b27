// What a trader who is in points to: the dearest listed stand whose holder is in, or the own one.
#![tactic(auto)]

ghost use Rattle.std.specs.Prelude.{◌≡◌};
ghost use Rattle.lists.specs.Format.{numbers};
ghost use Rattle.pointing.specs.Pointing.{holder_in, points_from, stand_of, FirstIsPointedTo};

use lists::stands::Stands;

// the mark of a trader who is in: a number, since it stands in a lent slice
const IN: u16 = 1;

#[derive(Clone, Copy, PartialEq, Eq, Debug)]
pub enum Pointing {
    // a stand of the list, with its place in it, from 0
    Listed { place: usize, stand: u16 },
    // the own stand: no holder of a listed one is in
    Own,
}

impl Pointing {
    // The stand pointed to by the trader who holds stand `own`.
    pub fn stand(self, own: u16) -> u16
        ensures { result ≡ stand_of own self }
    {
        match self {
            Pointing::Listed { stand, .. } => stand,
            Pointing::Own => own,
        }
    }
}

// The holder of a stand is in. Nobody holds a stand past the last trader's.
fn holder_in(inside: &[u16], stand: u16) -> bool
    ensures { result ≡ holder_in inside.now stand }
{
    inside.get(stand as usize) == Some(&IN)
}

// What the trader with these bytes of a list points to. `inside` has 1 for each trader who is in.
#[tactic(auto, unfolding(crate::specs::Pointing::points_from))]
pub fn point_to(list: &[u8], inside: &[u16]) -> Pointing
    ensures { result ≡ points_from inside.now (numbers list.now) 0 }
{
    for (place, stand) in Stands::of(list).enumerate() {
        if holder_in(inside, stand) {
            return Pointing::Listed { place, stand };
        }
    }
    Pointing::Own
}

// The stand pointed to is the exchange's, and its place is that of the first listed stand whose holder is in.
pub fn first_is_pointed_to()
    ensures { FirstIsPointedTo }
{}

#[cfg(test)]
mod tests {
    use super::*;

    // stands 3, 258 and 1
    const LIST: [u8; 6] = [3, 0, 2, 1, 1, 0];

    #[test]
    fn the_dearest_left_is_pointed_to(rt: HostRuntime) {
        assert_eq!(rt;
            point_to(&LIST, &[1, 1, 1, 1]),
            Pointing::Listed { place: 0, stand: 3 }
        );
        assert_eq!(rt;
            point_to(&LIST, &[1, 1, 1, 0]),
            Pointing::Listed { place: 2, stand: 1 }
        );
        assert_eq!(rt; point_to(&LIST, &[1, 1, 1, 0]).stand(0), 1);
    }

    #[test]
    fn the_own_one_where_none_is_left(rt: HostRuntime) {
        assert_eq!(rt; point_to(&LIST, &[1, 0, 1, 0]), Pointing::Own);
        assert_eq!(rt; point_to(&LIST, &[1, 0, 1, 0]).stand(2), 2);
        assert_eq!(rt; point_to(&[], &[1, 1]), Pointing::Own);
    }
}
