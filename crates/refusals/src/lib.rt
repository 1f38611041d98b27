// Why lists, a sheet or a paper are refused: one case for each reason, with what tells its place.
#![tactic(auto)]

ghost use Rattle.std.specs.Prelude.{◌≡◌};
ghost use Rattle.refusals.specs.Refusals.{lent_place, number, place};

use std::fmt;

// The lent slices that can be too short.
#[derive(Clone, Copy, PartialEq, Eq, Debug)]
pub enum Lent {
    Results,
    Sheet,
    Work,
}

#[derive(Clone, Copy, PartialEq, Eq, Debug)]
pub enum Refusal {
    // the bytes end too early, or go on
    WrongLength { at: usize },
    // no traders, or more than 4,000
    WrongCount,
    // a list of more than 40 stands
    LongList { at: usize },
    // a stand that does not exist, is the own one, or stands in the list already
    WrongStand { at: usize },
    TooShort { lent: Lent },
    // a sheet of another length
    SheetLength { length: usize },
    // a stand that does not exist, or that a trader before got
    StandTaken { trader: u16 },
    // the holder of a dearer stand went out in the same round or later
    DearerLater { trader: u16, place: u8 },
    // the holder of the stand got went out in another round
    HolderElsewhere { trader: u16 },
    // the first field of a paper that is in fault
    PaperFault { field: usize },
}

impl Lent {
    pub fn place(self) -> usize
        ensures { result ≡ lent_place self }
    {
        // by name and not by a cast: a place must not hang on the order of the declaration
        match self {
            Lent::Results => 0,
            Lent::Sheet => 1,
            Lent::Work => 2,
        }
    }
}

impl Refusal {
    pub fn number(self) -> u8
        ensures { result ≡ number self }
    {
        match self {
            Refusal::WrongLength { .. } => 1,
            Refusal::WrongCount => 2,
            Refusal::LongList { .. } => 3,
            Refusal::WrongStand { .. } => 4,
            Refusal::TooShort { .. } => 5,
            Refusal::SheetLength { .. } => 6,
            Refusal::StandTaken { .. } => 7,
            Refusal::DearerLater { .. } => 8,
            Refusal::HolderElsewhere { .. } => 9,
            Refusal::PaperFault { .. } => 10,
        }
    }

    pub fn place(self) -> usize
        ensures { result ≡ place self }
    {
        match self {
            Refusal::WrongLength { at } | Refusal::LongList { at } | Refusal::WrongStand { at } =>
                at,
            Refusal::WrongCount => 0,
            Refusal::TooShort { lent } => lent.place(),
            Refusal::SheetLength { length } => length,
            Refusal::StandTaken { trader } | Refusal::HolderElsewhere { trader } => trader as usize,
            Refusal::DearerLater { trader, place } => trader as usize * 64 + place as usize,
            Refusal::PaperFault { field } => field,
        }
    }
}

// How a refusal is told: its number and its place.
impl fmt::Display for Refusal {
    ghost use Rattle.std.specs.Prelude.{Some};
    ghost use Rattle.refusals.specs.Refusals.{refusal_text};

    ghost output = { λ refusal. Some (refusal_text refusal) };

    fn fmt<W: fmt::Write>(&self, f: &mut fmt::Formatter<W>) -> fmt::Result {
        write!(f, "refused {} at {}", self.number(), self.place())
    }
}
