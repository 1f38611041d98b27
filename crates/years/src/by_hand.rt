// The years that were worked out by hand.

pub struct Worked {
    pub lists: &'static [&'static [u16]],
    pub results: &'static [u16],
    pub rounds: u16,
}

pub const TABLE: [Worked; 7] = [
    // all three get their first
    Worked {
        lists: &[&[1, 2], &[2, 0], &[0, 1]],
        results: &[1, 2, 0],
        rounds: 1,
    },
    // 0 and 1 swap, and 2 has nobody left
    Worked {
        lists: &[&[1], &[0], &[0, 1]],
        results: &[1, 0, 2],
        rounds: 2,
    },
    // nobody lists anything
    Worked {
        lists: &[&[], &[]],
        results: &[0, 1],
        rounds: 1,
    },
    // 1 and 2 swap, and 0 has nobody left
    Worked {
        lists: &[&[1], &[2], &[1, 0]],
        results: &[0, 2, 1],
        rounds: 2,
    },
    // 0 leads to a ring of three
    Worked {
        lists: &[&[1], &[2], &[3], &[1]],
        results: &[0, 2, 3, 1],
        rounds: 2,
    },
    // 1 and 2 swap, then 0 goes, and then 3
    Worked {
        lists: &[&[2, 1], &[2], &[1, 3], &[0, 2]],
        results: &[0, 2, 1, 3],
        rounds: 3,
    },
    // a trader alone
    Worked {
        lists: &[&[]],
        results: &[0],
        rounds: 1,
    },
];
