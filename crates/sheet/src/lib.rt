// The sheet: the public exchange that writes it, and the checker for anybody's sheet.
#![tactic(auto)]

pub mod accepted;
pub mod checking;
pub mod entries;
pub mod exchanging;
