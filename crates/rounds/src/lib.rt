// The exchange as code, round by round.
#![tactic(auto)]

pub mod running;
