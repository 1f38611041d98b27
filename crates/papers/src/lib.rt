// A trader's paper: it shows the ring, and that nobody passed the trader over, to whoever has that trader's list.
#![tactic(auto)]

pub mod checking;
mod list;
pub mod paper;
pub mod splitting;
pub mod theorems;
mod writer;
pub mod writing;
