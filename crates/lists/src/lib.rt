// The lists of a year: types over their bytes, the reader, and the laws of the format.
#![tactic(auto)]

pub mod bytes;
pub mod laws;
pub mod list;
mod reader;
pub mod reading;
pub mod stands;
pub mod year;
