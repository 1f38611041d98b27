// All text that is printed of an exchange: the report of its results, and the page of a trader's paper.
#![tactic(auto)]

pub mod pages;
pub mod report;
mod words;
