// The program `check`: checks a sheet, or the papers of all traders, against the lists of a year.
#![tactic(auto)]

mod options;

use console::{Ended, MOST_LISTS, failed, read_input, refused};
use lists::reading::MOST_TRADERS;
use options::{Command, Files, read_options};
use papers::writing::MOST_PAPER;
use sheet::checking::check;

// The longest sheet that can be accepted; one byte more tells a file that is too long.
const MOST_SHEET: u64 = 4 * MOST_TRADERS as u64 + 1;

// As many papers as there can be, each the longest; and again one byte more.
const MOST_PAPERS: u64 = MOST_TRADERS as u64 * MOST_PAPER as u64 + 1;

// Reads a file, or tells why it cannot be read.
fn read_named(rt: &HostRuntime, name: &str, most: u64) -> Result<Vec<u8>, Ended> {
    read_input(rt, name, most).or_else(|e| failed(rt, "check", name, e))
}

fn check_sheet(rt: &HostRuntime, files: &Files) -> Result<(), Ended> {
    let lists = read_named(rt, &files.lists, MOST_LISTS)?;
    let sheet = read_named(rt, &files.checked, MOST_SHEET)?;
    check(&lists, &sheet).or_else(|refusal| refused(rt, &refusal))?;
    println!(rt; "accepted")?;
    Ok(())
}

fn check_papers(rt: &HostRuntime, files: &Files) -> Result<(), Ended> {
    let lists = read_named(rt, &files.lists, MOST_LISTS)?;
    let papers = read_named(rt, &files.checked, MOST_PAPERS)?;
    let n = agreement::check_papers(&lists, &papers).or_else(|fault| refused(rt, &fault))?;
    println!(rt; "accepted {n} papers")?;
    Ok(())
}

fn main(rt: HostRuntime) -> Result<(), Ended> {
    match read_options(&rt)? {
        Some(Command::Sheet(files)) => check_sheet(&rt, &files),
        Some(Command::Papers(files)) => check_papers(&rt, &files),
        None => Ok(()),
    }
}
