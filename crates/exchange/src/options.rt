// The words of the command line.
use console::{Ended, misused};
use std::env;

pub const USAGE: &str = "usage: exchange [--sheet FILE] [--papers FILE] [--paper-bytes FILE] [LISTS]

Reads the lists of a year from the file LISTS, or from standard input where
none is named or it is -, does the exchange, and prints what everybody gets.

  --sheet FILE        also write the sheet, which anybody can check
  --papers FILE       also write a page to print for each trader
  --paper-bytes FILE  also write the papers of all traders, one after another
  --help              print this text

Lists that are refused print the refusal's number and place; the status is
then 1.
";

#[derive(Drop)]
pub struct Options {
    pub lists: Option<String>,
    pub sheet: Option<String>,
    pub pages: Option<String>,
    pub paper_bytes: Option<String>,
}

// The options; None where the usage was asked for, which is then printed.
pub(crate) fn read_options(rt: &HostRuntime) -> Result<Option<Options>, Ended> {
    let (mut lists, mut sheet, mut pages, mut paper_bytes) = (None, None, None, None);
    let mut words = env::args(rt)?;
    let _program = words.next();
    while let Some(word) = words.next() {
        let file = match word.as_str() {
            "--sheet" => &mut sheet,
            "--papers" => &mut pages,
            "--paper-bytes" => &mut paper_bytes,
            "--help" => {
                print!(rt; "{USAGE}")?;
                return Ok(None);
            }
            _ if lists.is_none() => {
                lists = Some(word);
                continue;
            }
            _ => return misused(rt, USAGE),
        };
        let Some(name) = words.next() else {
            return misused(rt, USAGE);
        };
        *file = Some(name);
    }
    Ok(Some(Options {
        lists,
        sheet,
        pages,
        paper_bytes,
    }))
}
