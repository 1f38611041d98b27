// The words of the command line.
use console::{Ended, misused};
use std::env;

pub const USAGE: &str = "usage: check LISTS SHEET
       check --papers LISTS FILE

Checks a sheet, or the papers of all traders one after another, against the
lists of a year. A file named - is standard input.

  --papers  check papers in place of a sheet
  --help    print this text

Prints accepted, or the refusal's number and place; the status is then 1.
";

// The lists, and what is checked against them.
#[derive(Drop)]
pub struct Files {
    pub lists: String,
    pub checked: String,
}

#[derive(Drop)]
pub enum Command {
    Sheet(Files),
    Papers(Files),
}

// What there is to check; None where the usage was asked for, which is then printed.
pub(crate) fn read_options(rt: &HostRuntime) -> Result<Option<Command>, Ended> {
    let mut papers = false;
    let (mut first, mut second) = (None, None);
    let mut words = env::args(rt)?;
    let _program = words.next();
    for word in words {
        match word.as_str() {
            "--help" => {
                print!(rt; "{USAGE}")?;
                return Ok(None);
            }
            "--papers" => papers = true,
            _ if first.is_none() => first = Some(word),
            _ if second.is_none() => second = Some(word),
            _ => return misused(rt, USAGE),
        }
    }
    let (Some(lists), Some(checked)) = (first, second) else {
        return misused(rt, USAGE);
    };
    let files = Files { lists, checked };
    Ok(Some(if papers {
        Command::Papers(files)
    } else {
        Command::Sheet(files)
    }))
}
