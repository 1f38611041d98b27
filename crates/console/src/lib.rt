// What the programs share: bounded input, and how a program ends that did not do its work.
#![tactic(auto)]

ghost use Rattle.std.specs.Prelude.{◌≡◌, ◌≤◌, Err, IfOk, IsErr, vec_len};
ghost use Rattle.console.specs.declared.Ended.TheVariants.{Failed};

use lists::reading::MOST_BYTES;
use std::alloc::AllocError;
use std::io::Read;
use std::{fmt, fs, io};

// The longest lists that can be accepted; one byte more tells a file that is too long.
pub const MOST_LISTS: u64 = MOST_BYTES as u64 + 1;

// Why a program ends with status 1. What there is to say of a refusal or a file was printed; of want of memory nothing is.
#[derive(Clone, Copy, Debug)]
pub enum Ended {
    Refused,
    Failed,
}

impl From<AllocError> for Ended {
    ghost use Rattle.console.specs.declared.Ended.TheVariants.{Failed};

    ghost from_gives = { λ _ ended. ended ≡ Failed };

    fn from(_e: AllocError) -> Ended {
        Ended::Failed
    }
}

impl From<io::Error> for Ended {
    ghost use Rattle.console.specs.declared.Ended.TheVariants.{Failed};

    ghost from_gives = { λ _ ended. ended ≡ Failed };

    fn from(_e: io::Error) -> Ended {
        Ended::Failed
    }
}

// The first `most` bytes of the file with that name, or of standard input where the name is "-".
pub fn read_input(rt: &HostRuntime, name: &str, most: u64) -> io::Result<Vec<u8>>
    ensures { IfOk result (λ bytes. vec_len bytes ≤ most) }
{
    let mut bytes = Vec::new(rt.alloc());
    if name == "-" {
        rt.stdin().take(most).read_to_end(&mut bytes)?;
    } else {
        fs::open(rt, name)?.take(most).read_to_end(&mut bytes)?;
    }
    bytes.truncate(most as usize);
    Ok(bytes)
}

// Tells why a program's work was refused, on standard output.
pub fn refused<T>(rt: &HostRuntime, why: &impl fmt::Display) -> Result<T, Ended>
    ensures { IsErr result }
{
    println!(rt; "{why}")?;
    Err(Ended::Refused)
}

// Tells why a program cannot read or write a file, on standard error.
pub fn failed<T>(rt: &HostRuntime, program: &str, name: &str, e: io::Error) -> Result<T, Ended>
    ensures { result ≡ Err Failed }
{
    eprintln!(rt; "{program}: {name}: {e}")?;
    Err(Ended::Failed)
}

// Tells how a program is used, on standard error, where its words say nothing that it can do.
pub fn misused<T>(rt: &HostRuntime, usage: &str) -> Result<T, Ended>
    ensures { result ≡ Err Failed }
{
    eprint!(rt; "{usage}")?;
    Err(Ended::Failed)
}
