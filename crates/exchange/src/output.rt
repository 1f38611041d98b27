// Files that the program writes.
use console::{Ended, failed};
use std::fs;

// Writes a file beside the one named and then gives it that name, so that no half-written file ever has it.
pub(crate) fn write_whole(rt: &HostRuntime, name: &str, bytes: &[u8]) -> Result<(), Ended> {
    let beside = format!(in rt.alloc(); "{name}.part")?;
    fs::write(rt, &beside, bytes)
        .and_then(|()| fs::rename(rt, &beside, name))
        .or_else(|e| {
            let _ = fs::remove_file(rt, &beside);
            failed(rt, "exchange", name, e)
        })
}
