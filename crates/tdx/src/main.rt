//! `tdx`: runs scripts of calls on the modelled TDX module.
#![tactic(auto)]

use bundle_store::{DiskFiles, StdSink};
use leaf_engine::NoGate;
use script_runner::{give_up, tdx_main};
use std::alloc::AllocError;
use std::env;
use std::io::ErrorKind;
use std::process::ExitCode;

// The words behind the program's name. Arguments that aren't text are no command, as if there were
// none.
fn command(rt: &HostRuntime) -> Result<Vec<String>, AllocError> {
    let mut words = Vec::new(rt.alloc());
    match env::args(rt) {
        Ok(given) => {
            for word in given.skip(1) {
                words.push(word)?;
            }
            Ok(words)
        }
        Err(error) => {
            if error.kind() == ErrorKind::OutOfMemory {
                return Err(AllocError);
            }
            Ok(words)
        }
    }
}

fn main(rt: HostRuntime) -> ExitCode {
    let mut files = DiskFiles::new(&rt);
    let mut out = StdSink::new(&rt);
    ExitCode::from(match command(&rt) {
        Ok(words) => tdx_main(&rt, rt.alloc(), &words, &mut files, &mut out, &NoGate),
        Err(_) => give_up(&mut out),
    })
}
