//! `tdx-view`: shows the events of a script's run, and the bundles of a container.
#![tactic(auto)]

use bundle_store::{DiskFiles, StdSink};
use std::alloc::AllocError;
use std::env;
use std::io::ErrorKind;
use std::process::ExitCode;
use view_runner::{give_up, view_main};

// The words behind the program's name, as tdx takes them.
fn command(rt: &HostRuntime) -> Result<Vec<String>, AllocError> {
    let mut words = Vec::new(rt.alloc());
    let given = match env::args(rt) {
        Ok(given) => given,
        Err(error) if error.kind() == ErrorKind::OutOfMemory => return Err(AllocError),
        Err(_) => return Ok(words),
    };
    for word in given.skip(1) {
        words.push(word)?;
    }
    Ok(words)
}

fn main(rt: HostRuntime) -> ExitCode {
    let mut files = DiskFiles::new(&rt);
    let mut out = StdSink::new(&rt);
    ExitCode::from(match command(&rt) {
        Ok(words) => view_main(rt.alloc(), &words, &mut files, &mut out),
        Err(_) => give_up(&mut out),
    })
}
