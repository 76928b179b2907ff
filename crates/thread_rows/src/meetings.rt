//! Two processors that wait for each other.

use bundle_store::{MemFiles, MemSink, NamedFile};
use leaf_engine::Gate;
use script_runner::tdx_main;
use std::alloc::Global;
use std::process::Abort;
use std::sync::atomic::{AtomicU64, Ordering};
use std::test::Fail;
use std::thread::Threads;

// How often a processor looks for the other one, at most. That takes seconds, and a thread starts in far
// less.
const MOST_LOOKS: u64 = 1_000_000_000;

// Looks until the places that have been come to are those, and counts that they are.
fn wait(come: &AtomicU64, places: u64, met: &AtomicU64) {
    for _ in 0..MOST_LOOKS {
        if come.load(Ordering::SeqCst) & places == places {
            met.fetch_add(1, Ordering::SeqCst);
            return;
        }
    }
}

// Runs a script under a gate, and compares its replies.
fn runs<R: Abort + Threads + Sync, G: Gate + Sync>(
    rt: &R,
    alloc: Global,
    script: &str,
    replies: &str,
    gate: &G,
) -> Result<(), Fail> {
    let mut words = Vec::new(alloc);
    for word in ["run", "s"] {
        words.push(String::from_str(alloc, word)?)?;
    }
    let mut files = Vec::new(alloc);
    files.push(NamedFile {
        name: String::from_str(alloc, "s")?,
        bytes: script.as_bytes().to_vec(alloc)?,
    })?;
    let mut files = MemFiles::new(alloc, files, Vec::new(alloc));
    let mut out = MemSink::new(alloc, Vec::new(alloc));
    let status = tdx_main(rt, alloc, &words, &mut files, &mut out, gate);
    assert_eq!(rt; status, 0);
    assert_eq!(rt; out.bytes.as_slice(), replies.as_bytes());
    Ok(())
}

// Processor 0 waits before its first event until processor 1 has made three, its first call; and that
// waits before its fourth until processor 0 has made three. The bits of those that have come are 1 and 2.
#[derive(Drop)]
struct HandOver {
    come: AtomicU64,
    met: AtomicU64,
}

impl Gate for HandOver {
    fn pass(&self, lp: u8, event: u64) {
        match (lp, event) {
            (0, 0) => wait(&self.come, 2, &self.met),
            (0, 3) => {
                self.come.fetch_or(1, Ordering::SeqCst);
            }
            (1, 3) => {
                self.come.fetch_or(2, Ordering::SeqCst);
                wait(&self.come, 1, &self.met);
            }
            _ => {}
        }
    }
}

// Each call makes three events.
const ONE_WORD: &str = "machine 2 8 1\n\
    lp 0\nHOST.WRITE 5 0 7\nHOST.READ 5 0\nend\n\
    lp 1\nHOST.READ 5 0\nHOST.READ 5 0\nend\n";

const BEFORE_AND_BEHIND: &str = "0.1 SUCCESS\n0.2 SUCCESS 7\n1.1 SUCCESS 0\n1.2 SUCCESS 7\n";

#[test]
fn two_processors_meet(rt: HostRuntime) -> Result<(), Fail> {
    let gate = HandOver {
        come: AtomicU64::new(0),
        met: AtomicU64::new(0),
    };
    runs(&rt, rt.alloc(), ONE_WORD, BEFORE_AND_BEHIND, &gate)?;
    let met = gate.met.load(Ordering::SeqCst);
    assert_eq!(rt; met, 2, "those that found the other at its place");
    Ok(())
}

// Each of two processors has a place: before its turn behind so many events. A processor that comes to its
// place waits there until the other one has come to its own. The bits of those that have come are 1 and 2.
#[derive(Drop)]
struct Meeting {
    first: u64,
    second: u64,
    come: AtomicU64,
    met: AtomicU64,
}

impl Gate for Meeting {
    fn pass(&self, lp: u8, event: u64) {
        if lp == 0 && event == self.first {
            self.come.fetch_or(1, Ordering::SeqCst);
            wait(&self.come, 2, &self.met);
        }
        if lp == 1 && event == self.second {
            self.come.fetch_or(2, Ordering::SeqCst);
            wait(&self.come, 1, &self.met);
        }
    }
}

// Each processor makes six events: a try, the act and the release, for each of its calls.
const TWO_WORDS: &str = "machine 2 8 1\n\
    lp 0\nHOST.WRITE 5 0 7\nHOST.READ 5 0\nend\n\
    lp 1\nHOST.WRITE 6 0 8\nHOST.READ 6 0\nend\n";

const EACH_ITS_OWN: &str = "0.1 SUCCESS\n0.2 SUCCESS 7\n1.1 SUCCESS\n1.2 SUCCESS 8\n";

// The places of both, from before the first event to behind the last one.
const PLACES: &[(u64, u64)] = &[(0, 0), (0, 6), (6, 0), (1, 4), (5, 2), (6, 6)];

#[test]
fn two_processors_wait_at_any_places(rt: HostRuntime) -> Result<(), Fail> {
    for (first, second) in PLACES {
        let gate = Meeting {
            first: *first,
            second: *second,
            come: AtomicU64::new(0),
            met: AtomicU64::new(0),
        };
        runs(&rt, rt.alloc(), TWO_WORDS, EACH_ITS_OWN, &gate)?;
        let met = gate.met.load(Ordering::SeqCst);
        assert_eq!(rt; met, 2, "those that met at {first} and {second}");
    }
    Ok(())
}
