//! The scripts, line by line.

ghost use Rattle.std.specs.Prelude.{◌≡◌, ◌≤◌, ◌+◌, ◌++◌, ◌∷◌, [], ℕ, IfOk, OnOk};
ghost use Rattle.soak_scripts.specs.Soak.{page_word, summed, guest_list, add_lines, export_lines, import_lines, source_lines, destination_lines, source_script, destination_script, soak_of};

use script_text::Script;
use std::alloc::Global;
use td_words::{Call, Code, GuestOp, Machine, OutOfMemory};

// A TD is created, and has its control pages.
const CREATE: [Call; 4] = [
    Call::MngCreate { tdr: 1, hkid: 1 },
    Call::MngKeyConfig { tdr: 1 },
    Call::MngAddcx { tdr: 1, page: 2 },
    Call::MngAddcx { tdr: 1, page: 3 },
];

const STREAMS: [Call; 2] = [
    Call::MigStreamCreate { tdr: 1, page: 5 },
    Call::MigStreamCreate { tdr: 1, page: 6 },
];

const TREE: [Call; 3] = [
    Call::MemSeptAdd {
        tdr: 1,
        gpa: 0,
        level: 3,
        page: 9,
    },
    Call::MemSeptAdd {
        tdr: 1,
        gpa: 0,
        level: 2,
        page: 10,
    },
    Call::MemSeptAdd {
        tdr: 1,
        gpa: 0,
        level: 1,
        page: 11,
    },
];

// How many pages the guest sums.
fn pages_summed(pages: u16) -> u16
    ensures { result ≡ summed pages }
{
    if pages <= 100 { pages } else { 100 }
}

// The first word of the page behind one that has this word.
fn next_word(word: u64) -> u64
    ensures { (n i : ℕ) → word ≡ page_word n i → result ≡ page_word n (i + 1) }
{
    word.wrapping_mul(6_364_136_223_846_793_005)
        .wrapping_add(1_442_695_040_888_963_407)
}

// More calls, behind those that are there.
fn add(calls: &mut Vec<Call>, more: &[Call]) -> Result<(), OutOfMemory>
    ensures { OnOk result (calls.new.items ≡ calls.old.items ++ more.now) }
{
    match calls.extend_from_slice(more) {
        Ok(()) => Ok(()),
        Err(_) => Err(OutOfMemory),
    }
}

// So many pages are added.
fn add_pages(calls: &mut Vec<Call>, pages: u16) -> Result<(), OutOfMemory>
    requires { pages ≤ 512 }
    ensures { OnOk result (calls.new.items ≡ calls.old.items ++ add_lines pages pages) }
{
    let mut word = u64::from(pages);
    for page in 0..u64::from(pages) {
        add(
            calls,
            &[
                Call::HostWrite {
                    page: 0,
                    word: 0,
                    value: word,
                },
                Call::MemPageAdd {
                    tdr: 1,
                    gpa: 4096 * page,
                    page: 12 + page,
                    source: 0,
                },
            ],
        )?;
        word = next_word(word);
    }
    Ok(())
}

// So many are exported, on both streams in turn.
fn export_pages(calls: &mut Vec<Call>, pages: u16) -> Result<(), OutOfMemory>
    requires { pages ≤ 512 }
    ensures { OnOk result (calls.new.items ≡ calls.old.items ++ export_lines pages) }
{
    for page in 0..pages {
        add(
            calls,
            &[Call::ExportMem {
                tdr: 1,
                gpa: 4096 * u64::from(page),
                stream: u64::from(page % 2),
                slot: page + 1,
            }],
        )?;
    }
    Ok(())
}

// So many are imported.
fn import_pages(calls: &mut Vec<Call>, pages: u16) -> Result<(), OutOfMemory>
    requires { pages ≤ 512 }
    ensures { OnOk result (calls.new.items ≡ calls.old.items ++ import_lines pages) }
{
    for page in 0..u64::from(pages) {
        add(
            calls,
            &[Call::ImportMem {
                tdr: 1,
                slot: page + 1,
                page: 12 + page,
            }],
        )?;
    }
    Ok(())
}

// The guest's list.
fn guest_code(alloc: Global, pages: u16) -> Result<Code, OutOfMemory>
    ensures { IfOk result (λ c. c ≡ guest_list pages) }
{
    let mut ops = Vec::new(alloc);
    for page in 0..u64::from(pages_summed(pages)) {
        let Ok(()) = ops.extend_from_slice(&[
            GuestOp::Load {
                register: 1,
                gpa: 4096 * page,
            },
            GuestOp::Add {
                register: 0,
                other: 1,
            },
        ]) else {
            return Err(OutOfMemory);
        };
    }
    let Ok(()) = ops.push(GuestOp::Vmcall { register: 0 }) else {
        return Err(OutOfMemory);
    };
    Ok(Code {
        tdr: 1,
        index: 0,
        ops,
    })
}

// A script of one processor with these calls.
fn script_of(alloc: Global, pages: u16, lines: Vec<Call>) -> Result<Script, OutOfMemory>
    ensures { IfOk result (λ s. s ≡ soak_of pages lines.items) }
{
    let mut codes = Vec::new(alloc);
    let Ok(()) = codes.push(guest_code(alloc, pages)?) else {
        return Err(OutOfMemory);
    };
    let mut calls = Vec::new(alloc);
    let Ok(()) = calls.push(lines) else {
        return Err(OutOfMemory);
    };
    Ok(Script {
        machine: Machine {
            lps: 1,
            pages: 1024,
            hkids: 1,
        },
        schedule: Vec::new(alloc),
        codes,
        calls,
    })
}

/// The script that builds a TD of so many pages, at most 512, and exports it.
pub fn source(alloc: Global, pages: u16) -> Result<Script, OutOfMemory>
    requires { pages ≤ 512 }
    ensures { IfOk result (λ s. s ≡ source_script pages) }
{
    let mut calls = Vec::new(alloc);
    add(&mut calls, &CREATE)?;
    add(
        &mut calls,
        &[
            Call::MngInit { tdr: 1 },
            Call::VpCreate { tdr: 1, page: 4 },
            Call::VpInit {
                tdr: 1,
                vp: 4,
                value: 0,
            },
        ],
    )?;
    add(&mut calls, &TREE)?;
    add_pages(&mut calls, pages)?;
    add(&mut calls, &[Call::MrFinalize { tdr: 1 }])?;
    add(&mut calls, &STREAMS)?;
    add(
        &mut calls,
        &[
            Call::VpEnter {
                tdr: 1,
                vp: 4,
                max: u64::from(pages_summed(pages)),
            },
            Call::ExportStateImmutable { tdr: 1, slot: 0 },
            Call::ExportPause { tdr: 1 },
        ],
    )?;
    export_pages(&mut calls, pages)?;
    add(
        &mut calls,
        &[
            Call::ExportStateTd {
                tdr: 1,
                slot: pages + 1,
            },
            Call::ExportStateVp {
                tdr: 1,
                vp: 4,
                slot: pages + 2,
            },
            Call::ExportTrack {
                tdr: 1,
                slot: pages + 3,
                start: 1,
            },
        ],
    )?;
    script_of(alloc, pages, calls)
}

/// The script that imports it.
pub fn destination(alloc: Global, pages: u16) -> Result<Script, OutOfMemory>
    requires { pages ≤ 512 }
    ensures { IfOk result (λ s. s ≡ destination_script pages) }
{
    let mut calls = Vec::new(alloc);
    add(&mut calls, &CREATE)?;
    add(&mut calls, &STREAMS)?;
    add(
        &mut calls,
        &[
            Call::ImportStateImmutable { tdr: 1, slot: 0 },
            Call::VpCreate { tdr: 1, page: 4 },
        ],
    )?;
    add(&mut calls, &TREE)?;
    import_pages(&mut calls, pages)?;
    let last = u64::from(pages);
    add(
        &mut calls,
        &[
            Call::ImportStateTd {
                tdr: 1,
                slot: last + 1,
            },
            Call::ImportStateVp {
                tdr: 1,
                vp: 4,
                slot: last + 2,
            },
            Call::ImportTrack {
                tdr: 1,
                slot: last + 3,
            },
            Call::ImportCommit { tdr: 1 },
            Call::VpEnter {
                tdr: 1,
                vp: 4,
                max: 65535,
            },
            Call::ImportEnd { tdr: 1 },
        ],
    )?;
    script_of(alloc, pages, calls)
}
