//! A source that goes on by the token of its destination, where its files or its output fail.

use crate::sources::{RESUMER, given_up};
use row_replay::{Beside, End, Told, replay_ends};
use std::test::Fail;

const LINE: &str = "replay s --bundles c --keys k --secrets z --out-bundles b --guest-out g";

// The script, the container, the keys and the secrets are loaded, in this order; the replies are put; and
// then the container and the guest file are saved.
const ENDS: &[End<'static>] = &[
    (LINE, &[0], &[], 3, Told::Alone("cannot read s\n"), ""),
    (LINE, &[1], &[], 3, Told::Alone("cannot read c\n"), ""),
    (LINE, &[2], &[], 3, Told::Alone("cannot read k\n"), ""),
    (LINE, &[3], &[], 3, Told::Alone("cannot read z\n"), ""),
    (LINE, &[4], &[], 4, Told::Behind("cannot write b\n"), ""),
    (LINE, &[5], &[], 4, Told::Behind("cannot write g\n"), "b"),
    (LINE, &[], &[0], 4, Told::Alone(""), ""),
    // There is no further call.
    (LINE, &[6], &[1], 0, Told::Behind(""), "b g"),
    // The text of a status that isn't put changes nothing.
    (LINE, &[1], &[0], 3, Told::Alone(""), ""),
    (LINE, &[5], &[1], 4, Told::Behind(""), "b"),
    // The first fault counts.
    (LINE, &[2, 3], &[], 3, Told::Alone("cannot read k\n"), ""),
    (LINE, &[4, 5], &[], 4, Told::Behind("cannot write b\n"), ""),
    (LINE, &[4, 5], &[0], 4, Told::Alone(""), ""),
];

#[test]
fn a_source_ends_where_its_outside_fails(rt: HostRuntime) -> Result<(), Fail> {
    let alloc = rt.alloc();
    let container = given_up(&rt, alloc)?;
    let beside = Beside {
        secrets: Some(&[]),
        bundles: Some(&container),
    };
    replay_ends(&rt, alloc, beside, &RESUMER, ENDS)
}
