//! What guests measure.

use row_replay::{RUNS, Row, SECOND, TREE, replay_rows};
use std::test::Fail;

const ROWS: &[Row<'static>] = &[
    // An RTMR is SHA-384 of its 48 bytes and of six registers; the two that follow don't count.
    (
        "",
        &["1 0 | set 7 9 | set 6 9 | rtmr 0 | set 5 1 | rtmr 0 | rtmr 3"],
        &[&[TREE, RUNS, "EXIT STOP | VP.ENTER 1 4 9"]],
        "0.12 rtmr 0 f57bb7ed82c6ae4a29e6c9879338c592c7d42\
                    a39135583e8ccbe3940f2344b0eb6eb8503db0ffd6a39ddd00cd07d8317 \
                    | 0.12 rtmr 0 49995b706c1dcdbdfe150078b7c4509db1\
                    fe6f8ba190691f8970a44fd5b92e1d0570214a4cb332996812e2b18977fa47 \
                    | 0.12 rtmr 3 8e4b2d6879da5d992be9f53148284db525\
                    80c432d752bc018f607bfeeb078d4131700315d89120cc30c69697d94029cb",
    ),
    // Two VCPUs extend RTMRs at once.
    (
        "0*89 1*6 0 1*5 0*2",
        &["1 0 | rtmr 1", "1 1 | rtmr 2"],
        &[
            &[TREE, SECOND, RUNS, "EXIT STOP | VP.ENTER 1 4 9"],
            &["EXIT BUSY R | VP.ENTER 1 9 9", "EXIT STOP | VP.ENTER 1 9 9"],
        ],
        "0.14 rtmr 1 f57bb7ed82c6ae4a29e6c9879338c592c7d42\
                    a39135583e8ccbe3940f2344b0eb6eb8503db0ffd6a39ddd00cd07d8317 \
                    | 1.2 rtmr 2 f57bb7ed82c6ae4a29e6c9879338c592c7d\
                    42a39135583e8ccbe3940f2344b0eb6eb8503db0ffd6a39ddd00cd07d8317",
    ),
];

#[test]
fn an_rtmr_is_a_digest_of_what_came(rt: HostRuntime) -> Result<(), Fail> {
    replay_rows(&rt, rt.alloc(), ROWS)
}
