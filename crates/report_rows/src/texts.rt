//! What no clause says: that the lines read as users were promised.

use report_core::{Facts, make_report};
use report_text::{GuestNote, guest_lines, host_lines};
use std::test::Fail;
use td_words::{LockName, Outcome, Reply, Status, Value};

#[test]
fn tells_replies_by_line(rt: HostRuntime) -> Result<(), Fail> {
    let replies = [
        Reply::Done(Value::Nothing),
        Reply::Done(Value::Number(18446744073709551615)),
        Reply::Refused(Status::OperandBusy(LockName::Page(9))),
        Reply::Done(Value::Digest([0xa5; 48])),
        Reply::Exited(Outcome::Vmcall(10)),
    ];
    let want = "7.1 SUCCESS\n7.2 SUCCESS 18446744073709551615\n7.3 OPERAND_BUSY P 9\n\
        7.4 SUCCESS a5a5a5a5a5a5a5a5a5a5a5a5a5a5a5a5a5a5a5a5a5a5a5a5a5a5a5a5a5a5a5a5\
        a5a5a5a5a5a5a5a5a5a5a5a5a5a5a5a5\n7.5 EXIT VMCALL 10\n";
    let lines = host_lines(rt.alloc(), 7, &replies)?;
    assert_eq!(rt; str::from_utf8(&lines)?, want);
    assert_eq!(rt; host_lines(rt.alloc(), 0, &[])?.len(), 0);
    Ok(())
}

#[test]
fn tells_notes_in_their_order(rt: HostRuntime) -> Result<(), Fail> {
    let mut digest = [0; 48];
    digest[0] = 0x01;
    digest[1] = 0xf0;
    digest[47] = 0xff;
    let notes = [
        GuestNote::Load {
            line: 12,
            gpa: 0x7ffffffffff8,
            word: 18446744073709551615,
        },
        GuestNote::Load {
            line: 12,
            gpa: 0,
            word: 0,
        },
        GuestNote::Rtmr {
            line: 4096,
            index: 3,
            digest,
        },
    ];
    let want = "0.12 load 0x7ffffffffff8 18446744073709551615\n0.12 load 0x0 0\n0.4096 rtmr 3 \
        01f000000000000000000000000000000000000000000000\
        0000000000000000000000000000000000000000000000ff\n";
    let lines = guest_lines(rt.alloc(), 0, &notes, &[], &[0; 48])?;
    assert_eq!(rt; str::from_utf8(&lines)?, want);
    assert_eq!(rt; guest_lines(rt.alloc(), 7, &[], &[], &[0; 48])?.len(), 0);
    Ok(())
}

#[test]
fn tells_the_reports_of_facts_that_are_kept(rt: HostRuntime) -> Result<(), Fail> {
    let key = [7; 48];
    let first = Facts {
        mrtd: [0x1a; 48],
        rtmr0: [2; 48],
        rtmr1: [3; 48],
        rtmr2: [4; 48],
        rtmr3: [5; 48],
        given: [6; 64],
    };
    let mut second = first;
    second.given[0] = 0xff;
    let notes = [
        GuestNote::Report { line: 12, place: 1 },
        GuestNote::Load {
            line: 12,
            gpa: 0,
            word: 7,
        },
        GuestNote::Report {
            line: 4294967295,
            place: 0,
        },
    ];
    let one = hex::encode(rt.alloc(), &make_report(&key, &first))?;
    let other = hex::encode(rt.alloc(), &make_report(&key, &second))?;
    let want = format!(in rt.alloc();
        "255.12 report {other}\n255.12 load 0x0 7\n255.4294967295 report {one}\n"
    )?;
    let lines = guest_lines(rt.alloc(), 255, &notes, &[first, second], &key)?;
    assert_eq!(rt; str::from_utf8(&lines)?, want.as_str());
    assert_eq!(rt; one.len(), 720);
    Ok(())
}
