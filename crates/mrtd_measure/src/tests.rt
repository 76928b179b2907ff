use crate::{Measure, rtmr_next};
use hex::ToHex;
use std::test::Fail;

#[test]
fn digests_are_those_of_another_program(rt: HostRuntime) -> Result<(), Fail> {
    let empty = Measure::new().finish();
    assert_eq!(rt;
        empty.encode_hex(rt.alloc())?.as_str(),
        "38b060a751ac96384cd9327eb1b1e36a21fdb71114be07434c0cc7bf63f6e1da274edebfe76f65fbd51ad2f14898b95b"
    );
    let mut built = Measure::new();
    built.add_page(0x1000);
    built.extend_chunk(0x1100, &[7; 256]);
    let other = built.copy();
    built.add_page(0x2000);
    assert_eq!(rt;
        other.finish().encode_hex(rt.alloc())?.as_str(),
        "06c6bf4132a7cff92569c3a3bbb6e1ace7ee4ffb781fe6a632f030c101ff8fdab40b6fc1db82131453bd062eb4dc857c"
    );
    let next = rtmr_next(&[0; 48], &[1; 48]);
    assert_eq!(rt;
        next.encode_hex(rt.alloc())?.as_str(),
        "b2cdfa15c3fdc5772b099d6e1a5acb8a2eb8b94adb63393a7ae3068c8b4bd8cdad83d6eb649d8178d0fe7a8135d0a003"
    );
    Ok(())
}
