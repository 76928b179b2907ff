//! What no clause says: that the grammar means what its users were promised.

use line_words::{CallName, mnemonic_at};
use script_text::{ScriptFault, needs_keys, read_script, slot_place};
use std::alloc::Global;
use std::process::Abort;
use std::test::Fail;

/// The line and the reason of a bad script; of a good one processor 0's first call, if any, else the
/// first list's first operation, if any.
fn answer(alloc: Global, bytes: &[u8]) -> Result<String, Fail> {
    match read_script(alloc, bytes) {
        Ok(script) => match script.calls.first().and_then(|calls| calls.first()) {
            Some(call) => Ok(format!(in alloc; "{call:?}")?),
            None => match script.codes.first().and_then(|list| list.ops.first()) {
                Some(op) => Ok(format!(in alloc; "{op:?}")?),
                None => Ok(format!(in alloc; "good")?),
            },
        },
        Err(ScriptFault::Bad { line, reason }) => Ok(format!(in alloc; "{line} {reason}")?),
        Err(ScriptFault::OutOfMemory) => Ok(format!(in alloc; "out of memory")?),
    }
}

// Each row: an answer, and behind bars what has it.
const WHOLE_SCRIPTS: &[&str] = &[
    "good | machine 1 8 1\n | machine 2 8 1\n | machine 8 8 1\n |   machine  0x1 0x400   15 \n",
    "good | machine 2 8 1\nlp 1\nend\n | machine 2 8 1\nlp 1\nend\nlp 0\nend\n",
    "good | machine 2 8 1\nschedule 1 0*3 1\n | machine 1 8 1\n#~ \n",
    "1 UNTERMINATED | \x07 | machine 2 8 1",
    "3 UNTERMINATED | machine 1 8 1\nlp 0\nHOST.RE | machine 1 8 1\nlp 0\n#",
    "4 ENDLESS | machine 1 8 1\nlp 0\nHOST.READ 0 0\n | machine 1 8 1\ncode 0 0\nset 0 0\n",
    "3 UNTERMINATED | machine 1 8 1\ncode 0 0\nset 0 0 | machine 1 8 1\ncode 0 0\nend",
    "good | machine 1 1024 1\ncode 1023 7\nend\ncode 1023 6\nend\ncode 1022 7\nend\n",
    "2 RANGE | machine 1 1024 1\ncode 1024 0\nend\n | machine 1 1023 1\ncode 1023 0\nend\n",
    "4 REPEATED | machine 1 1024 1\ncode 1023 7\nend\ncode 1023 7\nend\n",
    "1 BYTE | lp\t0\n | machine 1 8 1\r\n",
    "2 BYTE | machine 1 8 1\n#\x7f\n | machine 1 8 1\n\x1f\n",
    "1 MACHINE |  | end\n | Machine 1 8 1\n | schedule 0\n",
    "2 MACHINE | machine 1 8 1\nmachine 1\n",
    "3 MACHINE | \n# a\n | machine 1 8 1\nlp 0\nmachine x 8 1\n",
    "1 COUNT | machine 9 x\n | machine 1 8 1 1\n",
    "1 NUMBER | machine 0 x 1\n",
    "1 RANGE | machine 0 8 1\n | machine 9 8 1\n | machine 2 7 1\n | machine 1 7 1\n",
    "1 RANGE | machine 1 1025 15\n | machine 1 1024 16\n | machine 1 8 0\n",
    "2 RANGE | machine 2 8 1\nlp 2\n | machine 2 8 1\nschedule 0 2\n",
    "4 REPEATED | machine 2 8 1\nlp 1\nend\nlp 1\n",
    "6 SLOT | machine 2 8 1\nlp 1\nEXPORT.TRACK 1 5 0\nend\nlp 0\nEXPORT.STATE.TD 1 0x5\nend\n",
    "6 SLOT | machine 2 8 1\nlp 1\nEXPORT.TRACK 1 5 0\nend\nlp 0\nIMPORT.ABORT 1 5\nend\n",
];

const ON_ONE_PROCESSOR: &[&str] = &[
    "good | schedule 0x0*0x2 00*02 |   schedule   0 0 0 0 0 0   0*0x00100 ",
    "good | schedule 0*1048575\nschedule 0 | lp 0\nend\nschedule 0",
    "2 PLACE | end 1",
    "2 WORD | HOST.READ 1 | set 0 0 | secret 0 0 | codes 1 0 | CODE 1 0",
    "good | code 7 7\nend | code 0 0\nend\nlp 0\nend\ncode 0 1\nend\ncode 1 0\nend\nschedule 0",
    "2 COUNT | lp 1 1 | schedule | code | code 1 | code x | code 8 0 0 | code 1 0 set 0 0 end",
    "2 NUMBER | code x 0 | code 9 x | code 1 -1 | code 1, 0",
    "2 RANGE | code 8 0 | code 0 8 | code 18446744073709551615 0 | code 8 8 | code 0 9",
    "4 REPEATED | code 1 0\nend\ncode 0x1 00 | code 7 7\nend\ncode 7 7",
    "6 REPEATED | code 1 0\nend\ncode 0 7\nend\ncode 1 0",
    "2 NUMBER | lp x | schedule # | schedule 0**2 | schedule 0* | schedule *0 | schedule 1*2*3",
    "2 NUMBER | schedule 9 0*0 0*1048576 0 x | schedule 0 1 x | schedule 0*1048576 0 x | schedule 0 #",
    "2 RANGE | lp 1 | schedule 1 | schedule 9 | schedule 0*0 | schedule 0*1048577",
    "2 RANGE | schedule 0*1048576 0 1 | schedule 0 1 0 | schedule 0 9",
    "2 FULL | schedule 0*1048576 0",
    "3 FULL | schedule 0*1048575\nschedule 0 0",
    "5 REPEATED | lp 0\nend\n\nlp 0x0",
];

const IN_BLOCK: &[&str] = &[
    "good |  |  # end",
    "3 PLACE | lp | lp 0 | schedule 0 | schedule x | code 9 | code 1 0",
    "3 WORD | host.read 5 0 | HOST.READX 5 | set 0 0 | vmcall 0 | secret 0 0",
    "3 WORD | IMPORT.MEMS 1 0 8 | IMPORT.STATE 1 0 | import.mem 1 0 8 | IMPORT.PAUSE 1 | EXPORT.END 1",
    "3 RANGE | EXPORT.STATE.IMMUTABLE 1 4096 | EXPORT.TRACK 1 4096 0 | EXPORT.STATE.TD 1 0x1000",
    "3 RANGE | EXPORT.STATE.VP 1 4 4096 | EXPORT.TRACK 1 18446744073709551615 0",
    "3 RANGE | EXPORT.STATE.VP 1 4 65536 | EXPORT.STATE.TD 1 65536 | EXPORT.MEM 1 0 0 4096",
    "3 RANGE | EXPORT.MEM 1 0 0 65536 | EXPORT.MEM 99 1 9 0x1000",
    "3 RANGE | IMPORT.ABORT 1 4096 | IMPORT.ABORT 99 0x1000 | IMPORT.ABORT 1 18446744073709551615",
    "4 SLOT | EXPORT.MEM 1 0 0 9\nEXPORT.MEM 1 4096 1 0x9 | EXPORT.TRACK 1 0 0\nEXPORT.MEM 1 0 0 0",
    "4 SLOT | EXPORT.STATE.IMMUTABLE 1 0\nEXPORT.TRACK 1 0 0 | EXPORT.TRACK 1 7 0\nEXPORT.TRACK 2 7 0",
    "4 SLOT | EXPORT.STATE.TD 1 4095\nEXPORT.STATE.VP 1 4 0xfff | EXPORT.TRACK 1 3 0\nEXPORT.STATE.TD 1 3",
    "6 SLOT | EXPORT.STATE.TD 1 3\nEXPORT.STATE.TD 1 4\n\nEXPORT.STATE.TD 1 03",
    "4 SLOT | IMPORT.ABORT 1 3\nIMPORT.ABORT 2 3 | IMPORT.ABORT 1 0\nEXPORT.MEM 1 0 0 0",
    // A slot of an input is any, and names no output.
    "5 SLOT | EXPORT.TRACK 1 3 0\nIMPORT.TRACK 1 3\nIMPORT.ABORT 1 3",
    "4 RANGE | EXPORT.TRACK 1 0 0\nEXPORT.TRACK 1 4096 0",
    "3 NAME | MNG.RD 1 NAME | MNG.RD 1 life | MNG.RD 1 EPOCHS | MNG.RD 1 OPS | MNG.RD 1 1 | MNG.RD 1 #",
];

const COUNTED_IN_BLOCK: &[&str] = &[
    "3 COUNT | end 0 | HOST.READ 5 | HOST.READ x 0 0 | HOST.WRITE 0 0 0 0 0 0 0 | PHYMEM.PAGE.RDMD",
    "3 COUNT | PHYMEM.CACHE.WB 0 | PHYMEM.PAGE.RECLAIM 1 | PHYMEM.PAGE.RECLAIM 1 2 3 | MNG.KEY.CONFIG",
    "3 COUNT | MNG.KEY.CONFIG 1 2 | MNG.ADDCX 1 | MNG.ADDCX 1 2 3 | MNG.INIT | MNG.INIT 1 2 | MNG.RD",
    "3 COUNT | MNG.RD 1 | MNG.RD NAME | MNG.RD 1 LIFE 1 | MNG.RD x NAME 1 | MNG.VPFLUSHDONE",
    "3 COUNT | MNG.VPFLUSHDONE 1 2 | MNG.KEY.FREEID | MNG.KEY.FREEID 1 2 | MR.FINALIZE",
    "3 COUNT | MR.FINALIZE 1 2 | VP.CREATE 1 | VP.CREATE 1 2 3 | VP.INIT 1 4 | VP.INIT 1 4 0 0",
    "3 COUNT | VP.ENTER | VP.ENTER 1 | VP.ENTER 1 4 | VP.ENTER 1 4 1 0 | VP.ENTER x 4 1 0 | VP.ENTER x y",
    "3 COUNT | VP.FLUSH | VP.FLUSH 1",
    "3 COUNT | VP.FLUSH 1 4 1 | VP.FLUSH x 4 1 | MEM.SEPT.REMOVE 1 0 | MEM.SEPT.REMOVE 1 0 3 5",
    "3 COUNT | MEM.SEPT.ADD 1 0 3 | MEM.SEPT.ADD 1 0 3 5 5 | MEM.SEPT.RD 1 0 | MEM.SEPT.RD 1 0 3 5",
    "3 COUNT | MEM.PAGE.ADD 1 0 8 | MEM.PAGE.ADD x 0 8 0 0 | MR.EXTEND 1 | MR.EXTEND 1 0 0",
    "3 COUNT | MEM.PAGE.AUG 1 0 | MEM.PAGE.AUG 1 0 8 0 | MEM.PAGE.AUG x 0 8 0 | MEM.PAGE.AUG",
    "3 COUNT | MEM.PAGE.RELOCATE 1 0 | MEM.PAGE.RELOCATE 1 0 8 0 | MEM.PAGE.RELOCATE x 0 8 0",
    "3 COUNT | MEM.PAGE.REMOVE 1 | MEM.PAGE.REMOVE 1 0 8 | MEM.TRACK | MEM.TRACK 1 2 | MEM.TRACK x y",
    "3 COUNT | MEM.RANGE.BLOCK 1 0 | MEM.RANGE.BLOCK 1 0 3 8 | MEM.RANGE.BLOCK x 0",
    "3 COUNT | MEM.RANGE.UNBLOCK 1 0 | MEM.RANGE.UNBLOCK 1 0 3 8 | MEM.RANGE.UNBLOCK x 0",
    "3 COUNT | MIG.STREAM.CREATE | MIG.STREAM.CREATE 1 | MIG.STREAM.CREATE 1 2 3 | EXPORT.BLOCKW 1",
    "3 COUNT | EXPORT.BLOCKW 1 0 0 | EXPORT.UNBLOCKW x | EXPORT.UNBLOCKW 1 0 0 | EXPORT.PAUSE",
    "3 COUNT | EXPORT.PAUSE 1 2 | EXPORT.ABORT | EXPORT.ABORT 1 2 3 | EXPORT.ABORT x y z",
    "3 COUNT | EXPORT.RESTORE 1 | EXPORT.RESTORE 1 0 0 | EXPORT.RESTORE",
    "3 COUNT | EXPORT.STATE.IMMUTABLE 1 | EXPORT.STATE.IMMUTABLE 1 4096 0 | EXPORT.STATE.IMMUTABLE",
    "3 COUNT | EXPORT.TRACK 1 4096 | EXPORT.TRACK 1 2 0 0 | EXPORT.TRACK | EXPORT.TRACK x y",
    "3 COUNT | EXPORT.STATE.TD 1 | EXPORT.STATE.TD 1 2 3 | EXPORT.STATE.VP 1 4 | EXPORT.STATE.VP x",
    "3 COUNT | EXPORT.STATE.VP 1 4 2 0 | EXPORT.STATE.VP 1 4 4096 x | EXPORT.STATE.TD",
    "3 COUNT | EXPORT.MEM | EXPORT.MEM 1 0 0 | EXPORT.MEM 1 0 4096 | EXPORT.MEM 1 0 0 4096 0 | EXPORT.MEM x y",
    "3 COUNT | IMPORT.STATE.IMMUTABLE | IMPORT.STATE.IMMUTABLE 1 | IMPORT.STATE.IMMUTABLE 1 0 0",
    "3 COUNT | IMPORT.MEM | IMPORT.MEM x | IMPORT.MEM 1 0 | IMPORT.MEM 1 0 8 1 | IMPORT.MEM x 0 9 4096",
    "3 COUNT | IMPORT.TRACK 1 | IMPORT.TRACK 1 0 0 | IMPORT.TRACK | IMPORT.STATE.TD 1",
    "3 COUNT | IMPORT.STATE.TD 1 2 3 | IMPORT.STATE.VP 1 4 | IMPORT.STATE.VP 1 4 2 0 | IMPORT.STATE.VP",
    "3 COUNT | IMPORT.COMMIT | IMPORT.COMMIT 1 2 | IMPORT.COMMIT x y | IMPORT.END",
    "3 COUNT | IMPORT.END 1 2 3 4 5 6 | IMPORT.ABORT | IMPORT.ABORT 1 | IMPORT.ABORT 1 4096 0",
    "4 COUNT | EXPORT.STATE.TD 1 3\nEXPORT.STATE.TD 1 3 0",
];

const NUMBERS_IN_BLOCK: &[&str] = &[
    "3 NUMBER | MNG.CREATE 1 0x | MNG.CREATE 0X1 1 | MNG.CREATE -1 1 | HOST.READ 0xfg 1",
    "3 NUMBER | VP.ENTER x 4 1 | VP.ENTER 1 x 1 | VP.ENTER 1 4 x | VP.ENTER 1 4 0x | VP.ENTER 1 4 #",
    "3 NUMBER | VP.ENTER 18446744073709551616 4 1 | VP.ENTER 1 18446744073709551616 1",
    "3 NUMBER | VP.ENTER 1 4 18446744073709551616 | VP.ENTER 1 4 0x10000000000000000",
    "3 NUMBER | VP.FLUSH 1 x | VP.FLUSH x 4",
    "3 NUMBER | MEM.SEPT.REMOVE 1 0 x | MEM.SEPT.REMOVE x 0 3 | MEM.PAGE.REMOVE 1 x | MEM.TRACK x",
    "3 NUMBER | MEM.RANGE.BLOCK 1 0 x | MEM.RANGE.BLOCK x 0 3 | MEM.RANGE.UNBLOCK 1 x 3",
    "3 NUMBER | MIG.STREAM.CREATE 1 x | MIG.STREAM.CREATE x 2 | EXPORT.BLOCKW 1 x | EXPORT.BLOCKW x 0",
    "3 NUMBER | EXPORT.UNBLOCKW 1 0x | EXPORT.PAUSE x | EXPORT.ABORT x | EXPORT.RESTORE 1 #",
    "3 NUMBER | EXPORT.ABORT x 2 | EXPORT.ABORT 1 x | EXPORT.ABORT x y | EXPORT.ABORT 1 -1",
    "3 NUMBER | EXPORT.STATE.IMMUTABLE 1 x | EXPORT.STATE.IMMUTABLE x 4096 | EXPORT.TRACK 1 4096 x",
    "3 NUMBER | EXPORT.TRACK x 4096 0 | EXPORT.TRACK 1 0x 0 | EXPORT.STATE.TD x 4096",
    "3 NUMBER | EXPORT.STATE.TD 1 # | EXPORT.STATE.VP 1 x 4096 | EXPORT.STATE.VP 1 4 -1",
    "3 NUMBER | EXPORT.STATE.TD 1 18446744073709551616 | EXPORT.MEM x 0 0 4096 | EXPORT.MEM 1 x 0 4096",
    "3 NUMBER | EXPORT.MEM 1 0 x 4096 | EXPORT.MEM 1 0 0 x | EXPORT.MEM 1 0 0 18446744073709551616",
    "3 NUMBER | IMPORT.STATE.IMMUTABLE 1 x | IMPORT.STATE.IMMUTABLE x 0 | IMPORT.MEM x 0 8",
    "3 NUMBER | IMPORT.MEM 1 x 8 | IMPORT.MEM 1 0 x | IMPORT.TRACK x 0 | IMPORT.TRACK 1 0x",
    "3 NUMBER | IMPORT.TRACK 1 18446744073709551616 | IMPORT.STATE.TD 1 # | IMPORT.STATE.TD x 0",
    "3 NUMBER | IMPORT.STATE.VP x 4 0 | IMPORT.STATE.VP 1 x 0 | IMPORT.STATE.VP 1 4 x",
    "3 NUMBER | IMPORT.COMMIT x | IMPORT.END x | IMPORT.ABORT x 4096 | IMPORT.ABORT 1 x",
    "5 NUMBER | IMPORT.TRACK 1 3\nIMPORT.TRACK 1 3\nIMPORT.TRACK 1 x",
    "4 NUMBER | EXPORT.TRACK 1 3 0\nEXPORT.TRACK 1 3 x",
    "3 NUMBER | MEM.SEPT.ADD 1 0 3 x | MEM.SEPT.RD 1 0 x | MEM.PAGE.ADD 1 0 8 x | MR.EXTEND 1 x",
    "3 NUMBER | MEM.PAGE.AUG 1 0 x | MEM.PAGE.AUG x 0 8 | MEM.PAGE.AUG 1 0x 8",
    "3 NUMBER | PHYMEM.PAGE.RECLAIM 1 x | MNG.KEY.CONFIG x | MNG.ADDCX x 1 | MNG.INIT x",
    "3 NUMBER | MNG.RD x NAME | MNG.RD x LIFE | MNG.RD LIFE 1 | MNG.VPFLUSHDONE x | MNG.KEY.FREEID x",
    "3 NUMBER | MR.FINALIZE x | VP.CREATE 1 x | VP.INIT 1 4 x | VP.INIT x 4 0",
    "3 NUMBER | HOST.READ 18446744073709551616 1 | HOST.READ 184467440737095516150 1",
    "3 NUMBER | HOST.READ 0x10000000000000000 1 | HOST.READ 1844674407370955161x 1 | HOST.READ 1a 1",
];

const CALLS: &[&str] = &[
    "HostRead { page: 5, word: 0 } | HOST.READ  5   0 ",
    "HostRead { page: 18446744073709551615, word: 7 } | HOST.READ 18446744073709551615 7",
    "HostWrite { page: 9, word: 0, value: 1 } | HOST.WRITE 9 00 0x00000000000000000001",
    "PhymemPageRdmd { page: 18 } | PHYMEM.PAGE.RDMD 18 | PHYMEM.PAGE.RDMD 0x12",
    "PhymemCacheWb | PHYMEM.CACHE.WB |  PHYMEM.CACHE.WB ",
    "PhymemPageReclaim { tdr: 1, page: 18 } | PHYMEM.PAGE.RECLAIM 1 18 | PHYMEM.PAGE.RECLAIM 0x1 0x12",
    "MngCreate { tdr: 0, hkid: 99 } | MNG.CREATE 0 99 | MNG.CREATE 0x0 0x63",
    "MngKeyConfig { tdr: 10 } | MNG.KEY.CONFIG 10 | MNG.KEY.CONFIG 0xA",
    "MngAddcx { tdr: 1, page: 18 } | MNG.ADDCX 1 18 | MNG.ADDCX 0x1 0x12",
    "MngInit { tdr: 10 } | MNG.INIT 10 | MNG.INIT 0xA",
    "MngRd { tdr: 1, field: Life } | MNG.RD 1 LIFE | MNG.RD 0x01  LIFE ",
    "MngRd { tdr: 10, field: Op } | MNG.RD 10 OP | MNG.RD 0xa OP",
    "MngRd { tdr: 1, field: Epoch } | MNG.RD 1 EPOCH | MNG.RD 0x1 EPOCH",
    "MngRd { tdr: 1, field: Mrtd } | MNG.RD 1 MRTD | MNG.RD 0x1 MRTD",
    "MngVpflushdone { tdr: 10 } | MNG.VPFLUSHDONE 10 | MNG.VPFLUSHDONE 0xA",
    "MngKeyFreeid { tdr: 18446744073709551615 } | MNG.KEY.FREEID 0xffffffffFFFFFFFF",
    "MrFinalize { tdr: 10 } | MR.FINALIZE 10 | MR.FINALIZE 0xA",
    "VpCreate { tdr: 1, page: 18 } | VP.CREATE 1 18 | VP.CREATE 0x1 0x12",
    "VpInit { tdr: 1, vp: 18, value: 3 } | VP.INIT 1 18 3 | VP.INIT 0x1 0x12 0x3",
    "VpEnter { tdr: 1, vp: 18, max: 100 } | VP.ENTER 1 18 100 | VP.ENTER 0x1 0x12 0x64",
    "VpEnter { tdr: 0, vp: 0, max: 18446744073709551615 } | VP.ENTER 0 0 0xffffffffFFFFFFFF",
    "VpEnter { tdr: 18446744073709551615, vp: 0, max: 0 } | VP.ENTER 18446744073709551615 0 0",
    "VpEnter { tdr: 0, vp: 18446744073709551615, max: 0 } | VP.ENTER 0 18446744073709551615 0",
    "VpFlush { tdr: 1, vp: 18 } | VP.FLUSH 1 18 | VP.FLUSH 0x1 0x12",
    "MemSeptAdd { tdr: 1, gpa: 4096, level: 3, page: 18 } | MEM.SEPT.ADD 1 0x1000 3 18",
    "MemSeptRd { tdr: 1, gpa: 18, level: 3 } | MEM.SEPT.RD 1 18 3 | MEM.SEPT.RD 0x1 0x12 03",
    "MemSeptRemove { tdr: 1, gpa: 18, level: 3 } | MEM.SEPT.REMOVE 1 18 3",
    "MemSeptRemove { tdr: 1, gpa: 18, level: 3 } | MEM.SEPT.REMOVE 0x1 0x12 0x3",
    "MemPageAdd { tdr: 1, gpa: 18, page: 8, source: 0 } | MEM.PAGE.ADD 1 0x12 8 0",
    "MemPageAug { tdr: 1, gpa: 18, page: 8 } | MEM.PAGE.AUG 1 0x12 8 | MEM.PAGE.AUG 01 18 0x8",
    "MemPageRelocate { tdr: 1, gpa: 18, page: 8 } | MEM.PAGE.RELOCATE 1 0x12 8 | MEM.PAGE.RELOCATE 01 18 0x8",
    "MemPageRemove { tdr: 1, gpa: 4096 } | MEM.PAGE.REMOVE 1 4096 | MEM.PAGE.REMOVE 0x1 0x1000",
    "MemRangeBlock { tdr: 1, gpa: 18, level: 3 } | MEM.RANGE.BLOCK 1 18 3",
    "MemRangeBlock { tdr: 1, gpa: 18, level: 3 } | MEM.RANGE.BLOCK 0x1 0x12 0x3",
    "MemRangeUnblock { tdr: 1, gpa: 18, level: 3 } | MEM.RANGE.UNBLOCK 1 18 3",
    "MemRangeUnblock { tdr: 1, gpa: 18, level: 3 } | MEM.RANGE.UNBLOCK 0x1 0x12 0x3",
    "MemTrack { tdr: 10 } | MEM.TRACK 10 | MEM.TRACK 0xA",
    "MrExtend { tdr: 1, gpa: 256 } | MR.EXTEND 1 256 | MR.EXTEND 0x1 0x100",
];

const MIGRATION_CALLS: &[&str] = &[
    "MigStreamCreate { tdr: 1, page: 18 } | MIG.STREAM.CREATE 1 18 | MIG.STREAM.CREATE 0x1 0x12",
    "ExportBlockw { tdr: 1, gpa: 18 } | EXPORT.BLOCKW 1 18 | EXPORT.BLOCKW 0x1 0x12",
    "ExportUnblockw { tdr: 1, gpa: 18 } | EXPORT.UNBLOCKW 1 18 | EXPORT.UNBLOCKW 0x1 0x12",
    "ExportPause { tdr: 10 } | EXPORT.PAUSE 10 | EXPORT.PAUSE 0xA",
    "ExportAbort { tdr: 10 } | EXPORT.ABORT 10 | EXPORT.ABORT 0xA",
    "ExportAbortByToken { tdr: 10, slot: 18 } | EXPORT.ABORT 10 18 | EXPORT.ABORT 0xA 0x12",
    "ExportAbortByToken { tdr: 0, slot: 18446744073709551615 } | EXPORT.ABORT 0 18446744073709551615",
    "ExportRestore { tdr: 1, gpa: 18 } | EXPORT.RESTORE 1 18 | EXPORT.RESTORE 0x1 0x12",
    "ExportStateImmutable { tdr: 1, slot: 0 } | EXPORT.STATE.IMMUTABLE 1 0\nEXPORT.TRACK 1 1 0",
    "ExportStateImmutable { tdr: 4096, slot: 4095 } | EXPORT.STATE.IMMUTABLE 4096 4095",
    "ExportMem { tdr: 1, gpa: 4096, stream: 3, slot: 18 } | EXPORT.MEM 1 4096 3 18 | EXPORT.MEM 0x1 0x1000 03 0x12",
    "ExportMem { tdr: 4096, gpa: 1, stream: 99, slot: 4095 } | EXPORT.MEM 4096 1 99 4095",
    "ExportTrack { tdr: 18, slot: 3, start: 1 } | EXPORT.TRACK 18 3 1 | EXPORT.TRACK 0x12 0x3 01",
    "ExportTrack { tdr: 1, slot: 2, start: 4096 } | EXPORT.TRACK 1 2 4096\nEXPORT.STATE.TD 2 1",
    "ExportStateTd { tdr: 1, slot: 1 } | EXPORT.STATE.TD 1 1 | EXPORT.STATE.TD 0x1 001",
    "ExportStateVp { tdr: 1, vp: 4, slot: 18 } | EXPORT.STATE.VP 1 4 18 | EXPORT.STATE.VP 1 4 0x12",
    "ExportStateVp { tdr: 1, vp: 4096, slot: 0 } | EXPORT.STATE.VP 1 4096 0",
    "ImportStateImmutable { tdr: 1, slot: 18 } | IMPORT.STATE.IMMUTABLE 1 18 | IMPORT.STATE.IMMUTABLE 01 0x12",
    "ImportStateImmutable { tdr: 0, slot: 4096 } | IMPORT.STATE.IMMUTABLE 0 4096",
    "ImportMem { tdr: 1, slot: 18, page: 8 } | IMPORT.MEM 1 18 8 | IMPORT.MEM 0x1 0x12 0x8",
    "ImportMem { tdr: 1, slot: 8, page: 18446744073709551615 } | IMPORT.MEM 1 8 0xffffffffFFFFFFFF",
    "ImportTrack { tdr: 1, slot: 18446744073709551615 } | IMPORT.TRACK 1 18446744073709551615",
    "ImportTrack { tdr: 18, slot: 3 } | IMPORT.TRACK 18 3 | IMPORT.TRACK 0x12 3\nIMPORT.TRACK 18 3",
    "ImportStateTd { tdr: 1, slot: 18 } | IMPORT.STATE.TD 1 18 | IMPORT.STATE.TD 0x1 0x12",
    "ImportStateVp { tdr: 1, vp: 4, slot: 18 } | IMPORT.STATE.VP 1 4 18 | IMPORT.STATE.VP 1 4 0x12",
    "ImportStateVp { tdr: 1, vp: 4096, slot: 65536 } | IMPORT.STATE.VP 1 4096 65536",
    "ImportCommit { tdr: 10 } | IMPORT.COMMIT 10 | IMPORT.COMMIT 0xA",
    "ImportEnd { tdr: 10 } | IMPORT.END 10 | IMPORT.END 0xA",
    "ImportAbort { tdr: 1, slot: 4095 } | IMPORT.ABORT 1 4095 | IMPORT.ABORT 0x1 0xfff",
    "ImportAbort { tdr: 4096, slot: 0 } | IMPORT.ABORT 4096 0\nEXPORT.ABORT 1 0\nIMPORT.TRACK 1 0",
];

const IN_LIST: &[&str] = &[
    "good |  |  # end",
    "3 MACHINE | machine 1 8 1 | machine",
    "3 PLACE | lp | lp 0 | schedule 0 | schedule x | code | code 9 | code 7 7 | code 1 0",
    "3 WORD | HOST.READ 5 0 | VP.ENTER 1 4 1 | SET 0 0 | sets 0 0 | se 0 0 | fence",
    "3 COUNT | secret | secret 0 | secret x | secret 8 | secret 0 0 0 | secret 8 512 x",
    "3 COUNT | end 0 | set | set 0 | set x | set 8 0 0 | add 0 | add 0 0 0 | load 0 | load x 0 0",
    "3 COUNT | store 0 | store 0 0 0 0 0 0 0 | accept | accept 1 0 | rtmr | rtmr 4 0 | vmcall",
    "3 COUNT | vmcall 0 0 | vmcall x 0 | report 0 | report x",
    "3 NUMBER | set x 0 | set 8 x | set 0 18446744073709551616 | add x 8 | add 8 x | load 0 0x",
    "3 NUMBER | load x 1 | store 8 x | store x 0 | accept x | rtmr 0y | vmcall -1 | vmcall #",
    "3 NUMBER | secret x 512 | secret 8 x | secret 0 -1 | secret 0 0x",
    "3 NUMBER | secret 0 18446744073709551616 | secret 18446744073709551616 0",
    "3 RANGE | secret 8 0 | secret 0 512 | secret 8 512 | secret 0 0xffffffffffffffff | secret 256 0",
    "3 RANGE | set 8 0 | set 18446744073709551615 0 | add 8 0 | add 0 8 | load 8 0 | store 8 0",
    "3 RANGE | load 0 281474976710656 | load 0 281474976710655 | load 0 4 | load 0 1",
    "3 RANGE | store 0 281474976710656 | store 0 281474976710652 | store 0 7 | store 9 8",
    "3 RANGE | accept 140737488355328 | accept 140737488351231 | accept 2048 | accept 1",
    "3 RANGE | rtmr 4 | rtmr 256 | vmcall 8 | vmcall 256",
    "Report | report\nreport\nreport\nreport",
    "7 FULL | report\nreport\nreport\nreport\nreport",
    "8 FULL | report\nreport\nset 0 0\nreport\nreport\nreport",
];

const OPERATIONS: &[&str] = &[
    "Set { register: 7, value: 18446744073709551615 } | set 7 0xffffffffFFFFFFFF",
    "Set { register: 0, value: 0 } | set 0 0 |  set  00   0x0 \nset 1 1",
    "Secret { register: 7, number: 511 } | secret 7 511 | secret 0x7 0x1FF",
    "Secret { register: 0, number: 0 } | secret 0 0 | secret  00   0x0 ",
    "Add { register: 7, other: 0 } | add 7 0 | add 0x7 00",
    "Add { register: 0, other: 7 } | add 0 7",
    "Load { register: 7, gpa: 281474976710648 } | load 7 281474976710648 | load 7 0xfffffffffff8",
    "Load { register: 0, gpa: 140737488355328 } | load 0 140737488355328",
    "Store { register: 7, gpa: 281474976710648 } | store 7 281474976710648",
    "Store { register: 0, gpa: 8 } | store 0 8 | store 0x0 0x008",
    "Accept { gpa: 140737488351232 } | accept 140737488351232 | accept 0x7FFFFFFFF000",
    "Accept { gpa: 0 } | accept 0",
    "Rtmr { index: 3 } | rtmr 3 | rtmr 0x3",
    "Report | report |  report ",
    "Vmcall { register: 7 } | vmcall 7 | vmcall 07",
];

// Each script of these rows, between what stands before it and behind it, has its row's answer.
fn have_answers<R: Abort>(
    rt: &R,
    alloc: Global,
    front: &str,
    rows: &[&str],
    back: &str,
) -> Result<(), Fail> {
    for row in rows {
        let (want, scripts) = row.split_once(" | ").ok_or("no bar")?;
        for script in scripts.split(" | ") {
            let text = format!(in alloc; "{front}{script}{back}")?;
            assert_eq!(rt; answer(alloc, text.as_bytes())?.as_str(), want, "at {text}");
        }
    }
    Ok(())
}

#[test]
fn names_the_first_bad_line(rt: HostRuntime) -> Result<(), Fail> {
    have_answers(&rt, rt.alloc(), "", WHOLE_SCRIPTS, "")?;
    have_answers(&rt, rt.alloc(), "machine 1 8 1\n", ON_ONE_PROCESSOR, "\n")?;
    for rows in [IN_BLOCK, COUNTED_IN_BLOCK, NUMBERS_IN_BLOCK] {
        have_answers(&rt, rt.alloc(), "machine 1 8 1\nlp 0\n", rows, "\nend\n")?;
    }
    have_answers(
        &rt,
        rt.alloc(),
        "machine 1 8 1\ncode 7 7\n",
        IN_LIST,
        "\nend\n",
    )
}

#[test]
fn reads_each_call_and_operation(rt: HostRuntime) -> Result<(), Fail> {
    for rows in [CALLS, MIGRATION_CALLS] {
        have_answers(&rt, rt.alloc(), "machine 1 8 1\nlp 0\n", rows, "\nend\n")?;
    }
    have_answers(
        &rt,
        rt.alloc(),
        "machine 1 8 1\ncode 7 7\n",
        OPERATIONS,
        "\nend\n",
    )
}

const FIRST_CALL: &str = "MngCreate { tdr: 3, hkid: 10 }";

// How many calls of the first kind stand there, what comes behind them, and the answer.
const AT_LIMITS: &[(u32, &str, &str)] = &[
    (4096, "end\n", FIRST_CALL),
    (4095, "HOST.READ 1 1\nend\n", FIRST_CALL),
    (4096, "IMPORT.MEM 1\n", "4099 COUNT"),
    (4096, "IMPORT.MEM 1 0 8\n", "4099 FULL"),
    (4096, "IMPORT.ABORT 1 4096\n", "4099 RANGE"),
    (4095, "IMPORT.ABORT 1 4095\nend\n", FIRST_CALL),
    (4096, "EXPORT.MEM 1 0 0 4096\n", "4099 RANGE"),
    (4096, "EXPORT.TRACK 1 4096 0\n", "4099 RANGE"),
    (4096, "EXPORT.TRACK 1 5 0\n", "4099 FULL"),
    (
        4095,
        "EXPORT.TRACK 1 5 0\nEXPORT.TRACK 1 5 0\n",
        "4099 FULL",
    ),
    (
        4094,
        "EXPORT.TRACK 1 5 0\nEXPORT.TRACK 1 5 0\n",
        "4098 SLOT",
    ),
    (4096, "MEM.TRACK 1\n", "4099 FULL"),
    (4096, "HOST.READ x\n", "4099 COUNT"),
    (4096, "HOST.READ x 1\n", "4099 NUMBER"),
    (4096, "HOST.READ 1 1\n", "4099 FULL"),
    (4096, "MNG.RD 1 NAME\n", "4099 NAME"),
    (4096, "MNG.RD 1 OP\n", "4099 FULL"),
    (4096, "HOST.READ 1 1", "4099 UNTERMINATED"),
];

#[test]
fn stops_at_its_limits(rt: HostRuntime) -> Result<(), Fail> {
    let alloc = rt.alloc();
    for (calls, last, want) in AT_LIMITS {
        let mut bytes = b"machine 1 8 1\nlp 0\n".to_vec(alloc)?;
        for _call in 0..*calls {
            bytes.extend_from_slice(b"MNG.CREATE 3 0xa\n")?;
        }
        bytes.extend_from_slice(last.as_bytes())?;
        assert_eq!(rt; answer(alloc, &bytes)?.as_str(), *want, "at {last}");
    }
    for (bytes, want) in [(1 << 24, "16777217 MACHINE"), ((1 << 24) + 1, "0 LENGTH")] {
        let lines = vec![in alloc; b'\n'; bytes]?;
        assert_eq!(rt; answer(alloc, &lines)?.as_str(), want);
    }
    Ok(())
}

const FIRST_OPERATION: &str = "Set { register: 3, value: 10 }";

// The same of operations.
const AT_LIST_LIMIT: &[(u32, &str, &str)] = &[
    (256, "end\n", FIRST_OPERATION),
    (255, "vmcall 1\nend\n", FIRST_OPERATION),
    (256, "end\ncode 1 1\nvmcall 1\nend\n", FIRST_OPERATION),
    (255, "secret 7 511\nend\n", FIRST_OPERATION),
    (256, "secret 0\n", "259 COUNT"),
    (256, "secret 0 512\n", "259 RANGE"),
    (256, "secret 0 0\n", "259 FULL"),
    (256, "vmcall\n", "259 COUNT"),
    (256, "vmcall x\n", "259 NUMBER"),
    (256, "vmcall 8\n", "259 RANGE"),
    (256, "vmcall 1\n", "259 FULL"),
    (256, "vmcall 1", "259 UNTERMINATED"),
    (257, "end\n", "259 FULL"),
];

#[test]
fn stops_at_the_limit_of_a_list(rt: HostRuntime) -> Result<(), Fail> {
    let alloc = rt.alloc();
    for (ops, last, want) in AT_LIST_LIMIT {
        let mut bytes = b"machine 1 8 1\ncode 1 0\n".to_vec(alloc)?;
        for _op in 0..*ops {
            bytes.extend_from_slice(b"set 3 0xa\n")?;
        }
        bytes.extend_from_slice(last.as_bytes())?;
        assert_eq!(rt; answer(alloc, &bytes)?.as_str(), *want, "at {last}");
    }
    Ok(())
}

// Adds the list of that number, of which each TD has eight.
fn add_list(alloc: Global, bytes: &mut Vec<u8>, list: u16) -> Result<(), Fail> {
    let (tdr, index) = (list / 8, list % 8);
    let block = format!(in alloc; "code {tdr} {index}\nvmcall {index}\nend\n")?;
    bytes.extend_from_slice(block.as_bytes())?;
    Ok(())
}

#[test]
fn has_one_list_for_each_vcpu(rt: HostRuntime) -> Result<(), Fail> {
    let alloc = rt.alloc();
    let mut bytes = b"machine 1 1024 1\n".to_vec(alloc)?;
    for list in 0..8192 {
        add_list(alloc, &mut bytes, list)?;
    }
    let script = read_script(alloc, &bytes)?;
    assert_eq!(rt; script.codes.len(), 8192);
    bytes.extend_from_slice(b"code 511 7\n")?;
    assert_eq!(rt; answer(alloc, &bytes)?.as_str(), "24578 REPEATED");
    Ok(())
}

// Adds a call whose bundle goes into that slot.
fn add_token(alloc: Global, bytes: &mut Vec<u8>, slot: u16) -> Result<(), Fail> {
    let line = format!(in alloc; "EXPORT.TRACK 1 {slot} 0\n")?;
    bytes.extend_from_slice(line.as_bytes())?;
    Ok(())
}

// What comes behind a call for each slot, and the answer.
const AT_ALL_SLOTS: &[(&str, &str)] = &[
    ("end\n", "ExportPause { tdr: 1 }"),
    ("EXPORT.STATE.TD 1 0\n", "4102 SLOT"),
    ("EXPORT.STATE.TD 1 4095\n", "4102 SLOT"),
    ("EXPORT.STATE.TD 1 4096\n", "4102 RANGE"),
];

#[test]
fn has_one_call_for_each_slot(rt: HostRuntime) -> Result<(), Fail> {
    let alloc = rt.alloc();
    let mut bytes = b"machine 2 8 1\nlp 1\n".to_vec(alloc)?;
    for slot in 0..4096 {
        add_token(alloc, &mut bytes, slot)?;
    }
    bytes.extend_from_slice(b"end\nlp 0\nEXPORT.PAUSE 1\n")?;
    for (last, want) in AT_ALL_SLOTS {
        let mut script = bytes.clone()?;
        script.extend_from_slice(last.as_bytes())?;
        assert_eq!(rt; answer(alloc, &script)?.as_str(), *want, "at {last}");
    }
    Ok(())
}

#[test]
fn says_whether_keys_are_needed(rt: HostRuntime) -> Result<(), Fail> {
    let alloc = rt.alloc();
    for (calls, want) in [
        ("", false),
        ("EXPORT.PAUSE 1\nEXPORT.ABORT 1\n", false),
        ("EXPORT.STATE.IMMUTABLE 1 0\n", true),
        ("EXPORT.PAUSE 1\nEXPORT.TRACK 1 0 0\n", true),
        ("EXPORT.STATE.TD 1 0\nEXPORT.PAUSE 1\n", true),
        ("EXPORT.STATE.VP 1 4 0\n", true),
        ("EXPORT.MEM 1 0 0 0\n", true),
        ("IMPORT.COMMIT 1\nIMPORT.END 1\n", false),
        ("IMPORT.STATE.IMMUTABLE 1 0\n", true),
        ("IMPORT.COMMIT 1\nIMPORT.MEM 1 0 8\n", true),
        ("IMPORT.TRACK 1 4096\nIMPORT.END 1\n", true),
        ("IMPORT.STATE.TD 1 0\n", true),
        ("IMPORT.STATE.VP 1 4 0\n", true),
        ("IMPORT.ABORT 1 0\n", true),
        ("EXPORT.PAUSE 1\nEXPORT.ABORT 1 0\n", true),
    ] {
        let text = format!(in alloc; "machine 2 8 1\nlp 1\n{calls}end\n")?;
        let script = read_script(alloc, text.as_bytes())?;
        assert_eq!(rt; needs_keys(&script), want, "at {calls}");
    }
    Ok(())
}

#[test]
fn reads_what_stands_there(rt: HostRuntime) -> Result<(), Fail> {
    let text = "# a\nmachine 2 9 3\n schedule 1 0x0*0x2\ncode 8 1\nset 2 7\n\nvmcall 2\nend\n\
        lp 1\nHOST.WRITE 5 6 0x7\nMNG.CREATE 1 2\nend\nschedule 01*02\nlp 0\nHOST.READ 3 4\n\
        PHYMEM.PAGE.RDMD 8\nend\ncode 3 0\nend\nschedule 0\ncode 8 0\naccept 4096\nend\n";
    let alloc = rt.alloc();
    let script = read_script(alloc, text.as_bytes())?;
    let (machine, schedule, calls) = (&script.machine, &script.schedule, &script.calls);
    let said = format!(in alloc; "{machine:?} {schedule:?} {calls:?}")?;
    let want = "Machine { lps: 2, pages: 9, hkids: 3 } [1, 0, 0, 1, 1, 0] \
        [[HostRead { page: 3, word: 4 }, PhymemPageRdmd { page: 8 }], \
        [HostWrite { page: 5, word: 6, value: 7 }, MngCreate { tdr: 1, hkid: 2 }]]";
    assert_eq!(rt; said.as_str(), want);
    let lists = [
        "8.1 [Set { register: 2, value: 7 }, Vmcall { register: 2 }]",
        "3.0 []",
        "8.0 [Accept { gpa: 4096 }]",
    ];
    assert_eq!(rt; script.codes.len(), lists.len());
    for (list, want) in script.codes.iter().zip(lists) {
        let (tdr, index, ops) = (list.tdr, list.index, &list.ops);
        let said = format!(in alloc; "{tdr}.{index} {ops:?}")?;
        assert_eq!(rt; said.as_str(), want);
    }
    Ok(())
}

#[test]
fn tells_forms_and_output_slots(rt: HostRuntime) -> Result<(), Fail> {
    for (call, place) in [
        (CallName::ExportMem, Some(3)),
        (CallName::ImportAbort, Some(1)),
        (CallName::ExportAbort, None),
        (CallName::ImportTrack, None),
    ] {
        assert_eq!(rt; slot_place(call), place);
    }
    let abort = mnemonic_at(b"EXPORT.ABORT").ok_or("absent")?;
    assert_eq!(rt; (abort.least, abort.most), (1, 2));
    Ok(())
}
