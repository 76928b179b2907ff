//! The first list of operations of each virtual processor, which VP.ENTER looks up.

ghost use Rattle.std.specs.Prelude.{◌≡◌, IfOk};
ghost use Rattle.leaf_table.specs.Table.{code_in};
ghost use Rattle.leaf_dispatch.specs.FirstLists.{AreFirstLists};

use std::alloc::Global;
use std::collections::BTreeMap;
use td_words::{Code, GuestOp, OutOfMemory};

/// Where the first list of each virtual processor stands among a script's lists.
#[derive(Drop)]
pub struct FirstLists {
    firsts: BTreeMap<VirtualProcessor, usize>,
}

// The virtual processor of that index of the TD whose TDR is that page.
#[derive(Clone, Copy, PartialEq, Eq, PartialOrd, Ord)]
struct VirtualProcessor {
    tdr: u16,
    index: u64,
}

impl FirstLists {
    /// The table of these lists; one virtual processor may have several. All the memory that the table
    /// needs is taken here.
    pub fn new(alloc: Global, codes: &[Code]) -> Result<FirstLists, OutOfMemory>
        ensures { IfOk result (λ p. AreFirstLists codes.now p) }
    {
        let mut firsts = BTreeMap::new(alloc);
        // From the last to the first, so that the first of a virtual processor stays.
        let mut at = codes.len();
        while at > 0 {
            at -= 1;
            let code = &codes[at];
            let vcpu = VirtualProcessor {
                tdr: code.tdr,
                index: u64::from(code.index),
            };
            let Ok(_) = firsts.insert(vcpu, at) else {
                return Err(OutOfMemory);
            };
        }
        Ok(FirstLists { firsts })
    }

    /// The first list of that virtual processor, by the table of these lists; an empty one where it has
    /// none. It takes no memory.
    pub fn list_at<'a>(&self, codes: &'a [Code], tdr: u16, index: u64) -> &'a [GuestOp]
        requires { AreFirstLists codes.now self.now }
        ensures { result.now ≡ code_in codes.now tdr index }
    {
        match self.firsts.get(&VirtualProcessor { tdr, index }) {
            Some(at) => {
                let code = &codes[*at];
                code.ops.as_slice()
            }
            None => &[],
        }
    }
}
