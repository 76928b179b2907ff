//! The loads of a guest's walk. Each answers what the word that it loaded tells of its entry.

ghost use Rattle.std.specs.Prelude.{◌≡◌, ℕ, ◌<◌, ◌≤◌};
ghost use Rattle.td_words.specs.declared.names.Access.{Access};
ghost use Rattle.td_words.specs.declared.replies.Reply.TheVariants.{Done};
ghost use Rattle.td_words.specs.declared.replies.Value.TheVariants.{Number};
ghost use Rattle.access_core.specs.WalkTrees.{walk_tree};
ghost use Rattle.guest_turns.specs.Turns.{MadeAtOnce};

use crate::words::load;
use access_core::{entry_address, rights_told};
use step_core::Bench;

/// The load of the entry of a level that maps a private GPA, in the secure EPT page where it stands.
pub fn load_entry<B: Bench>(bench: &mut B, gpa: u64, level: u8, page: u16) -> u64
    requires inside { page < (B.machine bench.old).pages }
    requires low { level ≤ 3 }
    ensures made { (tdr : ℕ) (access : Access) → MadeAtOnce (B.did bench.old) (B.machine bench.old) (walk_tree tdr access gpa level page) bench.new (Done (Number result)) }
    ensures machine { B.machine bench.new ≡ B.machine bench.old }
{
    let word = load(bench, entry_address(page, level, gpa));
    rights_told(word)
}
