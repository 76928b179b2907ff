//! Arguments of calls on guest physical addresses.

ghost use Rattle.std.specs.Prelude.{◌≡◌, ◌%◌, ◌≤◌, ◌==◌, ◌&&◌, nat_le};
ghost use Rattle.flat_core.specs.Arguments.{level_size};

/// GPAs are below this one.
pub const GPAS: u64 = 1 << 47;

/// The level of the root's entries, and of no higher ones.
pub const TOP: u64 = 3;

/// Whether a level is one whose entries name secure EPT pages.
pub fn is_upper(level: u64) -> bool
    ensures { result ≡ (nat_le 1 level && nat_le level 3) }
{
    1 <= level && level <= TOP
}

/// Whether a GPA is the first that an entry of a level maps.
pub fn is_aligned(level: u8, gpa: u64) -> bool
    requires { level ≤ 3 }
    ensures { result ≡ (gpa % level_size level == 0) }
{
    let size = match level {
        0 => 1 << 12,
        1 => 1 << 21,
        2 => 1 << 30,
        _ => 1 << 39,
    };
    gpa % size == 0
}
