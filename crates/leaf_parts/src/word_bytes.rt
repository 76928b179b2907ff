//! The bytes of words.

ghost use Rattle.std.specs.Prelude.{◌≡◌, ◌*◌, length};
ghost use Rattle.flat_core.specs.Digests.{digest_bytes};

/// Puts the bytes of these words there, low byte first.
pub fn put_bytes(words: &[u64], bytes: &mut [u8])
    requires { length bytes.old ≡ 8 * length words.now }
    ensures { bytes.new ≡ digest_bytes words.now }
{
    for i in 0..words.len() {
        bytes[8 * i..8 * i + 8].copy_from_slice(&words[i].to_le_bytes());
    }
}
