//! The two keys of a migration.

use aes_block::Aes256;

/// The key from source to destination, for all bundles but the abort token, and the key back, for the
/// abort token.
#[derive(Clone, Copy)]
pub struct Keys {
    pub forward: Aes256,
    pub backward: Aes256,
}
