//! The two keys of a migration, as bytes.

/// The key from source to destination, and the key back. They are expanded only where bundles are sealed.
#[derive(Clone, Copy)]
pub struct KeyPair {
    pub forward: [u8; 32],
    pub backward: [u8; 32],
}
