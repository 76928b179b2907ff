//! The header of a migration bundle.

/// A header's fields, in the order of its 64 bytes. All numbers are little-endian there. `index`
/// and `info` depend on the kind, `total` counts the bundles of the session so far, and `tag` is
/// the GCM tag of the first 48 bytes and the payload.
#[derive(Clone, Copy, Debug, PartialEq, Eq)]
pub struct Header {
    pub size: u16,
    pub version: u16,
    pub stream: u16,
    pub kind: u8,
    pub reserved: u8,
    pub counter: u32,
    pub epoch: u32,
    pub iv: u64,
    pub session: u16,
    pub index: u16,
    pub info: u32,
    pub gpa: u64,
    pub total: u64,
    pub tag: [u8; 16],
}
