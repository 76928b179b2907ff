//! What a report says of a TD.

/// What a guest is built of and what it has to say: MRTD, the four RTMRs, and registers 0 to 7 as
/// little-endian bytes.
#[derive(Clone, Copy, Debug, PartialEq, Eq)]
pub struct Facts {
    pub mrtd: [u8; 48],
    pub rtmr0: [u8; 48],
    pub rtmr1: [u8; 48],
    pub rtmr2: [u8; 48],
    pub rtmr3: [u8; 48],
    pub given: [u8; 64],
}
