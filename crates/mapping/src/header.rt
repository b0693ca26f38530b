// The header of a record: eight fields in 24 bits.

use crate::kind::Kind;

/// The fields of a header, as they stand in its bits.
#[derive(Clone, Copy)]
pub(crate) struct Header {
    pub(crate) format: u8,
    pub(crate) inputs: u8,
    pub(crate) degrees: [u8; 3],
    pub(crate) kind: Kind,
    pub(crate) shift: u8,
    pub(crate) zeros: u8,
}
