// Register kinds: how wide a register is, and whether it is signed.

/// A register kind. A record carries its number, 0 to 7, in the order below.
#[derive(Clone, Copy, PartialEq, Eq, Debug)]
pub enum Kind {
    /// 0 to 255 counts.
    Unsigned8,
    /// −128 to 127 counts.
    Signed8,
    /// 0 to 65,535 counts.
    Unsigned16,
    /// −32,768 to 32,767 counts.
    Signed16,
    /// 0 to 4,095 counts.
    Unsigned12,
    /// −2,048 to 2,047 counts.
    Signed12,
    /// 0 to 16,383 counts.
    Unsigned14,
    /// −8,192 to 8,191 counts.
    Signed14,
}

/// A number that stands for no kind: 8 and more.
#[derive(Clone, Copy, PartialEq, Eq, Debug)]
pub struct UnknownKind(pub u8);
