// The bit reader: fields of a byte slice, most significant bit first.
ghost use Rattle.std.specs.Prelude.{◌≡◌, ◌≤◌};
ghost use Rattle.mapping.specs.Bits.{bits_of, Taken};

use std::marker::Model;

/// Why a field could not be read.
#[derive(Clone, Copy, PartialEq, Eq, Debug)]
pub enum BitFault {
    /// Fewer bits are left than the field has.
    Ended,
}

/// Bytes that are read as fields of bits. To its callers it is the list of the bits that are left.
#[derive(Drop)]
pub(crate) struct BitReader<'a> {
    /// What is not fetched yet.
    rest: &'a [u8],
    /// The lowest `held` bits are fetched and not yet given out; the others are zero.
    window: u64,
    held: u32,
}

impl<'a> Model for BitReader<'a> {
    ghost use Rattle.std.specs.Prelude.{ℕ, ◌^◌, ◌<◌, List, ◌++◌};
    ghost use Rattle.mapping.specs.Bits.{spell, bits_of};

    ghost Value = { List ℕ };

    ghost view = { λ r. spell r.held r.window ++ bits_of r.rest.now };

    ghost invariant = { λ r. (r.held < 8) × (r.window < 2 ^ r.held) };
}

impl<'a> BitReader<'a> {
    /// A reader at the first bit of `bytes`.
    pub(crate) fn new(bytes: &'a [u8]) -> BitReader<'a>
        ensures value { result ≡ bits_of bytes.now }
    {
        BitReader {
            rest: bytes,
            window: 0,
            held: 0,
        }
    }

    /// The next field of `width` bits. Where fewer are left, nothing is read.
    pub(crate) fn take(&mut self, width: u32) -> Result<u32, BitFault>
        requires { width ≤ 32 }
        ensures value { Taken width self.old result self.new }
    {
        let mut rest = self.rest;
        let mut window = self.window;
        let mut held = self.held;
        while held < width {
            let Some((first, others)) = rest.split_first() else {
                return Err(BitFault::Ended);
            };
            rest = others;
            window = window * 256 + u64::from(*first);
            held += 8;
        }
        let left = held - width;
        let value = window >> left;
        self.rest = rest;
        self.window = window & ((1 << left) - 1);
        self.held = left;
        // By `as`, which is shown to lose nothing: `try_from` would add a refusal that can't come.
        Ok(value as u32)
    }

    /// The next field of at most eight bits.
    pub(crate) fn take_byte(&mut self, width: u32) -> Result<u8, BitFault>
        requires { width ≤ 8 }
        ensures value { Taken width self.old result self.new }
    {
        // By `as`, as in `take`.
        Ok(self.take(width)? as u8)
    }
}
