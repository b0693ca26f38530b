// A record's header, read field by field and checked.
ghost use Rattle.std.specs.Prelude.{◌≡◌, ◌<◌, ◌++◌, length, Ok, Err};
ghost use Rattle.mapping.specs.Listed.{first_listed, outcome};
ghost use Rattle.mapping.specs.Headers.{header_bits, FitsHeader, header_faults};

use crate::bits::{BitFault, BitReader};
use crate::fault::RecordFault;
use crate::header::Header;
use crate::kind::Kind;
use crate::mapping::MOST_TERMS;
use crate::terms::count_terms;

/// The format of a record.
pub(crate) const FORMAT: u8 = 1;

/// Bytes of a header, and of a coefficient.
pub(crate) const HEADER: usize = 3;

pub(crate) const COEFFICIENT: usize = 4;

impl Header {
    /// The next 24 bits as the fields of a header.
    pub(crate) fn read(bits: &mut BitReader) -> Result<Header, BitFault>
        ensures value { elim result [ Ok h ↦ FitsHeader h × (bits.old ≡ header_bits h ++ bits.new) | Err f ↦ length bits.old < 24 ] }
    {
        let format = bits.take_byte(4)?;
        let inputs = bits.take_byte(2)?;
        let degrees = [bits.take_byte(3)?, bits.take_byte(3)?, bits.take_byte(3)?];
        let Ok(kind) = Kind::try_from(bits.take_byte(3)?) else {
            unreachable()
        };
        let shift = bits.take_byte(4)?;
        let zeros = bits.take_byte(2)?;
        Ok(Header {
            format,
            inputs,
            degrees,
            kind,
            shift,
            zeros,
        })
    }

    /// The first fault of a header in a record of `bytes` bytes.
    pub(crate) fn check(&self, bytes: usize) -> Result<(), RecordFault>
        ensures value { result ≡ outcome tt (first_listed (header_faults self.now bytes)) }
    {
        if self.format != FORMAT {
            return Err(RecordFault::Format);
        }
        if self.inputs == 0 {
            return Err(RecordFault::NoInput);
        }
        let [_, second, third] = self.degrees;
        if self.inputs < 2 && second != 0 || self.inputs < 3 && third != 0 {
            return Err(RecordFault::AbsentDegree);
        }
        if self.zeros != 0 {
            return Err(RecordFault::ZeroBits);
        }
        let terms = count_terms(self.degrees);
        if terms > MOST_TERMS {
            return Err(RecordFault::TooMany);
        }
        if bytes != HEADER + COEFFICIENT * terms {
            return Err(RecordFault::Length);
        }
        Ok(())
    }
}
