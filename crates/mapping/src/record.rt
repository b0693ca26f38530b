// The record of a mapping: read into a place that the caller hands over, and written into a buffer.
ghost use Rattle.std.specs.Prelude.{◌≡◌, ◌*◌, ◌<◌, ◌≤◌, ◌++◌, length, take, Ok, Err};
ghost use Rattle.mapping.specs.Bits.{bits_of};
ghost use Rattle.mapping.specs.Listed.{outcome};
ghost use Rattle.mapping.specs.Records.{value_bits, Padded, record_bits, record_fault, Parsed, Filled};

use crate::bits::{BitFault, BitReader};
use crate::fault::RecordFault;
use crate::header::Header;
use crate::mapping::{MOST_TERMS, Mapping};
use crate::terms::count_terms;

/// The next `count` coefficients, with zeros behind them.
fn coefficients(bits: &mut BitReader, count: usize) -> Result<[i32; MOST_TERMS], BitFault>
    requires { count ≤ 64 }
    ensures value { elim result [ Ok cs ↦ Padded count cs × (bits.old ≡ value_bits (take count cs) ++ bits.new) | Err f ↦ length bits.old < 32 * count ] }
{
    let mut values = [0; MOST_TERMS];
    for value in &mut values[..count] {
        *value = bits.take(32)?.cast_signed();
    }
    Ok(values)
}

/// The mapping that `bytes` are the record of.
fn parse(bytes: &[u8]) -> Result<Mapping, RecordFault>
    ensures value { Parsed bytes.now result }
{
    let mut bits = BitReader::new(bytes);
    let header = Header::read(&mut bits)?;
    header.check(bytes.len())?;
    let values = coefficients(&mut bits, count_terms(header.degrees))?;
    Ok(Mapping {
        inputs: header.inputs,
        degrees: header.degrees,
        kind: header.kind,
        shift: header.shift,
        coefficients: values,
    })
}

/// Reads a record into `place`. A refusal leaves the place as it was.
pub fn read(bytes: &[u8], place: &mut Mapping) -> Result<(), RecordFault>
    ensures value { result ≡ outcome tt (record_fault bytes.now) }
    ensures after { Filled bytes.now place.old place.new result }
    ensures back { (m : Mapping) → bits_of bytes.now ≡ record_bits m → (result ≡ Ok tt) × (place.new ≡ m) }
{
    *place = parse(bytes)?;
    Ok(())
}
