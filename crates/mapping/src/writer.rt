// The record writer: the first bytes of a buffer that the caller hands over.
ghost use Rattle.std.specs.Prelude.{◌≡◌, ℕ, ◌*◌, List, length};
ghost use Rattle.mapping.specs.Bits.{bits_of, Bytes};
ghost use Rattle.mapping.specs.Headers.{header_bits};
ghost use Rattle.mapping.specs.Records.{header_for, value_bits, record_bits, written, Written, Begins};

use crate::fault::WriteFault;
use crate::fields::{COEFFICIENT, FORMAT, HEADER};
use crate::mapping::Mapping;
use crate::terms::count_terms;

/// The bytes of the header: each field stands above those that follow it.
fn header_bytes(m: &Mapping) -> [u8; 3]
    ensures bits { bits_of result ≡ header_bits (header_for m.now) }
    ensures len { length result ≡ 3 }
{
    let [first, second, third] = m.degrees;
    let inputs = u32::from(FORMAT) * 4 + u32::from(m.inputs);
    let degrees = ((inputs * 8 + u32::from(first)) * 8 + u32::from(second)) * 8 + u32::from(third);
    let word = ((degrees * 8 + u32::from(m.kind.number())) * 16 + u32::from(m.shift)) * 4;
    let [_, high, middle, low] = word.to_be_bytes();
    [high, middle, low]
}

/// Writes coefficients one after the other, the most significant byte of each first.
fn put_values(out: &mut [u8], values: &[i32])
    requires { length out.old ≡ 4 * length values.now }
    ensures bits { bits_of out.new ≡ value_bits values.now }
{
    // By place: `map` would turn all 64 coefficients, however few there are, and once pieces of `out` were lent out to be written, no
    // more than its length would be known.
    for (k, value) in values.iter().enumerate() {
        let at = COEFFICIENT * k;
        out[at..at + COEFFICIENT].copy_from_slice(&value.to_be_bytes());
    }
}

/// Writes the record of `m` into the first bytes of `out` and answers how many they are. The bytes behind
/// them stay as they were, and so do all where the buffer is shorter than the record.
pub fn write(m: &Mapping, out: &mut [u8]) -> Result<usize, WriteFault>
    ensures value { result ≡ written m.now (length out.old) }
    ensures after { Written m.now out.old out.new result }
    ensures back { (bs : List ℕ) → Bytes bs → bits_of bs ≡ record_bits m.now → Begins bs out.new result }
{
    let terms = count_terms(m.degrees);
    let size = HEADER + COEFFICIENT * terms;
    if out.len() < size {
        return Err(WriteFault::SmallBuffer);
    }
    let (record, _) = out.split_at_mut(size);
    let (header, values) = record.split_at_mut(HEADER);
    header.copy_from_slice(&header_bytes(m));
    put_values(values, &m.coefficients[..terms]);
    Ok(size)
}
