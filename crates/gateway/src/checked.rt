// A record, checked.
ghost use Rattle.std.specs.Prelude.{◌≡◌};
ghost use Rattle.mapping.specs.Records.{record_fault};
ghost use Rattle.gateway.specs.Checked.{number_of};

use mapping::mapping::Mapping;
use mapping::record::read;

/// 0 where the record is accepted, else the number of its first refusal.
#[unsafe(no_mangle)]
pub extern "C" fn rangecheck_record(bytes: &[u8]) -> u32
    ensures value { result ≡ number_of (record_fault bytes.now) }
{
    let mut mapping = Mapping::new();
    // As a number, since C has no other.
    match read(bytes, &mut mapping) {
        Ok(()) => 0,
        Err(fault) => u32::from(fault.number()),
    }
}
