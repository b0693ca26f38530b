// Ends and the register.
ghost use Rattle.std.specs.Prelude.{◌≡◌};
ghost use Rattle.enquiry.specs.InRegister.{wholly_in, wholly_out};

use forms::answer::Answer;
use mapping::mapping::Mapping;

/// Whether no number of the enclosure is outside the register.
#[tactic(auto, using(std::proofs::lemmas::Int::ints), unfolding(crate::specs::InRegister::wholly_in))]
pub(crate) fn wholly_in(mapping: &Mapping, range: Answer) -> bool
    ensures value { result ≡ wholly_in mapping.now range.low range.high }
{
    let register = mapping.register();
    register.low <= range.low && range.high <= register.high
}

/// Whether every number between the ends is above the register, or every one is below it.
#[tactic(auto, using(std::proofs::lemmas::Int::ints), unfolding(crate::specs::InRegister::wholly_out))]
pub(crate) fn wholly_out(mapping: &Mapping, ends: (i64, i64)) -> bool
    ensures value { result ≡ wholly_out mapping.now ends.0 ends.1 }
{
    let (low, high) = ends;
    let register = mapping.register();
    register.high < low || high < register.low
}
