// Bytes behind their length, as records and jobs stand one after the other in a file.
ghost use Rattle.std.specs.Prelude.{◌≡◌, ◌+◌, ◌<◌, ◌≤◌, length, MatchOption};
ghost use Rattle.mapping.specs.Framed.{announced, framed, beyond};

/// The bytes that the two at the front announce, most significant first, and what follows them; none where not all are there.
pub fn split(bytes: &[u8]) -> Option<(&[u8], &[u8])>
    ensures value { MatchOption result (length bytes.now < 2 + announced bytes.now) (λ p. (2 + announced bytes.now ≤ length bytes.now) × (p.0.now ≡ framed bytes.now) × (p.1.now ≡ beyond bytes.now)) }
{
    let (size, rest) = bytes.split_first_chunk::<2>()?;
    rest.split_at_checked(usize::from(u16::from_be_bytes(*size)))
}
