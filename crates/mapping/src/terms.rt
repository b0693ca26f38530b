// How many coefficients degrees ask for.
ghost use Rattle.std.specs.Prelude.{◌≡◌};
ghost use Rattle.mapping.specs.Terms.{terms};

/// The product of the three numbers degree + 1.
pub(crate) fn count_terms(degrees: [u8; 3]) -> usize
    ensures value { result ≡ terms degrees }
{
    let [first, second, third] = degrees;
    (usize::from(first) + 1) * ((usize::from(second) + 1) * (usize::from(third) + 1))
}
