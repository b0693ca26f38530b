//! Figures of the definitions, for sample mappings.
ghost use Rattle.std.specs.Prelude.{◌≡◌, length};
ghost use Rattle.forms.specs.Samples.{figures, Stand};

/// How many figures there are. Each of them is what the definitions give.
pub fn figures() -> usize
    ensures stand { Stand }
    ensures value { result ≡ length figures }
{
    10
}
