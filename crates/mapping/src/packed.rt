// A cell in nine bytes.
ghost use Rattle.std.specs.Prelude.{◌≡◌};
ghost use Rattle.mapping.specs.Packed.{pair_at, unpacked};

use crate::cell::{Part, Shape};

/// The bytes of a cell in a list of cells.
pub const PACKED: usize = 9;

/// The part of an input: its depth, and its place in two bytes, most significant first.
fn part(depth: u8, place: [u8; 2]) -> Part
    ensures value { result ≡ record { depth = depth; place = pair_at place 0 } }
{
    Part {
        depth,
        place: u16::from_be_bytes(place),
    }
}

/// Three depths of a byte each, then three places of two bytes each.
impl From<[u8; PACKED]> for Shape {
    ghost from_gives = { λ bytes shape. shape ≡ unpacked bytes };

    #[tactic(auto, unfolding(crate::specs::Packed::unpacked))]
    fn from(bytes: [u8; PACKED]) -> Shape {
        let [d1, d2, d3, a1, b1, a2, b2, a3, b3] = bytes;
        Shape {
            parts: [part(d1, [a1, b1]), part(d2, [a2, b2]), part(d3, [a3, b3])],
        }
    }
}
