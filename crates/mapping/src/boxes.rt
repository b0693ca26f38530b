// Making cells: the whole box, a checked shape, and the halves of a cell.
ghost use Rattle.std.specs.Prelude.{◌≡◌, ◌-◌, ◌<◌, ◌⊎◌, IfSome, MatchOption};
ghost use Rattle.mapping.specs.Cells.{depth, Valid, box, half, Halves};
ghost use Rattle.mapping.specs.Points.{Point, Rational, In};

use crate::cell::{Cell, DEEPEST, Part, Shape};

impl Cell {
    /// The whole box: every input from 0 to 1.
    pub fn whole() -> Cell
        ensures value { result.shape ≡ box }
        ensures holds { (p : Point) → Rational p → In p result.shape }
    {
        Cell {
            shape: Shape {
                parts: [Part { depth: 0, place: 0 }; 3],
            },
        }
    }

    /// The cell of this shape; none where the shape is outside the limits.
    // None, and no `TryFrom` with an error: it would have nothing more to say.
    pub fn new(shape: Shape) -> Option<Cell>
        ensures value { MatchOption result (Valid shape → ⊥) (λ c. c.shape ≡ shape) }
    {
        let outside = |part: &Part| part.depth > DEEPEST || part.place >> part.depth != 0;
        if shape.parts.iter().any(outside) {
            return None;
        }
        Some(Cell { shape })
    }

    /// One half of input `v`, counted from 0: the lower one for side 0, the upper one for side 1.
    fn half(&self, v: usize, side: u16) -> Cell
        requires within { v < 3 }
        requires side { side < 2 }
        requires shallow { depth self.now.shape v < 10 }
        ensures value { result.shape ≡ half self.now.shape v side }
    {
        // The side is a number, since it is added to the place.
        let mut shape = self.shape;
        let Part { depth, place } = shape.parts[v];
        shape.parts[v] = Part {
            depth: depth + 1,
            place: 2 * place + side,
        };
        Cell { shape }
    }

    /// The lower and the upper half along an input, counted from 1; none where there is no such input or
    /// its depth is at its limit. Each point of the cell lies in one of them.
    pub fn halves(&self, input: u8) -> Option<(Cell, Cell)>
        ensures value { MatchOption result (Halves self.now.shape input → ⊥) (λ h. (h.0.shape ≡ half self.now.shape (input - 1) 0) × (h.1.shape ≡ half self.now.shape (input - 1) 1)) }
        ensures holds { IfSome result (λ h. (p : Point) → In p self.now.shape → In p h.0.shape ⊎ In p h.1.shape) }
    {
        let v = usize::from(input).checked_sub(1)?;
        if self.shape.parts.get(v)?.depth >= DEEPEST {
            return None;
        }
        Some((self.half(v, 0), self.half(v, 1)))
    }
}
