// From plain numbers to a cell.
ghost use Rattle.std.specs.Prelude.{◌≡◌};
ghost use Rattle.enquiry.specs.CellOf.{cell_of};

use mapping::cell::{Cell, Shape};

/// The cell of a shape; the whole box where the shape is outside the limits, which no open region's is.
pub(crate) fn cell_of(shape: Shape) -> Cell
    ensures value { result ≡ cell_of shape }
{
    Cell::new(shape).unwrap_or_else(Cell::whole)
}
