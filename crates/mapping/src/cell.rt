// The cell: a dyadic part of the input box.
ghost use Rattle.std.specs.Prelude.{◌≡◌, ℕ, ◌^◌, ◌<◌, ◌≤◌, length};
ghost use Rattle.mapping.specs.Cells.{depth, place};

/// How deep an input may be halved.
pub const DEEPEST: u8 = 10;

/// A part of an input's run from 0 to 1: from place/2^depth to (place + 1)/2^depth. Plain numbers, within no limits.
#[derive(Clone, Copy, PartialEq, Eq, Debug)]
pub struct Part {
    pub depth: u8,
    pub place: u16,
}

/// A part of each input, as plain numbers.
#[derive(Clone, Copy, PartialEq, Eq, Debug)]
pub struct Shape {
    pub parts: [Part; 3],
}

/// A shape within the limits: depths of at most 10, each place below 2^depth. No other cell exists.
#[derive(Clone, Copy, PartialEq, Eq, Debug)]
pub struct Cell {
    pub shape: Shape,
    ghost three: { length shape.parts ≡ 3 },
    ghost shallow: { (v : ℕ) → v < 3 → depth shape v ≤ 10 },
    ghost inside: { (v : ℕ) → v < 3 → place shape v < 2 ^ depth shape v },
}
