//! How a line is spelled.
ghost use Rattle.std.specs.Prelude.{Some};
ghost use Rattle.job.specs.Spelled.{spelled};

use crate::line::Line;
use std::fmt;

impl fmt::Display for Line {
    ghost output = { λ l. Some (spelled l) };

    fn fmt<W: fmt::Write>(&self, f: &mut fmt::Formatter<W>) -> fmt::Result {
        match *self {
            Line::Range(r) => write!(f, "range {} {} {} {}", r.low, r.high, r.slack, r.verdict),
            Line::Halved(count) => write!(f, "halved {count}"),
            Line::Cleared(count) => write!(f, "cleared {count}"),
            Line::Point(low, high) => write!(f, "point {low} {high}"),
            Line::No(denial) => write!(f, "no {denial}"),
            Line::Verdict(verdict) => write!(f, "verdict {verdict}"),
            Line::Leaves(inputs, witness) => {
                let [x, y, z] = witness.at;
                match inputs {
                    1 => write!(f, "verdict leaves {x}"),
                    2 => write!(f, "verdict leaves {x} {y}"),
                    _ => write!(f, "verdict leaves {x} {y} {z}"),
                }
            }
        }
    }
}
