// What the Bernstein form does to the rows of a table. A row is a plain array, so the degree's limit is asked for.
ghost use Rattle.std.specs.Prelude.{ℕ, ◌<◌, List, ℤ};
ghost use Rattle.forms.specs.Arrays.{numbers, Holds};
ghost use Rattle.forms.specs.Halving.{Row, mean_down, kept, deep};
ghost use Rattle.forms.specs.Works.{weighed_row, Weighable, Weighed, Halvable, Halved, WorkRules};
ghost use Rattle.forms.specs.WorkLemmas.{weigh_rules, halve_rules};

use crate::casteljau::halve_to;
use crate::weighing::weigh;
use mapping::cell::Part;

/// What is done to each row of a table along one input.
pub(crate) trait Work: Copy {
    /// What becomes of a row of this degree.
    ghost done: { Self → ℕ → Row → Row };

    /// What the numbers must be like.
    ghost fit: { Self → ℕ → List ℤ → Type 0 };

    /// How large the numbers of the second array are, after the work on those of the first.
    ghost growth: { Self → ℕ → List ℤ → List ℤ → Type 0 };

    /// Whoever adds a kind of work shows its rules. Code that works on tables relies on nothing else.
    ghost sound: { (w : Self) → WorkRules (done w) (fit w) (growth w) };
}

/// The same on rows of a degree that the compiler knows.
pub(crate) trait RowWork<const N: usize>: Work {
    fn on_row(self, row: [i64; 8]) -> [i64; 8]
        requires degree { N < 8 }
        requires fit { Self.fit self N row }
        ensures value { Holds N result (Self.done self N (numbers row)) }
        ensures size { Self.growth self N row result };
}

/// Coefficients become numerators of Bernstein coefficients.
#[derive(Clone, Copy)]
pub(crate) struct Weigh;

impl Work for Weigh {
    ghost done = { λ _. weighed_row };

    ghost fit = { λ _. Weighable };

    ghost growth = { λ _. Weighed };

    ghost sound = { λ _. weigh_rules };
}

impl<const N: usize> RowWork<N> for Weigh {
    fn on_row(self, row: [i64; 8]) -> [i64; 8] {
        weigh::<N>(row)
    }
}

/// Numbers of the whole become those of the part.
#[derive(Clone, Copy)]
pub(crate) struct Halve(pub(crate) Part);

impl Work for Halve {
    ghost done = { λ w n. deep (kept mean_down n) w.0.depth w.0.place };

    ghost fit = { λ w. Halvable w.0.depth };

    ghost growth = { λ _. Halved };

    ghost sound = { λ w. halve_rules w.0.depth w.0.place };
}

impl<const N: usize> RowWork<N> for Halve {
    fn on_row(self, row: [i64; 8]) -> [i64; 8] {
        halve_to::<N>(row, self.0)
    }
}
