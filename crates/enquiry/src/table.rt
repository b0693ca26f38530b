// The table of open regions: rows of plain numbers.
ghost use Rattle.std.specs.Prelude.{◌≡◌, ◌<◌, ◌≤◌, [], ◌∷◌, ◌++◌, length, slice_set};
ghost use Rattle.std.specs.List.{slice_get, swap_remove};
ghost use Rattle.enquiry.specs.States.{no_row, join_rows};

use crate::answers::join_on;
use forms::answer::Answer;
use mapping::cell::Shape;
use std::marker::Model;

/// The most regions that are open at once.
pub const MOST_REGIONS: usize = 64;

/// An open region: the shape of its cell, its enclosure and its slack.
#[derive(Clone, Copy)]
pub struct Row {
    pub shape: Shape,
    pub answer: Answer,
}

/// The open regions: the first `count` rows. There is no heap here, so the places are fixed.
#[derive(Drop)]
pub struct Table {
    rows: [Row; MOST_REGIONS],
    count: usize,
}

// Clauses see the list of the open regions.
impl Model for Table {
    ghost use Rattle.std.specs.Prelude.{◌≡◌, ◌≤◌, List, length, take};
    ghost use Rattle.enquiry.specs.declared.table.Row.{Row};

    ghost Value = { List Row };

    ghost view = { λ t. take t.count t.rows };

    ghost invariant = { λ t. (length t.rows ≡ 64) × (t.count ≤ 64) };
}

impl Table {
    /// A table with one region.
    pub(crate) fn new(first: Row) -> Table
        ensures value { result ≡ first ∷ [] }
    {
        Table {
            rows: [first; MOST_REGIONS],
            count: 1,
        }
    }

    /// How many regions are open.
    pub(crate) fn len(&self) -> usize
        ensures value { result ≡ length self.now }
        ensures room { result ≤ 64 }
    {
        self.count
    }

    /// The region with this number, counted from 0; none where there is no such region.
    pub(crate) fn get(&self, region: usize) -> Option<Row>
        ensures value { result ≡ slice_get self.now region }
    {
        self.rows[..self.count].get(region).copied()
    }

    /// Rewrites a region.
    // That it is there is asked for, as in `remove`: a call is refused before it comes to this.
    #[tactic(auto, using(crate::proofs::Tables::row_put, crate::proofs::Tables::length_open))]
    pub(crate) fn put(&mut self, region: usize, row: Row)
        requires { region < length self.old }
        ensures after { self.new ≡ slice_set self.old region row }
    {
        let rows = &mut self.rows;
        rows[region] = row;
    }

    /// Adds a region at the end.
    pub(crate) fn push(&mut self, row: Row)
        requires { length self.old < 64 }
        ensures after { self.new ≡ self.old ++ row ∷ [] }
    {
        self.rows[self.count] = row;
        self.count += 1;
    }

    /// Takes a region out: the last one takes its number.
    #[tactic(auto, using(crate::proofs::Tables::row_removed, crate::proofs::Tables::length_open))]
    pub(crate) fn remove(&mut self, region: usize)
        requires { region < length self.old }
        ensures after { self.new ≡ swap_remove self.old region no_row }
    {
        self.count -= 1;
        self.rows[region] = self.rows[self.count];
    }

    /// The hull and the largest slack of what there may be and all open regions.
    pub(crate) fn hull(&self, cleared: Option<Answer>) -> Option<Answer>
        ensures value { result ≡ join_rows cleared self.now }
        ensures room { length self.now ≤ 64 }
    {
        self.rows[..self.count]
            .iter()
            .fold(cleared, |all, row| join_on(all, row.answer))
    }
}
