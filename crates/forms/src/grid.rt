// Tables over three inputs, as arrays in row-major order, and work along one input after the other. Tables and rows are plain arrays, so each
// function asks for the degree's limit, and for the room.
ghost use Rattle.std.specs.Prelude.{◌≡◌, ℕ, ◌+◌, ◌*◌, ◌<◌, ◌≤◌};
ghost use Rattle.forms.specs.Arrays.{numbers, Turned};
ghost use Rattle.forms.specs.Works.{EachWithin};

use crate::work::RowWork;
use mapping::mapping::MOST_TERMS;

/// The `N + 1` numbers at `start`, `start + stride`, and so on.
fn read_row<const N: usize>(table: &[i64; MOST_TERMS], start: usize, stride: usize) -> [i64; 8]
    requires degree { N < 8 }
    requires within { N * stride + start < 64 }
    ensures value { (k : ℕ) → k < N + 1 → numbers result k ≡ numbers table.now (k * stride + start) }
    ensures size { (b : ℕ) → EachWithin b table.now → EachWithin b result }
{
    let mut row = [0; 8];
    // By index: the numbers stand `stride` apart, and only the first N + 1 of the row's eight places are written.
    for k in 0..N + 1 {
        row[k] = table[k * stride + start];
    }
    row
}

/// Writes the first `N + 1` numbers of a row to the table from `start` on.
fn put_row<const N: usize>(table: &mut [i64; MOST_TERMS], start: usize, row: &[i64; 8])
    requires degree { N < 8 }
    requires within { start + N < 64 }
    ensures new { (k : ℕ) → k < N + 1 → numbers table.new (start + k) ≡ numbers row.now k }
    ensures before { (j : ℕ) → j < start → numbers table.new j ≡ numbers table.old j }
    ensures size { (b : ℕ) → EachWithin b table.old → EachWithin b row.now → EachWithin b table.new }
{
    // Place by place: with `copy_from_slice`, for rows of so few numbers, answers take longer than those of the plain program.
    for (k, x) in row[..=N].iter().enumerate() {
        table[start + k] = *x;
    }
}

/// Works along the first input of a table of `N + 1` blocks of `rows` numbers each, and makes that input the last.
fn turn<const N: usize, W: RowWork<N>>(table: &mut [i64; MOST_TERMS], rows: usize, work: W)
    requires degree { N < 8 }
    requires small { (N + 1) * rows ≤ 64 }
    requires fit { W.fit work N table.old }
    ensures value { Turned N rows (W.done work N) table.old table.new }
    ensures size { W.growth work N table.old table.new }
{
    let before = *table;
    // By number: it says where a row starts, in the blocks that it is read from and in the table that it is written to.
    for start in 0..rows {
        let row = read_row::<N>(&before, start, rows);
        let worked = work.on_row(row);
        put_row::<N>(table, start * (N + 1), &worked);
    }
}

/// The same along an input of degree `n`. The compiler makes a function for each degree; with degree 0 there is nothing to do.
pub(crate) fn along<W>(table: &mut [i64; MOST_TERMS], n: usize, rows: usize, work: W)
where
    W: RowWork<1> + RowWork<2> + RowWork<3> + RowWork<4> + RowWork<5> + RowWork<6> + RowWork<7>,
    requires degree { n < 8 }
    requires small { (n + 1) * rows ≤ 64 }
    requires fit { W.fit work n table.old }
    ensures value { Turned n rows (W.done work n) table.old table.new }
    ensures size { W.growth work n table.old table.new }
{
    // By match: a number that is known when the program runs becomes a const parameter in no other way. The table, its shape and the work
    // are handed on apart: they meet in one call for each input.
    match n {
        0 => {}
        1 => turn::<1, W>(table, rows, work),
        2 => turn::<2, W>(table, rows, work),
        3 => turn::<3, W>(table, rows, work),
        4 => turn::<4, W>(table, rows, work),
        5 => turn::<5, W>(table, rows, work),
        6 => turn::<6, W>(table, rows, work),
        _ => turn::<7, W>(table, rows, work),
    }
}
