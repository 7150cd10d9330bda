// What is kept of the cells so far, and what one more makes of it.

#![tactic(auto)]

ghost use Rattle.std.specs.Prelude.{◌≡◌, cond, max};
ghost use Rattle.job_tally.specs.Tallies.{held, tally_with, TallyRoom, room, rises};

use job::Job;

// The header's rows, how many cells and tall cells there are, and the largest given site of each row.
#[derive(Clone, Copy)]
pub struct Tally {
    pub rows: u32,
    pub count: usize,
    pub tall: usize,
    pub first: u32,
    pub second: u32,
}

// One more cell finds room.
pub fn has_room(t: Tally, row: u32) -> bool
    ensures { result ≡ room t row }
{
    (t.count < Job::MAX_CELLS) & ((row != 2) | (t.tall < Job::MAX_TALL))
}

// A cell of this row, 2 for both, stands in `row`.
fn stands_in(row: u32, cell: u32) -> bool
    ensures { result ≡ held row cell }
{
    (cell == 2) | (cell == row)
}

// Its given site does not fall.
pub fn does_rise(t: Tally, row: u32, given: u32) -> bool
    ensures { result ≡ rises t row given }
{
    let first = !stands_in(0, row) | (t.first <= given);
    let second = !stands_in(1, row) | (t.second <= given);
    first & second
}

// ---- one more cell

// The largest given site of a row, with one more cell that may stand in it.
fn higher(stands: bool, top: u32, given: u32) -> u32
    ensures { result ≡ max top (cond stands given 0) }
{
    if stands { top.max(given) } else { top }
}

pub fn tally_with(t: Tally, row: u32, given: u32) -> Tally
    requires { TallyRoom t }
    ensures { result ≡ tally_with t row given }
{
    Tally {
        rows: t.rows,
        count: t.count + 1,
        tall: t.tall + usize::from(row == 2),
        first: higher(stands_in(0, row), t.first, given),
        second: higher(stands_in(1, row), t.second, given),
    }
}
