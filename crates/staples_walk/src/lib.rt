// The walk through the table, from no cells to all: at each step the first site number of row 0's next cell, else of
// row 1's, by which the fewest sites are covered.

#![tactic(auto)]

ghost use Rattle.std.specs.Prelude.{◌≡◌, set, ◌+◌, ◌*◌, ◌<◌};
ghost use Rattle.staples_walk.specs.Steps.{leads_in, FirstLead, LeadAsked, LeadsAsked, StepAsked};
ghost use Rattle.staples_walk.specs.Steps.{OpenAsked, OpenLead};
ghost use Rattle.staples_walk.specs.Taken.{StepTaken};
ghost use Rattle.staples_walk.specs.Walked.{NoteAsked, WalkAsked, Walked};

use staples_table::RowCounts;
use staples_ways::{LastCell, NextCell, Rests};

// How far both rows have come: so many cells, the last at these site numbers.
#[derive(Clone, Copy)]
pub struct Here {
    pub placed0: usize,
    pub number0: usize,
    pub placed1: usize,
    pub number1: usize,
}

// Whose next cell is placed, and at which site number.
#[derive(Clone, Copy)]
pub enum Step {
    Row0(usize),
    Row1(usize),
}

// Whether just so many sites are covered by site number v of a row's next cell.
fn leads(
    store: &[u32],
    row: &[u32],
    next: NextCell,
    own: LastCell,
    other: LastCell,
    rests: Rests,
    fewest: u32,
    v: usize,
) -> bool
    requires { LeadAsked store.now row.now next own other rests v }
    ensures { result ≡ leads_in store.now row.now next own other rests fewest v }
{
    let x = staples_ways::place_of(row, next.placed, v);
    if x < own.end || x == own.end + 1 {
        return false;
    }
    let rest = store[rests.at + v * rests.step];
    staples_ways::way(row, next.cells, next.placed, v, other, rest) == fewest
}

// The first such number.
fn first_lead(
    store: &[u32],
    row: &[u32],
    next: NextCell,
    own: LastCell,
    other: LastCell,
    rests: Rests,
    fewest: u32,
) -> Option<usize>
    requires { LeadsAsked store.now row.now next own other rests }
    ensures { FirstLead (leads_in store.now row.now next own other rests fewest)
        next.numbers result }
{
    (0..next.numbers).find(|v| leads(store, row, next, own, other, rests, fewest, *v))
}

// The same if the row has a next cell.
fn lead_of(
    store: &[u32],
    row: &[u32],
    next: NextCell,
    own: LastCell,
    other: LastCell,
    rests: Rests,
    fewest: u32,
) -> Option<usize>
    requires { OpenAsked store.now row.now next own other rests }
    ensures { OpenLead (leads_in store.now row.now next own other rests fewest) next result }
{
    if next.placed == next.cells {
        return None;
    }
    first_lead(store, row, next, own, other, rests, fewest)
}

// The step from here: row 0's next cell if one of its numbers leads on, else row 1's.
fn next_step(store: &[u32], row0: &[u32], row1: &[u32], counts: RowCounts, here: Here) -> Step
    requires { StepAsked store.now row0.now row1.now counts here }
    ensures { StepTaken row0.now row1.now counts here result }
{
    let numbers = 2 * counts.limit + 1;
    let at = (here.placed0 * 65 + here.placed1) * staples_table::BLOCK;
    let fewest = store[at + here.number0 * staples_ways::NUMBERS + here.number1];
    let last0 = staples_ways::last_of(row0, counts.limit, here.placed0, here.number0);
    let last1 = staples_ways::last_of(row1, counts.limit, here.placed1, here.number1);
    let next0 = NextCell {
        cells: counts.cells0,
        placed: here.placed0,
        numbers,
    };
    let next1 = NextCell {
        cells: counts.cells1,
        placed: here.placed1,
        numbers,
    };
    let rests0 = Rests {
        at: at + staples_table::BLOCKS + here.number1,
        step: staples_ways::NUMBERS,
    };
    let rests1 = Rests {
        at: at + staples_table::BLOCK + here.number0 * staples_ways::NUMBERS,
        step: 1,
    };
    match lead_of(store, row0, next0, last0, last1, rests0, fewest) {
        Some(number) => Step::Row0(number),
        None => Step::Row1(lead_of(store, row1, next1, last1, last0, rests1, fewest).unwrap()),
    }
}

// The site number of the cell at position p.
fn note(noted: &mut [u32], p: usize, number: usize)
    requires { NoteAsked noted.old p number }
    ensures { noted.new ≡ set noted.old p number }
{
    noted[p] = number as u32;
}

// From here to the end of both rows: the site number of each cell that is still to come.
fn walk(
    store: &[u32],
    row0: &[u32],
    row1: &[u32],
    counts: RowCounts,
    here: Here,
    noted0: &mut [u32],
    noted1: &mut [u32],
)
    requires { WalkAsked store.now row0.now row1.now counts here noted0.old noted1.old }
    ensures { Walked row0.now row1.now counts here noted0.old
        noted0.new noted1.old noted1.new }
{
    if here.placed0 + here.placed1 == counts.cells0 + counts.cells1 {
        return;
    }
    match next_step(store, row0, row1, counts, here) {
        Step::Row0(number) => {
            note(noted0, here.placed0, number);
            let on = Here {
                placed0: here.placed0 + 1,
                number0: number,
                ..here
            };
            walk(store, row0, row1, counts, on, noted0, noted1);
        }
        Step::Row1(number) => {
            note(noted1, here.placed1, number);
            let on = Here {
                placed1: here.placed1 + 1,
                number1: number,
                ..here
            };
            walk(store, row0, row1, counts, on, noted0, noted1);
        }
    }
}
