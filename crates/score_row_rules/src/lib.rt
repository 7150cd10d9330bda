// Rules 5, 6 and 8, which are judged along a row: the cells that break them are marked, row after row. A row's order
// lists its cells from left to right.

#![tactic(auto)]

ghost use Rattle.std.specs.Prelude.{◌≡◌};
ghost use Rattle.score_order.specs.Words.{row_in_file, order_in, PlacesFrom};
ghost use Rattle.score_cell_rules.specs.Tests.{ByOrder};
ghost use Rattle.score_cell_rules.specs.Marks.{Added};
ghost use Rattle.score_row_rules.specs.Tests.{near_in, near_any, out_in, out_any};
ghost use Rattle.score_row_rules.specs.Tests.{at_end_in, at_end_any};
ghost use Rattle.score_row_rules.specs.Tests.{Cells, AlongRow, ByRow};

use gap_charge::FORBIDDEN_GAP;
use job::Job;
use score_cell_rules::mark_each;
use score_order::{Stand, row_cells};
use score_words::gap_between;

// Neighbours with one empty site between them.
fn mark_row_gaps(stands: &[Stand], order: &[u32], marks: &mut [bool])
    requires { AlongRow stands.now order.now marks.old }
    ensures { Added (near_in stands.now order.now) marks.old marks.new }
{
    for pair in order.windows(2) {
        let a = pair[0] as usize;
        let b = pair[1] as usize;
        if gap_between(stands[a].end, stands[b].site) == FORBIDDEN_GAP {
            marks[a] = true;
            marks[b] = true;
        }
    }
}

// Rule 5.
pub fn mark_gaps(stands: &[Stand], order0: &[u32], order1: &[u32], marks: &mut [bool])
    requires { ByOrder stands.now order0.now order1.now marks.old }
    ensures { Added (near_any stands.now) marks.old marks.new }
{
    mark_row_gaps(stands, order0, marks);
    mark_row_gaps(stands, order1, marks);
}

// The first place of each cell in a list; the list's length for a cell that is not there.
pub fn places_of(list: &[u32]) -> [u32; Job::MAX_CELLS]
    requires { Cells list.now }
    ensures { PlacesFrom 0 list.now result }
{
    let mut place = [list.len() as u32; Job::MAX_CELLS];
    for i in (0..list.len()).rev() {
        place[list[i] as usize] = i as u32;
    }
    place
}

// Cells of the row that are too far from their place in file order.
fn mark_row_places(stands: &[Stand], row: u32, limit: u32, order: &[u32], marks: &mut [bool])
    requires { ByRow stands.now row order.now marks.old }
    ensures { Added
        (out_in stands.now row limit
        (order_in stands.now row) (row_in_file stands.now row))
        marks.old marks.new }
{
    let mut cells = [0u32; Job::MAX_CELLS];
    let first = row_cells(stands, row, &mut cells);
    let place = places_of(order);
    let rank = places_of(&cells[first..]);
    mark_each(
        marks,
        |k| job::stands(stands[k].row, row) && limit < place[k].abs_diff(rank[k]),
    );
}

// Rule 6.
pub fn mark_places(stands: &[Stand], limit: u32, order0: &[u32], order1: &[u32], marks: &mut [bool])
    requires { ByOrder stands.now order0.now order1.now marks.old }
    ensures { Added (out_any stands.now limit) marks.old marks.new }
{
    mark_row_places(stands, 0, limit, order0, marks);
    mark_row_places(stands, 1, limit, order1, marks);
}

// The first cell with one empty site before it, and the last with one after it. An empty row is free.
fn mark_row_ends(stands: &[Stand], order: &[u32], sites: u32, marks: &mut [bool])
    requires { AlongRow stands.now order.now marks.old }
    ensures { Added (at_end_in stands.now sites order.now) marks.old marks.new }
{
    if order.is_empty() {
        return;
    }
    let first = order[0] as usize;
    let before = gap_between(0, stands[first].site);
    marks[first] |= before == FORBIDDEN_GAP;
    let last = order[order.len() - 1] as usize;
    let after = gap_between(stands[last].end, sites);
    marks[last] |= after == FORBIDDEN_GAP;
}

// Rule 8.
pub fn mark_ends(stands: &[Stand], sites: u32, order0: &[u32], order1: &[u32], marks: &mut [bool])
    requires { ByOrder stands.now order0.now order1.now marks.old }
    ensures { Added (at_end_any stands.now sites)
        marks.old marks.new }
{
    mark_row_ends(stands, order0, sites, marks);
    mark_row_ends(stands, order1, sites, marks);
}
