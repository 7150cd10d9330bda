// The numbers of a line as a header or a cell, and the tests that their fields are in range.

#![tactic(auto)]

ghost use Rattle.std.specs.Prelude.{◌≡◌, ◌&&◌, cond, ◌+◌, ◌*◌, ◌≤◌, leb, eqb};
ghost use Rattle.std.specs.List.{list_all};
ghost use Rattle.definition.specs.Lists.{all};
ghost use Rattle.definition.specs.Texts.{within};
ghost use Rattle.definition.specs.Job.{layout_size, layout_in_range, header_in_range};
ghost use Rattle.job.specs.Value.{layout_of, layouts_of};
ghost use Rattle.job_ranges.specs.Values.{layout_in, cell_in, header_in, listed};

use job::{Cell, Header, Job, Layout};

// ---- the numbers of a line as a header or a cell

// A header without a weight of its own for filled steps has that of all steps.
pub fn header_of(filled: bool, v: [u32; 24]) -> Header
    ensures { result ≡ header_in filled v }
{
    Header {
        rows: v[0],
        sites: v[1],
        displacement: v[2],
        reordering: v[3],
        step: v[4],
        shift: v[5],
        mirror: v[6],
        swap: v[7],
        filled: if filled { v[8] } else { v[4] },
    }
}

fn layout_at(v: [u32; 24], at: usize) -> Layout
    requires { at ≤ 15 }
    ensures { result ≡ layout_in v at }
{
    let mut heights = [0; 8];
    heights.copy_from_slice(&v[at + 1..at + 9]);
    Layout {
        width: v[at],
        heights,
    }
}

// How many numbers a layout has.
fn layout_size(row: u32) -> usize
    ensures { result ≡ layout_size row }
{
    if row == 2 { 9 } else { 5 }
}

pub fn cell_of(fixed: bool, v: [u32; 24]) -> Cell
    ensures { result ≡ cell_in fixed v }
{
    let row = v[0];
    Cell {
        fixed,
        row,
        given: v[1],
        mirrorable: v[2] == 1,
        layouts: v[3],
        first: layout_at(v, 4),
        second: layout_at(v, 4 + layout_size(row)),
    }
}

// ---- what is in range

fn all_within(least: u32, most: u32, numbers: &[u32]) -> bool
    ensures { result ≡ list_all (within least most) numbers.now }
{
    numbers.iter().all(|n| (least..=most).contains(n))
}

pub fn header_fits(h: Header) -> bool
    ensures { result ≡ header_in_range (listed h) }
{
    let weights = [h.step, h.shift, h.mirror, h.swap, h.filled];
    (1..=2).contains(&h.rows)
        & (1..=Job::MAX_SITES).contains(&h.sites)
        & (h.displacement <= Job::MAX_DISPLACEMENT)
        & (h.reordering <= Job::MAX_REORDERING)
        & all_within(0, Job::MAX_WEIGHT, &weights)
}

pub fn shape_fits(rows: u32, row: u32, layouts: u32) -> bool
    ensures { result ≡ leb row (cond (eqb rows 2) 2 0) && within 1 2 layouts }
{
    let last = if rows == 2 { 2 } else { 0 };
    row <= last && (1..=2).contains(&layouts)
}

pub fn count_fits(count: usize, row: u32, layouts: u32) -> bool
    ensures { result ≡ eqb count (4 + layouts * layout_size row) }
{
    count == 4 + layouts as usize * layout_size(row)
}

fn layout_fits(l: Layout, row: u32) -> bool
    ensures { result ≡ layout_in_range (layout_of row l) }
{
    let heights = if row == 2 { 8 } else { 4 };
    (1..=Layout::MAX_WIDTH).contains(&l.width)
        && all_within(1, Layout::MAX_HEIGHT, &l.heights[..heights])
}

pub fn layouts_fit(c: Cell) -> bool
    ensures { result ≡ all layout_in_range (layouts_of c) }
{
    match c.layouts {
        0 => true,
        1 => layout_fits(c.first, c.row),
        _ => layout_fits(c.first, c.row) && layout_fits(c.second, c.row),
    }
}
