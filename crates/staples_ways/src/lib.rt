// A row in file order, cell by cell in layout 0 and unmirrored: where its next cell may stand, and what it and all that
// follow cover anew, after each place of the other row's last cell.

#![tactic(auto)]

ghost use Rattle.std.specs.Prelude.{◌≡◌};
ghost use Rattle.staples_ways.specs.Words.{ok_in, last_cell, way_in, site_of_number, end_of_number};
ghost use Rattle.staples_ways.specs.Ways.{later_by, rests_by, ahead_in, AllToPut, AllPut, AheadAsked, Ahead};
ghost use Rattle.staples_ways.specs.Ways.{ways_in, WayToPut, WayPut, WaysToPut, WaysPut, EndLooks, found_among};
ghost use Rattle.staples_ways.specs.Words.{NumberAt, LastAt, WayAsked};

// So many site numbers a cell can have.
pub const NUMBERS: usize = 15;

// Where a row's last cell starts and ends, with D added.
#[derive(Clone, Copy)]
pub struct LastCell {
    pub start: usize,
    pub end: usize,
}

// Where the cell at position p starts at its site number t.
pub fn place_of(row: &[u32], p: usize, t: usize) -> usize
    requires { NumberAt row.now p t }
    ensures { result ≡ site_of_number row.now p t }
{
    search_row::word(row, p * search_row::CELL + search_row::FIRST) + t
}

// Where it ends.
pub fn past_of(row: &[u32], p: usize, t: usize) -> usize
    requires { NumberAt row.now p t }
    ensures { result ≡ end_of_number row.now p t }
{
    place_of(row, p, t) + search_row::word(row, p * search_row::CELL + search_row::WIDTH)
}

// Whether it may stand there, as one of n cells.
pub fn may_stand(row: &[u32], n: usize, p: usize, t: usize) -> bool
    requires { NumberAt row.now p t }
    ensures { result ≡ ok_in row.now n p t }
{
    row[p * search_row::CELL + 4 * t] < search_lanes::NONE
        && (p + 1 != n
            || past_of(row, p, t)
                != search_row::word(row, p * search_row::CELL + search_row::BACK_BARRED))
}

// The last of p cells at its site number t: the row's left end if there is none.
pub fn last_of(row: &[u32], d: usize, p: usize, t: usize) -> LastCell
    requires { LastAt row.now d p t }
    ensures { result ≡ last_cell row.now d p t }
{
    if p == 0 {
        return LastCell { start: d, end: d };
    }
    LastCell {
        start: place_of(row, p - 1, t),
        end: past_of(row, p - 1, t),
    }
}

// By way of the cell at position p of n, at its site number v: what it covers anew, and what is left then.
pub fn way(row: &[u32], n: usize, p: usize, v: usize, last: LastCell, rest: u32) -> u32
    requires { WayAsked row.now p last rest v }
    ensures { result ≡ way_in row.now n p last rest v }
{
    if !may_stand(row, n, p, v) {
        return search_lanes::NONE;
    }
    let x = place_of(row, p, v);
    if x < last.start {
        return search_lanes::NONE;
    }
    let anew = past_of(row, p, v).saturating_sub(last.end.max(x));
    (anew as u32 + rest).min(search_lanes::NONE)
}

// The words of the ways after one end of the other row's last cell, and of all.
pub const WAYS: usize = 32;

pub const ALL_WAYS: usize = 480;

// Where the least from a number on stands among them.
const LOW_FROM: usize = 15;

// A row's next cell: how many cells the row has, how many are placed, and how many site numbers a cell has.
#[derive(Clone, Copy)]
pub struct NextCell {
    pub cells: usize,
    pub placed: usize,
    pub numbers: usize,
}

// Where stands what is left to be covered after each of its site numbers.
#[derive(Clone, Copy)]
pub struct Rests {
    pub at: usize,
    pub step: usize,
}

// The way x by site number v, after those with greater numbers.
fn put_way(ways: &mut [u32; ALL_WAYS], to: usize, v: usize, x: u32)
    requires { WayToPut ways.old to v x }
    ensures { WayPut to v x ways.old ways.new }
{
    ways[to + v] = x;
    ways[to + LOW_FROM + v] = x.min(ways[to + LOW_FROM + (v + 1)]);
}

// The ways by a row's next cell after the other row's last one: one for each site number, and the least from each on.
fn fill_ways(
    ways: &mut [u32; ALL_WAYS],
    to: usize,
    store: &[u32],
    row: &[u32],
    next: NextCell,
    last: LastCell,
    rests: Rests,
)
    requires { WaysToPut ways.old store.now row.now to next last rests }
    ensures { WaysPut (ways_in store.now row.now next last rests) next.numbers to
        ways.old ways.new }
{
    ways[to + LOW_FROM + next.numbers] = search_lanes::NONE;
    ways[to + LOW_FROM + (next.numbers + 1)] = search_lanes::NONE;
    for v in (0..next.numbers).rev() {
        let rest = store[rests.at + v * rests.step];
        put_way(
            ways,
            to,
            v,
            way(row, next.cells, next.placed, v, last, rest),
        );
    }
}

// What the end a of the cell before finds in them, where the next cell's first site is g.
pub fn found_way(ways: &[u32; ALL_WAYS], to: usize, n: usize, a: usize, g: usize) -> u32
    requires { EndLooks ways.now to n a g }
    ensures { result ≡ found_among ways.now to n a g }
{
    if a + 1 < g {
        return ways[to + LOW_FROM];
    }
    if a + 1 == g {
        return ways[to + LOW_FROM + 1];
    }
    let k = a - g;
    if k >= n {
        return search_lanes::NONE;
    }
    ways[to + k].min(ways[to + LOW_FROM + (k + 2)])
}

// The same after each site number of that cell; `last` is where it stands at its number 0, and what is left stands
// `beside` further on for each number.
fn fill_all(
    ways: &mut [u32; ALL_WAYS],
    store: &[u32],
    row: &[u32],
    next: NextCell,
    last: LastCell,
    rests: Rests,
    beside: usize,
)
    requires { AllToPut ways.old store.now row.now next last rests beside }
    ensures { AllPut (λ u. ways_in store.now row.now next (later_by last u)
        (rests_by rests beside u)) next.numbers next.numbers ways.new }
{
    for u in 0..next.numbers {
        let later = LastCell {
            start: last.start + u,
            end: last.end + u,
        };
        let left = Rests {
            at: rests.at + u * beside,
            step: rests.step,
        };
        fill_ways(ways, u * WAYS, store, row, next, later, left);
    }
}

// The same if there is a next cell, and its first site. All are NONE if there is none, or if it cannot reach the other
// row's last cell.
pub fn ways_ahead(
    ways: &mut [u32; ALL_WAYS],
    store: &[u32],
    row: &[u32],
    next: NextCell,
    last: LastCell,
    rests: Rests,
    beside: usize,
) -> usize
    requires { AheadAsked ways.old store.now row.now next last rests beside }
    ensures { Ahead (ahead_in store.now row.now next last rests beside) row.now
        next result ways.new }
{
    if next.placed == next.cells {
        *ways = [search_lanes::NONE; ALL_WAYS];
        return 0;
    }
    let first = place_of(row, next.placed, 0);
    if first + (next.numbers - 1) < last.start {
        *ways = [search_lanes::NONE; ALL_WAYS];
        return first;
    }
    fill_all(ways, store, row, next, last, rests, beside);
    first
}
