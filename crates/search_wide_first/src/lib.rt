// The first layer of a segment after a tall cell in each of its poses, a lane for each.

#![tactic(auto)]

ghost use Rattle.theory_tables.specs.Steps.{marks};
ghost use Rattle.search_row.specs.Words.{deck_in};
ghost use Rattle.search_buckets.specs.Rows.{one_pose};
ghost use Rattle.search_wide_layer.specs.Loops.{StateMade, LayerMade};
ghost use Rattle.search_wide_first.specs.Firsts.{after_row, after_from, FirstGiven, FirstRows, RowsMade};
ghost use Rattle.search_wide_first.specs.Starts.{StartingLane, StartingLanes, Started, StartedTo, start_in};

use search_row::Row;
use search_wide_layer::Block;

// Lane l of a table lowered to pose l of the cell at position p, where it starts, for the cell at position k.
fn from_start(
    table: &mut [u32; search_store::TABLE],
    row: &[u32],
    pays: &[u32; search_buckets::PAY_WORDS],
    p: usize,
    k: usize,
    rows: usize,
    buckets: usize,
    l: usize,
)
    requires { StartingLane table.old row.now pays.now p k rows buckets l }
    ensures { Started (one_pose row.now p k l 0) rows buckets l table.old
        table.new }
{
    let t = search_buckets::end_row(row, p, l, k);
    if t >= rows {
        return;
    }
    search_wide_buckets::spread_lane(table, 0, pays, l % 4, t, l, buckets);
}

// Every lane: pose l in lane l.
fn from_starts(
    table: &mut [u32; search_store::TABLE],
    row: &[u32],
    p: usize,
    k: usize,
    rows: usize,
    buckets: usize,
    lanes: usize,
)
    requires { StartingLanes table.old row.now p k rows buckets lanes }
    ensures { StartedTo (start_in row.now p k) rows buckets lanes table.old
        table.new }
{
    let mut pays = [0u32; search_buckets::PAY_WORDS];
    search_buckets::fill_pays(&mut pays, row, p, k, buckets);
    for l in 0..lanes {
        from_start(table, row, &pays, p, k, rows, buckets, l);
    }
}

// The rows of a state that can come first: the cell at position k, after each pose of the cell at position p. The
// starts are put in the table that is lent, whatever it has.
fn first_rows(
    table: &mut [u32; search_store::TABLE],
    store: &mut [u32],
    row: &[u32],
    at: usize,
    p: usize,
    k: usize,
    poses: usize,
    lanes: usize,
)
    requires { FirstRows table.old row.now store.old at p k poses lanes }
    ensures { RowsMade (after_row row.now p k) at poses lanes store.old
        store.new table.new }
{
    let buckets = search_buckets::buckets_of(row, k);
    search_wide_buckets::reset(table, buckets, poses, lanes);
    from_starts(
        table,
        row,
        p,
        k,
        search_buckets::rows_of(poses),
        buckets,
        lanes,
    );
    search_wide_buckets::run_up(table, poses, lanes);
    search_wide_buckets::put_rows(store, row, table, at, k, poses, buckets, lanes);
}

// The block of state q, after the i-th cell at position p; `to` has i, and where the layer begins.
fn first_block(
    table: &mut [u32; search_store::TABLE],
    store: &mut [u32],
    row: Row,
    to: Block,
    m: u32,
    p: usize,
    q: usize,
)
    requires { FirstGiven table.old row.words.now store.old row.sizes to.lanes to.cells to.at p q }
    ensures { StateMade (after_from (deck_in row.entry.words.now row.entry.sizes) row.entry.sizes.reordering to.cells m p)
        to.lanes to.at q row.entry.sizes.poses store.old store.new table.new }
{
    if !search_dense_first::starts(row, to.cells + 1, m, q) {
        search_lanes::fill(
            store,
            to.at + q * search_store::STATE + search_store::FLAGS,
            row.sizes.poses,
            0,
        );
        return;
    }
    let k = row.last_at(to.cells + 1, q);
    first_rows(
        table,
        store,
        row.words,
        to.at + q * search_store::STATE,
        p,
        k,
        row.sizes.poses,
        to.lanes,
    );
}

// The layer after the cell at position p as state s, the last of i placed, to block 0: one lane for each of its poses.
pub fn first_layer(
    table: &mut [u32; search_store::TABLE],
    store: &mut [u32],
    row: Row,
    lanes: usize,
    i: usize,
    s: usize,
    p: usize,
)
    requires { FirstGiven table.old row.words.now store.old row.sizes lanes i 0 p s }
    ensures { LayerMade
        (after_from (deck_in row.entry.words.now row.entry.sizes) row.entry.sizes.reordering i (marks row.entry.sizes.reordering s) p) lanes
        row.entry.sizes.poses 0 row.entry.sizes.states store.old store.new table.new }
{
    let m = row.words[search_row::STATES + s * 4 + 1];
    let layer = Block {
        lanes,
        cells: i,
        at: 0,
    };
    for q in 0..row.sizes.states {
        first_block(table, store, row, layer, m, p, q);
    }
}
