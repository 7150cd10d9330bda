// One layer of the search from the layer before, in all lanes at once. A layer is a block of words: state, pose, lane.
// For each state of the next layer its sources are gathered by their end sites (crate search_wide_buckets),
// and each pose that it may be offered looks up what it needs.

#![tactic(auto)]

ghost use Rattle.std.specs.Prelude.{◌≡◌, false, ℕ, ◌<◌};
ghost use Rattle.search_row.specs.Words.{deck_in};
ghost use Rattle.search_wide_buckets.specs.Table.{GatheredIf, state_in, states_in};
ghost use Rattle.search_wide_layer.specs.Loops.{next_from, buckets_for, Gathering, SourceGathering, Stepping};
ghost use Rattle.search_wide_layer.specs.Loops.{SourceSought, SourcesSought, NoWay, IsWay};
ghost use Rattle.search_wide_layer.specs.Loops.{StateStepping, TargetStepping, StateMade, LayerMade};

use search_buckets::Source;
use search_row::Row;

// A layer in its block: how many lanes and cells it has, and where the block begins.
#[derive(Clone, Copy)]
pub struct Block {
    pub lanes: usize,
    pub cells: usize,
    pub at: usize,
}

// Whether state p of a layer is a source of state q of the next, with a row that has a way.
fn is_way(store: &[u32], row: Row, layer: Block, q: usize, p: usize) -> bool
    requires { SourceSought row.words.now store.now row.sizes layer q p }
    ensures { IsWay row.entry.words.now store.now row.entry.sizes layer q p result }
{
    let at = layer.at + p * search_store::STATE;
    row.is_source(layer.cells, q, p)
        && search_lanes::most(store, at + search_store::FLAGS, row.sizes.poses) != 0
}

// State p of a layer, if it is a source of state q of the next, in so many rows: whether it lowered anything.
fn from_source(
    table: &mut [u32; search_store::TABLE],
    store: &[u32],
    row: Row,
    layer: Block,
    q: usize,
    p: usize,
    rows: usize,
) -> bool
    requires { SourceGathering table.old row.words.now store.now row.sizes layer q p rows }
    ensures { GatheredIf result (state_in store.now row.entry.words.now
        (deck_in row.entry.words.now row.entry.sizes) row.entry.sizes.reordering layer.at layer.cells q p) rows
        (buckets_for row.entry.words.now row.entry.sizes layer q) layer.lanes table.old table.new }
{
    if !is_way(store, row, layer, q, p) {
        return false;
    }
    let left = row.last_at(layer.cells, p);
    let right = row.last_at(layer.cells + 1, q);
    let buckets = search_buckets::buckets_of(row.words, right);
    let mut pays = [0u32; search_buckets::PAY_WORDS];
    search_buckets::fill_pays(&mut pays, row.words, left, right, buckets);
    let at = layer.at + p * search_store::STATE;
    let source = Source {
        at,
        left,
        right,
        buckets,
    };
    search_wide_buckets::from_poses(
        table,
        store,
        row.words,
        &pays,
        source,
        row.sizes.poses,
        rows,
        layer.lanes,
    )
}

// Every source, in so many rows: whether one lowered anything.
fn gather(
    table: &mut [u32; search_store::TABLE],
    store: &[u32],
    row: Row,
    layer: Block,
    q: usize,
    rows: usize,
) -> bool
    requires { Gathering table.old row.words.now store.now row.sizes layer q rows }
    ensures { GatheredIf result (states_in store.now row.entry.words.now
        (deck_in row.entry.words.now row.entry.sizes) row.entry.sizes.reordering layer.at layer.cells q row.entry.sizes.states) rows
        (buckets_for row.entry.words.now row.entry.sizes layer q) layer.lanes table.old table.new }
{
    let mut used = false;
    for p in 0..row.sizes.states {
        if from_source(table, store, row, layer, q, p, rows) {
            used = true;
        }
    }
    used
}

// Whether something comes to state q from a layer.
fn has_way(store: &[u32], row: Row, layer: Block, q: usize) -> bool
    requires { SourcesSought row.words.now store.now row.sizes layer q }
    ensures { result ≡ false → (p : ℕ) → p < row.entry.sizes.states
        → NoWay row.entry.words.now store.now row.entry.sizes layer q p }
{
    (0..row.sizes.states).any(|p| is_way(store, row, layer, q, p))
}

// The rows of state q, whose cell is there: all NONE if nothing leads to it, and those of poses that it is not offered.
// Sources are gathered in the table that is lent, whatever it has.
fn target_rows(
    table: &mut [u32; search_store::TABLE],
    store: &mut [u32],
    row: Row,
    layer: Block,
    to: usize,
    q: usize,
)
    requires { TargetStepping table.old row.words.now store.old row.sizes layer to q }
    ensures { StateMade (next_from (deck_in row.entry.words.now row.entry.sizes) row.entry.sizes.reordering store.old
        layer.at layer.cells) layer.lanes to q row.entry.sizes.poses store.old store.new
        table.new }
{
    let at = to + q * search_store::STATE;
    if !has_way(store, row, layer, q) {
        search_lanes::fill(store, at + search_store::FLAGS, row.sizes.poses, 0);
        return;
    }
    let m = row.last_at(layer.cells + 1, q);
    let buckets = search_buckets::buckets_of(row.words, m);
    let poses = search_wide_buckets::poses_of(row.words, m, row.sizes.poses);
    let rows = search_buckets::rows_of(poses);
    search_wide_buckets::reset(table, buckets, poses, layer.lanes);
    if !gather(table, store, row, layer, q, rows) {
        search_lanes::fill(store, at + search_store::FLAGS, row.sizes.poses, 0);
        return;
    }
    search_wide_buckets::run_up(table, poses, layer.lanes);
    search_wide_buckets::put_rows(store, row.words, table, at, m, poses, buckets, layer.lanes);
    search_lanes::fill(
        store,
        at + search_store::FLAGS + poses,
        row.sizes.poses - poses,
        0,
    );
}

// The block of state q: all NONE if the row has no such cell.
pub fn target_block(
    table: &mut [u32; search_store::TABLE],
    store: &mut [u32],
    row: Row,
    layer: Block,
    to: usize,
    q: usize,
)
    requires { StateStepping table.old row.words.now store.old row.sizes layer to q }
    ensures { StateMade (next_from (deck_in row.entry.words.now row.entry.sizes) row.entry.sizes.reordering store.old
        layer.at layer.cells) layer.lanes to q row.entry.sizes.poses store.old store.new
        table.new }
{
    if !row.is_there(layer.cells + 1, q) {
        search_lanes::fill(
            store,
            to + q * search_store::STATE + search_store::FLAGS,
            row.sizes.poses,
            0,
        );
        return;
    }
    target_rows(table, store, row, layer, to, q);
}

// The layer with one cell more, to the block at `to`.
pub fn step_layer(
    table: &mut [u32; search_store::TABLE],
    store: &mut [u32],
    row: Row,
    layer: Block,
    to: usize,
)
    requires { Stepping table.old row.words.now store.old row.sizes layer to }
    ensures { LayerMade (next_from (deck_in row.entry.words.now row.entry.sizes) row.entry.sizes.reordering store.old
        layer.at layer.cells) layer.lanes row.entry.sizes.poses to row.entry.sizes.states store.old
        store.new table.new }
{
    for q in 0..row.sizes.states {
        target_block(table, store, row, layer, to, q);
    }
}
