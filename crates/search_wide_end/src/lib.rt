// A segment to the row's end, from its first layer, in block 0; all lanes at once.

#![tactic(auto)]

ghost use Rattle.std.specs.Prelude.{◌≡◌, ◌-◌};
ghost use Rattle.search_lanes.specs.Lanes.{Lowered, with_own};
ghost use Rattle.search_lanes.specs.Store.{RowSaid};
ghost use Rattle.search_row.specs.Words.{deck_in};
ghost use Rattle.search_wide_end.specs.Ends.{RunGiven, LastState, LastLayer, LeastGiven, LeastStateGiven};
ghost use Rattle.search_wide_end.specs.Ends.{LeastPosesGiven, LeastPoseGiven, LanesToPut, SegmentToEnd, back_from};
ghost use Rattle.search_wide_end.specs.Ends.{ends_with, least_poses_in, least_state_in, least_states_in};
ghost use Rattle.search_wide_end.specs.Ends.{ends_in, Ran, Ended};

use search_row::Row;
use search_wide_layer::Block;

// On to the layer with all cells placed: the block that it is in. The table that is lent serves all layers.
fn run_on(
    table: &mut [u32; search_store::TABLE],
    store: &mut [u32],
    row: Row,
    lanes: usize,
    i: usize,
) -> usize
    requires { RunGiven table.old row.words.now store.old row.sizes lanes i }
    ensures { Ran (deck_in row.entry.words.now row.entry.sizes) row.entry.sizes.reordering lanes i
        (row.entry.sizes.cells - i) result store.old store.new table.new }
{
    let mut at: usize = 0;
    for cells in i..row.sizes.cells {
        let layer = Block { lanes, cells, at };
        at = search_store::LAYER - at;
        search_wide_layer::step_layer(table, store, row, layer, at);
    }
    at
}

// Whether state q's cell can be the last of the row.
fn ends_with(row: Row, q: usize) -> bool
    requires { LastState row.words.now row.sizes q }
    ensures { result ≡ ends_with row.entry.words.now row.entry.sizes.cells row.entry.sizes.reordering q }
{
    if !row.is_there(row.sizes.cells, q) {
        return false;
    }
    let k = row.last_at(row.sizes.cells, q);
    row.words[k * search_row::CELL + search_row::TALL] != 1
}

// Pose a of a state whose words begin at `at`, in each lane; its cell is at position k, and pays as the row's last.
fn least_pose(
    acc: &mut [u32; search_store::MAX_LANES],
    store: &[u32],
    row: &[u32],
    at: usize,
    k: usize,
    a: usize,
    lanes: usize,
)
    requires { LeastPoseGiven acc.old row.now store.now at k a lanes }
    ensures { Lowered (back_from row.now k store.now at a) lanes acc.old
        acc.new }
{
    if store[at + search_store::FLAGS + a] == 0 {
        return;
    }
    search_lanes::relax(
        acc,
        store,
        at + a * search_store::MAX_LANES,
        search_row::back(row, k, a),
        lanes,
    );
}

// The least of all poses of state q, in each lane; its cell is at position k, and each pose pays as the row's last.
fn least_poses(
    acc: &mut [u32; search_store::MAX_LANES],
    store: &[u32],
    row: &[u32],
    at: usize,
    q: usize,
    k: usize,
    poses: usize,
    lanes: usize,
)
    requires { LeastPosesGiven acc.old row.now store.now at q k poses lanes }
    ensures { Lowered (least_poses_in row.now k store.now at q poses) lanes
        acc.old acc.new }
{
    for a in 0..poses {
        least_pose(acc, store, row, at + q * search_store::STATE, k, a, lanes);
    }
}

// The same, if its cell can be the last.
fn least_state(
    acc: &mut [u32; search_store::MAX_LANES],
    store: &[u32],
    row: Row,
    lanes: usize,
    at: usize,
    q: usize,
)
    requires { LeastStateGiven acc.old row.words.now store.now row.sizes lanes at q }
    ensures { Lowered (least_state_in (deck_in row.entry.words.now row.entry.sizes) row.entry.sizes.reordering
        store.now at q) lanes acc.old acc.new }
{
    if !ends_with(row, q) {
        return;
    }
    let k = row.last_at(row.sizes.cells, q);
    least_poses(acc, store, row.words, at, q, k, row.sizes.poses, lanes);
}

// The least of all states.
fn least_states(
    acc: &mut [u32; search_store::MAX_LANES],
    store: &[u32],
    row: Row,
    lanes: usize,
    at: usize,
)
    requires { LeastGiven acc.old row.words.now store.now row.sizes lanes at }
    ensures { Lowered (least_states_in (deck_in row.entry.words.now row.entry.sizes) row.entry.sizes.reordering
        store.now at row.entry.sizes.states) lanes acc.old acc.new }
{
    for q in 0..row.sizes.states {
        least_state(acc, store, row, lanes, at, q);
    }
}

// A word for each lane, to the first row of the costs.
fn put_lanes(store: &mut [u32], costs: usize, acc: &[u32; search_store::MAX_LANES], lanes: usize)
    requires { LanesToPut store.old costs acc.now lanes }
    ensures { RowSaid (with_own 0 acc.now) costs 0 lanes store.old
        store.new }
{
    search_lanes::put(store, costs, acc, 0, lanes);
    store[costs + search_store::FLAGS] = 1;
}

// The least of the layer with all cells placed, to a row of costs.
fn put_ends(store: &mut [u32], row: Row, lanes: usize, at: usize, costs: usize)
    requires { LastLayer row.words.now store.old row.sizes lanes at costs }
    ensures { RowSaid (ends_in (deck_in row.entry.words.now row.entry.sizes) row.entry.sizes.reordering
        store.old at) costs 0 lanes store.old store.new }
{
    let mut acc = [search_lanes::NONE; search_store::MAX_LANES];
    least_states(&mut acc, store, row, lanes, at);
    put_lanes(store, costs, &acc, lanes);
}

// The costs to the row's end, to the row at `costs`, a word for each lane. If nothing is left to place it is the lane's
// word of `starts`, what its start pays as the row's last; NONE if too much was placed.
pub fn segment_end(
    table: &mut [u32; search_store::TABLE],
    store: &mut [u32],
    row: Row,
    starts: &[u32; search_store::MAX_LANES],
    first: Block,
    costs: usize,
)
    requires { SegmentToEnd table.old row.words.now store.old starts.now row.sizes first costs }
    ensures { Ended (deck_in row.entry.words.now row.entry.sizes) row.entry.sizes.reordering first.lanes first.cells costs
        starts.now store.old store.new table.new }
{
    let lanes = first.lanes;
    let i = first.cells;
    if i > row.sizes.cells + 1 {
        store[costs + search_store::FLAGS] = 0;
        return;
    }
    if i == row.sizes.cells + 1 {
        put_lanes(store, costs, starts, lanes);
        return;
    }
    let at = run_on(table, store, row, lanes, i);
    put_ends(store, row, lanes, at, costs);
}
