// The costs from a row's start: its layers run dense, in the place of the kept layers.

#![tactic(auto)]

ghost use Rattle.std.specs.Prelude.{◌≡◌, ◌+◌, ◌*◌};
ghost use Rattle.theory_tables.specs.Steps.{pose_slots};
ghost use Rattle.search_buckets.specs.Ends.{least_poses, least_state, least_states};
ghost use Rattle.search_lanes.specs.Store.{RowsSaid, FilledState, Filled};
ghost use Rattle.search_row.specs.Words.{back_in, deck_in};
ghost use Rattle.search_dense_first.specs.Begun.{PosesGiven, LayerGiven, DenseState};
ghost use Rattle.search_dense_layer.specs.Thin.{thin_in};
ghost use Rattle.search_dense_layer.specs.Kept.{Segment};
ghost use Rattle.search_dense_segment.specs.Opened.{spread_from, comes_in, tall_cost, end_cost, OpenToEnd};
ghost use Rattle.search_dense_segment.specs.Opened.{OpenToTall, OpenToState, SpreadRoom, OpenKept, Opened};

use search_row::Row;

// The layers from the row's start up to layer `end`, each in its place.
fn run_open(store: &mut [u32], row: Row, end: usize)
    requires { Segment row.words.now store.old row.sizes 1 end }
    ensures { OpenKept (deck_in row.entry.words.now row.entry.sizes) row.entry.sizes.reordering end store.old
        store.new }
{
    search_dense_first::open(store, row, search_store::kept_at(1));
    search_dense_layer::segment_kept(store, row, 1, end);
}

// ---- to a tall cell

// Words that stand side by side, to lane 0 of so many rows of a state.
fn spread(store: &mut [u32], from: usize, at: usize, rows: usize)
    requires { SpreadRoom store.old from at rows }
    ensures { RowsSaid (spread_from store.old from) at rows 1 store.old
        store.new }
{
    for a in 0..rows {
        let x = store[from + a];
        search_lanes::put_one(store, at, a, x);
    }
}

// The costs of state q: the words of the layer that it comes to the tall cell with; NONE if it comes with no layer.
fn put_state(store: &mut [u32], row: Row, tall: usize, costs: usize, q: usize)
    requires { OpenToState row.words.now store.old row.sizes tall costs q }
    ensures { FilledState (comes_in row.entry.sizes.reordering tall store.old) 1 costs q row.entry.sizes.poses
        store.old store.new }
{
    let digit = search_row::word(row.words, search_row::STATES + q * 4);
    let all = tall + row.sizes.reordering + 1;
    if all < 1 + digit {
        search_lanes::fill(
            store,
            costs + q * search_store::STATE + search_store::FLAGS,
            row.sizes.poses,
            0,
        );
        return;
    }
    let from = search_store::kept_at(all - digit) + q * search_store::POSE_SLOTS;
    spread(
        store,
        from,
        costs + q * search_store::STATE,
        row.sizes.poses,
    );
}

// The costs of every state.
fn put_states(store: &mut [u32], row: Row, tall: usize, costs: usize)
    requires { OpenToTall row.words.now store.old row.sizes tall costs }
    ensures { Filled (comes_in row.entry.sizes.reordering tall store.old) 1 row.entry.sizes.poses costs
        row.entry.sizes.states store.old store.new }
{
    for q in 0..row.sizes.states {
        put_state(store, row, tall, costs, q);
    }
}

// The costs from the row's start to the tall cell at position `tall`, in lane 0 of the block at `costs`.
pub fn open_to(store: &mut [u32], row: Row, tall: usize, costs: usize)
    requires { OpenToTall row.words.now store.old row.sizes tall costs }
    ensures { Opened (tall_cost (deck_in row.entry.words.now row.entry.sizes) row.entry.sizes.reordering tall) row.entry.sizes.states
        row.entry.sizes.poses costs store.old store.new }
{
    run_open(store, row, tall + row.sizes.reordering + 1);
    put_states(store, row, tall, costs);
}

// ---- to the row's end

// The least of all poses of state q in the layer at `at`; its cell is at
// position k, and each pose pays as the row's last.
fn least_poses(store: &[u32], row: &[u32], at: usize, q: usize, k: usize, poses: usize) -> u32
    requires { PosesGiven row.now store.now (at + q * pose_slots) k poses }
    ensures { result ≡ least_poses (back_in row.now k) (thin_in store.now at) q poses }
{
    let mut x = search_lanes::NONE;
    for a in 0..poses {
        x = x.min(store[at + q * search_store::POSE_SLOTS + a] + search_row::back(row, k, a));
    }
    x
}

// The same, if its cell can be the last.
fn least_state(store: &[u32], row: Row, at: usize, q: usize) -> u32
    requires { DenseState row.words.now store.now row.sizes at q }
    ensures { result
        ≡ least_state (deck_in row.entry.words.now row.entry.sizes) row.entry.sizes.reordering (thin_in store.now at) q }
{
    if !row.is_there(row.sizes.cells, q) {
        return search_lanes::NONE;
    }
    let k = row.last_at(row.sizes.cells, q);
    if row.words[k * search_row::CELL + search_row::TALL] == 1 {
        return search_lanes::NONE;
    }
    least_poses(store, row.words, at, q, k, row.sizes.poses)
}

// The least of all states.
fn least_states(store: &[u32], row: Row, at: usize) -> u32
    requires { LayerGiven row.words.now store.now row.sizes at }
    ensures { result ≡ least_states (deck_in row.entry.words.now row.entry.sizes) row.entry.sizes.reordering
        (thin_in store.now at) row.entry.sizes.states }
{
    let mut x = search_lanes::NONE;
    for q in 0..row.sizes.states {
        x = x.min(least_state(store, row, at, q));
    }
    x
}

// The cost from the row's start to its end, to the word at `costs`; nothing is paid where there is no cell.
pub fn open_end(store: &mut [u32], row: Row, costs: usize)
    requires { OpenToEnd row.words.now store.old row.sizes costs }
    ensures { Opened (end_cost (deck_in row.entry.words.now row.entry.sizes) row.entry.sizes.reordering) 1 1 costs
        store.old store.new }
{
    if row.sizes.cells == 0 {
        search_lanes::put_one(store, costs, 0, 0);
        return;
    }
    run_open(store, row, row.sizes.cells);
    let x = least_states(store, row, search_store::kept_at(row.sizes.cells));
    search_lanes::put_one(store, costs, 0, x);
}
