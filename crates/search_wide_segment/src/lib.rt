// A segment: from its first layer, in block 0, to a tall cell; all lanes at once. The layers run on
// in the first two blocks of the store by turns; of the last one only the states that come to the tall cell
// with it are computed, straight to the costs.

#![tactic(auto)]

ghost use Rattle.std.specs.Prelude.{◌≡◌, suc, ◌+◌, ◌-◌, eqb};
ghost use Rattle.theory_tables.specs.Steps.{offset};
ghost use Rattle.search_lanes.specs.Store.{FilledState, Filled};
ghost use Rattle.search_row.specs.Words.{deck_in};
ghost use Rattle.search_wide_layer.specs.Loops.{StateMade, LayerMade};
ghost use Rattle.search_wide_segment.specs.Runs.{SegmentToTall, ToTall, Delivering, ToLast};
ghost use Rattle.search_wide_segment.specs.Runs.{StateComing, StateToTall, StateDelivering, StateToLast};
ghost use Rattle.search_wide_segment.specs.Runs.{late_in, delivered, last_in, CostedRun, SegmentCosted};

use search_row::Row;
use search_wide_layer::Block;

// Whether state q comes to the tall cell with the layer of so many cells.
fn comes(row: Row, cells: usize, tall: usize, q: usize) -> bool
    requires { StateComing row.words.now row.sizes.reordering cells tall q }
    ensures { result ≡ eqb (cells + offset row.entry.sizes.reordering q) (tall + suc row.entry.sizes.reordering) }
{
    cells + search_row::word(row.words, search_row::STATES + q * 4)
        == tall + row.sizes.reordering + 1
}

// NONE for state q, if it comes to the tall cell with no layer from this one on.
fn late_state(store: &mut [u32], row: Row, layer: Block, tall: usize, costs: usize, q: usize)
    requires { StateToTall row.words.now store.old row.sizes layer tall costs q }
    ensures { FilledState (late_in row.entry.sizes.reordering layer.cells tall store.old costs)
        layer.lanes costs q row.entry.sizes.poses store.old store.new }
{
    if layer.cells + search_row::word(row.words, search_row::STATES + q * 4)
        <= tall + row.sizes.reordering + 1
    {
        return;
    }
    search_lanes::fill(
        store,
        costs + q * search_store::STATE + search_store::FLAGS,
        row.sizes.poses,
        0,
    );
}

// NONE for every such state: the costs of the others are delivered.
fn fill_late(store: &mut [u32], row: Row, layer: Block, tall: usize, costs: usize)
    requires { ToTall row.words.now store.old row.sizes layer tall costs }
    ensures { Filled (late_in row.entry.sizes.reordering layer.cells tall store.old costs)
        layer.lanes row.entry.sizes.poses costs row.entry.sizes.states store.old store.new }
{
    for q in 0..row.sizes.states {
        late_state(store, row, layer, tall, costs, q);
    }
}

// The costs of state q, if it comes to the tall cell with this layer.
fn deliver_state(store: &mut [u32], row: Row, layer: Block, tall: usize, costs: usize, q: usize)
    requires { StateDelivering row.words.now store.old row.sizes layer tall costs q }
    ensures { FilledState (delivered row.entry.sizes.reordering layer.cells tall store.old layer.at
        costs) layer.lanes costs q row.entry.sizes.poses store.old store.new }
{
    if !comes(row, layer.cells, tall, q) {
        return;
    }
    search_lanes::copy_rows(
        store,
        layer.at + q * search_store::STATE,
        costs + q * search_store::STATE,
        row.sizes.poses,
        layer.lanes,
    );
}

// The costs of every state that comes with this layer.
fn deliver(store: &mut [u32], row: Row, layer: Block, tall: usize, costs: usize)
    requires { Delivering row.words.now store.old row.sizes layer tall costs }
    ensures { Filled (delivered row.entry.sizes.reordering layer.cells tall store.old layer.at costs)
        layer.lanes row.entry.sizes.poses costs row.entry.sizes.states store.old store.new }
{
    for q in 0..row.sizes.states {
        deliver_state(store, row, layer, tall, costs, q);
    }
}

// The layers up to the one with tall + r cells and the costs that come with them; answers the block of the last.
fn run_to(
    table: &mut [u32; search_store::TABLE],
    store: &mut [u32],
    row: Row,
    first: Block,
    tall: usize,
    costs: usize,
) -> usize
    requires { SegmentToTall table.old row.words.now store.old row.sizes first tall costs }
    ensures { CostedRun (deck_in row.entry.words.now row.entry.sizes) row.entry.sizes.reordering first.lanes first.cells
        tall (tall + row.entry.sizes.reordering - first.cells) result costs store.old store.new
        table.new }
{
    fill_late(store, row, first, tall, costs);
    deliver(store, row, first, tall, costs);
    let mut at: usize = 0;
    for cells in first.cells..tall + row.sizes.reordering {
        let layer = Block {
            lanes: first.lanes,
            cells,
            at,
        };
        at = search_store::LAYER - at;
        search_wide_layer::step_layer(table, store, row, layer, at);
        let next = Block {
            lanes: first.lanes,
            cells: cells + 1,
            at,
        };
        deliver(store, row, next, tall, costs);
    }
    at
}

// The costs of state q straight from the layer before, if it comes to the tall cell with the next.
fn last_state(
    table: &mut [u32; search_store::TABLE],
    store: &mut [u32],
    row: Row,
    layer: Block,
    tall: usize,
    costs: usize,
    q: usize,
)
    requires { StateToLast table.old row.words.now store.old row.sizes layer tall costs q }
    ensures { StateMade (last_in (deck_in row.entry.words.now row.entry.sizes) row.entry.sizes.reordering layer.cells tall
        store.old layer.at costs) layer.lanes costs q row.entry.sizes.poses store.old
        store.new table.new }
{
    if !comes(row, layer.cells + 1, tall, q) {
        return;
    }
    search_wide_layer::target_block(table, store, row, layer, costs, q);
}

// The costs of every such state: of the last layer nothing else is wanted.
fn last_layer(
    table: &mut [u32; search_store::TABLE],
    store: &mut [u32],
    row: Row,
    layer: Block,
    tall: usize,
    costs: usize,
)
    requires { ToLast table.old row.words.now store.old row.sizes layer tall costs }
    ensures { LayerMade (last_in (deck_in row.entry.words.now row.entry.sizes) row.entry.sizes.reordering layer.cells tall
        store.old layer.at costs) layer.lanes row.entry.sizes.poses costs row.entry.sizes.states
        store.old store.new table.new }
{
    for q in 0..row.sizes.states {
        last_state(table, store, row, layer, tall, costs, q);
    }
}

// The costs to the tall cell, to the block at `costs`. The table that is lent serves all layers.
pub fn segment_to(
    table: &mut [u32; search_store::TABLE],
    store: &mut [u32],
    row: Row,
    first: Block,
    tall: usize,
    costs: usize,
)
    requires { SegmentToTall table.old row.words.now store.old row.sizes first tall costs }
    ensures { SegmentCosted (deck_in row.entry.words.now row.entry.sizes) row.entry.sizes.reordering first.lanes first.cells
        tall costs store.old store.new table.new }
{
    let at = run_to(table, store, row, first, tall, costs);
    if first.cells > tall + row.sizes.reordering {
        return;
    }
    let layer = Block {
        lanes: first.lanes,
        cells: tall + row.sizes.reordering,
        at,
    };
    last_layer(table, store, row, layer, tall, costs);
}
