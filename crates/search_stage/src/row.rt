// The costs of a stage in one row, from one start state.
ghost use Rattle.std.specs.Prelude.{suc};
ghost use Rattle.search_lanes.specs.Store.{Written};
ghost use Rattle.search_row.specs.Words.{back_in, deck_in, pos_in};
ghost use Rattle.search_dense_first.specs.Begun.{PosesGiven};
ghost use Rattle.search_stage.specs.Stage.{states_at, poses_at, cost_in, end_from, EndGiven, OpenGiven, CostGiven};
ghost use Rattle.search_stage.specs.Stage.{RowCosted, RowMade, RowCost};

use search_row::Row;
use search_wide_layer::Block;

// What the cell at position p pays as the row's last, in each pose.
fn backs(starts: &mut [u32; search_store::MAX_LANES], row: &[u32], p: usize, poses: usize)
    requires { PosesGiven row.now starts.old 0 p poses }
    ensures { Written (back_in row.now p) 0 poses starts.old starts.new }
{
    for l in 0..poses {
        starts[l] = search_row::back(row, p, l);
    }
}

// On from a layer in block 0 to tall cell i or the row's end; `starts` has what the start of each lane pays as
// the last.
fn stage_end(
    table: &mut [u32; search_store::TABLE],
    store: &mut [u32],
    row: Row,
    starts: &[u32; search_store::MAX_LANES],
    i: usize,
    layer: Block,
    costs: usize,
)
    requires { EndGiven table.old row.words.now store.old starts.now row.sizes layer costs }
    ensures { RowMade (end_from (deck_in row.entry.words.now row.entry.sizes) row.entry.sizes.reordering row.entry.sizes.talls
        (pos_in row.entry.words.now) i store.old layer.cells starts.now) layer.lanes
        (states_at row.entry.sizes (suc i)) (poses_at row.entry.sizes (suc i)) costs store.old store.new
        table.new }
{
    if i < row.sizes.talls {
        let p = search_row::tall_at(row.words, i);
        search_wide_segment::segment_to(table, store, row, layer, p, costs);
        return;
    }
    search_wide_end::segment_end(table, store, row, starts, layer, costs);
}

// The costs of stage 0 in a row, to the block at `costs`: from the row's start to the first
// tall cell, or to the row's end if it has none.
fn open_cost(store: &mut [u32], row: Row, costs: usize)
    requires { OpenGiven row.words.now store.old row.sizes costs }
    ensures { RowCosted (cost_in row.entry.words.now row.entry.sizes 0 0) 1 (states_at row.entry.sizes 1) (poses_at row.entry.sizes 1) costs
        store.old store.new }
{
    if row.sizes.talls > 0 {
        let p = search_row::tall_at(row.words, 0);
        search_dense_segment::open_to(store, row, p, costs);
        return;
    }
    search_dense_segment::open_end(store, row, costs);
}

// The costs of stage i in a row from start state s in so many lanes, to the block at `costs`.
pub fn row_cost(
    table: &mut [u32; search_store::TABLE],
    store: &mut [u32],
    row: Row,
    i: usize,
    s: usize,
    lanes: usize,
    costs: usize,
)
    requires { CostGiven table.old row.words.now store.old row.sizes i s lanes costs }
    ensures { RowCost row.entry.words.now row.entry.sizes i s lanes costs store.old store.new
        table.new }
{
    if i == 0 {
        open_cost(store, row, costs);
        return;
    }
    let p = search_row::tall_at(row.words, i - 1);
    let placed = row.placed_with(p, s);
    search_wide_first::first_layer(table, store, row, lanes, placed, s, p);
    let mut starts = [0u32; search_store::MAX_LANES];
    backs(&mut starts, row.words, p, row.sizes.poses);
    let cells = placed + 1;
    let layer = Block {
        lanes,
        cells,
        at: 0,
    };
    stage_end(table, store, row, &starts, i, layer, costs);
}
