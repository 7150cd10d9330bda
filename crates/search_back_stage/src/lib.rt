// One stage of the traceback in one row: its first layer is made once more from its one start, its layers are
// kept, and the traceback goes back through them.

#![tactic(auto)]

ghost use Rattle.search_row.specs.Words.{deck_in, pos_in};
ghost use Rattle.std.specs.Prelude.{◌≡◌};
ghost use Rattle.search_back_stage.specs.Rows.{start_cells, StartState, StartRoom, Stage, FirstKept, StageNoted};

use search_row::{Row, tall_at};

// A stage in one row: from its start's state in a lane, that is, in a pose, to a state of its tall cell in a pose, or
// to the row's end. Stage 0 reads no start and no lane; they are no Options, as the clause of stage_trace names them.
#[derive(Drop)]
pub struct RowLeg {
    pub stage: usize,
    pub start: usize,
    pub lane: usize,
    pub state: usize,
    pub pose: usize,
}

// How many cells the first layer of a stage has.
fn cells_of(row: Row, stage: usize, s: usize) -> usize
    requires { StartState row.words.now row.sizes stage s }
    ensures { result ≡ start_cells row.entry.sizes.reordering (pos_in row.entry.words.now) stage s }
{
    if stage == 0 {
        return 1;
    }
    let p = tall_at(row.words, stage - 1);
    row.placed_with(p, s) + 1
}

// The first layer of a stage, which has so many cells, kept.
fn put_first(store: &mut [u32], row: Row, stage: usize, s: usize, l: usize, cells: usize)
    requires given { StartRoom row.words.now store.old row.sizes stage s l }
    requires counted { cells ≡ start_cells row.sizes.reordering (pos_in row.words.now) stage s }
    ensures { FirstKept (deck_in row.entry.words.now row.entry.sizes) row.entry.sizes.reordering
        (pos_in row.entry.words.now) stage s l cells store.old store.new }
{
    let to = search_store::kept_at(cells);
    if stage == 0 {
        search_dense_first::open(store, row, to);
        return;
    }
    let p = tall_at(row.words, stage - 1);
    let i = cells - 1;
    search_dense_first::after(store, row, i, s, p, l, to);
}

// Back through a stage to its start; nothing is noted where the stage has no cost.
pub fn stage_trace(store: &mut [u32], path: &mut [u32], row: Row, leg: RowLeg)
    requires { Stage row.words.now store.old path.old row.sizes leg.stage leg.start leg.lane leg.state
        leg.pose }
    ensures { StageNoted (deck_in row.entry.words.now row.entry.sizes) row.entry.sizes.reordering row.entry.sizes.talls
        (pos_in row.entry.words.now) leg.stage leg.start leg.lane leg.state leg.pose store.old
        store.new path.old path.new }
{
    let stage = leg.stage;
    let s = leg.start;
    let q = leg.state;
    let a = leg.pose;
    let i = cells_of(row, stage, s);
    if i > search_store::MAX_KEPT {
        return;
    }
    put_first(store, row, stage, s, leg.lane, i);
    if stage < row.sizes.talls {
        let end = row.placed_with(tall_at(row.words, stage), q);
        if end < i {
            return;
        }
        search_dense_layer::segment_kept(store, row, i, end);
        if store[search_store::kept_at(end) + q * search_store::POSE_SLOTS + a]
            >= search_lanes::NONE
        {
            return;
        }
        search_back_segment::trace(store, path, row, i, end - i, q, a);
        return;
    }
    search_dense_layer::segment_kept(store, row, i, row.sizes.cells);
    search_back_segment::trace_end(store, path, row, i);
}
