// The stages of the search: the segment costs of both rows from every start state, joined with the case table before.

#![tactic(auto)]

mod row;

ghost use Rattle.std.specs.Prelude.{◌≡◌, false, ◌≤◌};
ghost use Rattle.search_store.specs.Map.{CaseRow, max_poses};
ghost use Rattle.search_join.specs.Tables.{Table};
ghost use Rattle.search_stage.specs.Stage.{wide, width_of, from_at, LanesAsked, StartAsked, Dead, DeadLanes};
ghost use Rattle.search_stage.specs.Stage.{LanesRun, StagesGiven, StageGiven, StageLanes, StartGiven, RowStart};
ghost use Rattle.search_stage.specs.Stage.{RowsStart, RowsStage, RowsStages};

use row::row_cost;
use search_row::{Row, Rows};

// How many of x states or poses table number i has.
pub fn wide_of(talls: usize, i: usize, x: usize) -> usize
    ensures { result ≡ wide talls i x }
{
    if i == 0 || talls < i { 1 } else { x }
}

// How many lanes a tall cell's table has: a multiple of 16, so that loops over lanes, many at a time, leave no
// rest. No case goes by those beyond the poses.
fn width_of(poses: usize) -> usize
    requires { poses ≤ max_poses }
    ensures { result ≡ width_of poses }
{
    poses.next_multiple_of(16)
}

// How many lanes table number i has in use.
fn lanes_of(talls: usize, i: usize, poses: usize) -> usize
    requires { poses ≤ max_poses }
    ensures { result ≡ wide talls i (width_of poses) }
{
    wide_of(talls, i, width_of(poses))
}

// Where the cases begin in which start state s of a row goes with state t of the other.
fn case_from(side: usize, i: usize, s: usize, t: usize) -> usize
    requires { CaseRow i s t }
    ensures { result ≡ from_at side i s t }
{
    if side == 0 {
        return search_store::case_at(i, s, t);
    }
    search_store::case_at(i, t, s)
}

// Whether some case goes from start state s of a row by a lane from `low` to below `high`.
fn live(
    store: &[u32],
    side: usize,
    i: usize,
    starts: usize,
    s: usize,
    low: usize,
    high: usize,
) -> bool
    requires { StartAsked starts s low high i store.now }
    ensures { result ≡ false → Dead store.now side i starts s low high }
{
    // a `for`: with `any` the proof of what its closure asks did not close
    for t in 0..starts {
        let at = case_from(side, i, s, t) + low;
        if search_lanes::common(store, at, high - low) < search_lanes::NONE {
            return true;
        }
    }
    false
}

// Whether some case of table i goes by a lane from `low` to below `high`.
fn live_lanes(store: &[u32], i: usize, starts: usize, low: usize, high: usize) -> bool
    requires { LanesAsked starts low high i store.now }
    ensures { result ≡ false → DeadLanes store.now i starts low high }
{
    (0..starts).any(|s| live(store, 0, i, starts, s, low, high))
}

// How many of the `width` lanes of table i are run: from the end those that no case goes by are left out, 16 by
// 16, as long as there are more.
fn lanes_in(store: &[u32], i: usize, starts: usize, width: usize) -> usize
    requires { Table starts width i store.now }
    ensures { LanesRun store.now i starts result width }
{
    let mut lanes = width;
    // a `while`: it goes down by 16, and live lanes end it
    while lanes > 16 && !live_lanes(store, i, starts, lanes - 16, lanes) {
        lanes -= 16;
    }
    lanes
}

// The costs of stage i in a row from start state s, in so many lanes, if some case goes from it.
fn cost_start(
    table: &mut [u32; search_store::TABLE],
    store: &mut [u32],
    side: usize,
    row: Row,
    i: usize,
    s: usize,
    lanes: usize,
)
    requires { StartGiven table.old row.words.now store.old side row.sizes i s lanes }
    ensures { RowStart side row.entry.words.now row.entry.sizes i s lanes store.old store.new
        table.new }
{
    let starts = wide_of(row.sizes.talls, i, row.sizes.states);
    if !live(store, side, i, starts, s, 0, lanes) {
        return;
    }
    let costs = search_store::cost_at(side, s, 0, 0);
    row_cost(table, store, row, i, s, lanes, costs);
}

// The costs of stage i in both rows, from every start state in so many lanes.
fn costs(
    table: &mut [u32; search_store::TABLE],
    store: &mut [u32],
    rows: Rows,
    i: usize,
    lanes: usize,
)
    requires { StageLanes table.old rows.row0.now rows.row1.now store.old rows.sizes rows.cells1 i lanes }
    ensures { RowsStart rows.entry.row0.now rows.entry.row1.now rows.entry.sizes rows.entry.cells1 i lanes store.old
        store.new table.new }
{
    let row0 = Row {
        words: rows.row0,
        sizes: rows.sizes,
    };
    let row1 = Row {
        words: rows.row1,
        sizes: search_row::with_cells(rows.sizes, rows.cells1),
    };
    let starts = wide_of(rows.sizes.talls, i, rows.sizes.states);
    for s in 0..starts {
        cost_start(table, store, 0, row0, i, s, lanes);
        cost_start(table, store, 1, row1, i, s, lanes);
    }
}

// Stage i: case table number i + 1 from table number i, whatever the words of the store.
pub fn stage(table: &mut [u32; search_store::TABLE], store: &mut [u32], rows: Rows, i: usize)
    requires { StageGiven table.old rows.row0.now rows.row1.now store.old rows.sizes rows.cells1 i }
    ensures { RowsStage rows.entry.row0.now rows.entry.row1.now rows.entry.sizes rows.entry.cells1 i store.old
        store.new table.new }
{
    let starts = wide_of(rows.sizes.talls, i, rows.sizes.states);
    let lanes = lanes_in(
        store,
        i,
        starts,
        lanes_of(rows.sizes.talls, i, rows.sizes.poses),
    );
    costs(table, store, rows, i, lanes);
    let ends = wide_of(rows.sizes.talls, i + 1, rows.sizes.states);
    let last = wide_of(rows.sizes.talls, i + 1, rows.sizes.poses);
    search_join::join_stage(store, i, starts, lanes, ends, last);
    let width = lanes_of(rows.sizes.talls, i + 1, rows.sizes.poses);
    search_join::close_lanes(store, i + 1, ends, last, width);
}

// Every stage, from the state before anything.
pub fn stages(store: &mut [u32], rows: Rows)
    requires { StagesGiven rows.row0.now rows.row1.now store.old rows.sizes rows.cells1 }
    ensures { RowsStages rows.entry.row0.now rows.entry.row1.now rows.entry.sizes rows.entry.cells1 store.old
        store.new }
{
    let mut table = [0u32; search_store::TABLE];
    let talls = rows.sizes.talls;
    store[search_store::case_at(0, 0, 0)] = 0;
    for i in 0..=talls {
        stage(&mut table, store, rows, i);
    }
}
