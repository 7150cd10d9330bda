// The trace: from the last case table's one case back over the back pointers, both rows traced stage by stage.

#![tactic(auto)]

ghost use Rattle.std.specs.Prelude.{◌≡◌, suc, ◌+◌, ◌<◌};
ghost use Rattle.search_join.specs.Tables.{pointers_in};
ghost use Rattle.search_back.specs.Trace.{PointerRoom, CaseFound, LegGiven, Trace, RowsLeg, RowsTrace};
ghost use Rattle.search_back.specs.Scatter.{ScatterGiven, Scattered};

use search_back_stage::RowLeg;
use search_join::Case;
use search_row::{Row, Rows, Sizes};

// A stage in both rows: from the tall cell before it, as a case, to a case of its own.
#[derive(Drop)]
struct Leg {
    stage: usize,
    from: Case,
    to: Case,
}

// A case of a stage.
#[derive(Drop)]
struct Stop {
    stage: usize,
    case: Case,
}

// The back pointer of a case of stage i.
fn pointer(store: &[u32], i: usize, case: Case) -> usize
    requires { PointerRoom i case.q0 case.q1 case.pose store.now }
    ensures { result ≡ pointers_in store.now (suc i) case.q0 case.q1 case.pose }
{
    search_row::word(
        store,
        search_store::pointer_at(i + 1, case.q0, case.q1) + case.pose,
    )
}

// The case that a case of stage i comes from; none where its pointer stands for no case.
fn case_before(store: &[u32], sizes: Sizes, i: usize, case: Case) -> Option<Case>
    requires { PointerRoom i case.q0 case.q1 case.pose store.now }
    ensures { CaseFound (pointers_in store.now (suc i) case.q0 case.q1 case.pose) sizes result }
{
    let c = pointer(store, i, case);
    let from = Case {
        q0: c / search_store::POINTER_ROW_0,
        q1: c % search_store::POINTER_ROW_0 / search_store::POINTER_ROW_1,
        pose: c % search_store::POINTER_ROW_1,
    };
    if from.q0 < sizes.states && from.q1 < sizes.states && from.pose < sizes.poses {
        return Some(from);
    }
    None
}

// Both rows through one stage; row 1 has so many cells.
fn both_trace(store: &mut [u32], path0: &mut [u32], path1: &mut [u32], rows: Rows, leg: Leg)
    requires { LegGiven rows.row0.now rows.row1.now store.old path0.old path1.old rows.sizes rows.cells1 leg.stage
        leg.from.q0 leg.from.q1 leg.from.pose leg.to.q0 leg.to.q1 leg.to.pose }
    ensures { RowsLeg rows.entry.row0.now rows.entry.row1.now rows.entry.sizes rows.entry.cells1 leg.stage leg.from.q0
        leg.from.q1 leg.from.pose leg.to.q0 leg.to.q1 leg.to.pose store.old
        store.new path0.old path0.new path1.old path1.new }
{
    let from = leg.from;
    let to = leg.to;
    let row0 = Row {
        words: rows.row0,
        sizes: rows.sizes,
    };
    let row1 = Row {
        words: rows.row1,
        sizes: search_row::with_cells(rows.sizes, rows.cells1),
    };
    let leg0 = RowLeg {
        stage: leg.stage,
        start: from.q0,
        lane: from.pose,
        state: to.q0,
        pose: to.pose,
    };
    search_back_stage::stage_trace(store, path0, row0, leg0);
    let leg1 = RowLeg {
        stage: leg.stage,
        start: from.q1,
        lane: from.pose,
        state: to.q1,
        pose: to.pose,
    };
    search_back_stage::stage_trace(store, path1, row1, leg1);
}

// From a case of a stage back to the start of both rows; no further where a pointer stands for no case.
fn trace_from(store: &mut [u32], path0: &mut [u32], path1: &mut [u32], rows: Rows, at: Stop)
    requires { Trace rows.row0.now rows.row1.now store.old path0.old path1.old rows.sizes rows.cells1 at.stage
        at.case.q0 at.case.q1 at.case.pose }
    ensures { RowsTrace rows.entry.row0.now rows.entry.row1.now rows.entry.sizes rows.entry.cells1 at.stage at.case.q0
        at.case.q1 at.case.pose store.old store.new path0.old
        path0.new path1.old path1.new }
{
    let i = at.stage;
    let case = at.case;
    if i == 0 {
        let start = Case {
            q0: 0,
            q1: 0,
            pose: 0,
        };
        let leg = Leg {
            stage: 0,
            from: start,
            to: case,
        };
        both_trace(store, path0, path1, rows, leg);
        return;
    }
    let Some(from) = case_before(store, rows.sizes, i, case) else {
        return;
    };
    let leg = Leg {
        stage: i,
        from,
        to: case,
    };
    both_trace(store, path0, path1, rows, leg);
    let stage = i - 1;
    let before = Stop { stage, case: from };
    trace_from(store, path0, path1, rows, before);
}

// From the least cost of all.
pub fn trace(store: &mut [u32], path0: &mut [u32], path1: &mut [u32], rows: Rows)
    requires { Trace rows.row0.now rows.row1.now store.old path0.old path1.old rows.sizes rows.cells1 rows.sizes.talls 0 0 0 }
    ensures { RowsTrace rows.entry.row0.now rows.entry.row1.now rows.entry.sizes rows.entry.cells1 rows.entry.sizes.talls 0 0 0
        store.old store.new path0.old path0.new path1.old
        path1.new }
{
    let last = Stop {
        stage: rows.sizes.talls,
        case: Case {
            q0: 0,
            q1: 0,
            pose: 0,
        },
    };
    trace_from(store, path0, path1, rows, last);
}

// From a row's path to pose numbers by cell number: place by place, the cell there gets the pose number there.

pub fn scatter(out: &mut [u32], path: &[u32], row: &[u32], n: usize)
    requires { ScatterGiven row.now path.now out.old n }
    ensures { Scattered row.now path.now n out.old out.new }
{
    for i in 1..=n {
        let word = path[i];
        let cell = search_row::word(
            row,
            (word / search_store::POSE_SLOTS as u32) as usize * search_row::CELL
                + search_row::NUMBER,
        );
        out[cell] = word % search_store::POSE_SLOTS as u32;
    }
}
