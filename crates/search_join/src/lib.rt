// A stage joined: the costs of both rows on top of one case table make the next, with the source of each case.

#![tactic(auto)]

mod sums;

ghost use Rattle.std.specs.Prelude.{◌≡◌, ◌+◌, ◌<◌, ◌≤◌};
ghost use Rattle.lists.specs.Numbers.{from};
ghost use Rattle.theory_pair.specs.Coded.{lowest};
ghost use Rattle.theory_tables.specs.Steps.{B};
ghost use Rattle.search_lanes.specs.Store.{said_in};
ghost use Rattle.search_join.specs.Tables.{MetAt, OneCase, PoseCases, BlockCases};
ghost use Rattle.search_join.specs.Found.{cost_of, LeastFound, SumFound};
ghost use Rattle.search_join.specs.Tables.{Joined, JoinGiven, StateWith, AllStates, Closing, Closed};
ghost use Rattle.search_join.specs.Sums.{SaidGiven, StartSums, start_sum, LaneSums, lane_sum, end_sum};
ghost use Rattle.search_join.specs.Sums.{EndGiven, EndsGiven, Pointing, WayTo, Joining, least_to};
ghost use Rattle.search_join.specs.Sums.{CaseToPut, Made, CaseRoom, PartMade};

use sums::{COMMON_WORDS, Join, SUM_FLAGS, SUM_WORDS, fill_commons, fill_sums};

// The least of some costs, and a code of where it is.
#[derive(Clone, Copy)]
pub struct Best {
    pub value: u32,
    pub code: u32,
}

// What the store says of a case without a way.
const NO_WAY: Best = Best {
    value: search_lanes::NONE,
    code: 0,
};

// A case: its states in row 0 and row 1, and its pose.
#[derive(Clone, Copy)]
pub struct Case {
    pub q0: usize,
    pub q1: usize,
    pub pose: usize,
}

// The least so far or another cost, whichever is lower; the first if they are equal.
fn better(best: Option<Best>, value: u32, code: u32) -> Option<Best>
    ensures lower { value < cost_of best → result ≡ Some (record { value = value; code = code }) }
    ensures kept { cost_of best ≤ value → result ≡ best }
{
    let old = best.map_or(search_lanes::NONE, |b| b.value);
    if value < old {
        return Some(Best { value, code });
    }
    best
}

// ---- a case: the least over the sums with row 1's costs

// The least over the lanes.
fn least_lane(sums: &[u32; SUM_WORDS], at: usize, store: &[u32], p1: usize, lanes: usize) -> u32
    requires { LaneSums sums.now at store.now p1 lanes }
    ensures { result ≡ lowest B (lane_sum sums.now at store.now p1) (from 0 lanes) }
{
    let mut best = search_lanes::NONE;
    for l in 0..lanes {
        best = search_lanes::lesser(best, sums[at + l] + store[p1 + l]);
    }
    best
}

// The first lane with that sum.
fn lane_of(
    sums: &[u32; SUM_WORDS],
    at: usize,
    store: &[u32],
    p1: usize,
    lanes: usize,
    sum: u32,
) -> Option<usize>
    requires { LaneSums sums.now at store.now p1 lanes }
    ensures { SumFound (lane_sum sums.now at store.now p1) lanes sum result }
{
    for l in 0..lanes {
        if sums[at + l] + store[p1 + l] == sum {
            return Some(l);
        }
    }
    None
}

// What the row of pose a says in a lane, in a state whose words begin at `at`.
fn said(store: &[u32], at: usize, a: usize, l: usize) -> u32
    requires { SaidGiven store.now at a l }
    ensures { result ≡ said_in store.now at a l }
{
    if store[at + search_store::FLAGS + a] == 0 {
        return search_lanes::NONE;
    }
    store[at + a * search_store::MAX_LANES + l]
}

// The first start state of row 0 with that sum to state t in that lane.
fn start_of(
    store: &[u32],
    join: Join,
    q0: usize,
    a: usize,
    t: usize,
    lane: usize,
    sum: u32,
) -> Option<usize>
    requires { StartSums join store.now q0 a t lane }
    ensures { SumFound (start_sum join.i store.now q0 a t lane) join.starts sum result }
{
    for s in 0..join.starts {
        if store[search_store::case_at(join.i, s, t) + lane]
            + said(store, search_store::cost_at(0, s, q0, 0), a, lane)
            == sum
        {
            return Some(s);
        }
    }
    None
}

// The least over the lanes of state t of row 1; NONE where it has no sums or no costs.
fn end_sum(sums: &[u32; SUM_WORDS], store: &[u32], join: Join, t: usize, q1: usize, a: usize) -> u32
    requires { EndGiven join store.now q1 a t sums.now }
    ensures { result ≡ end_sum join.lanes sums.now store.now q1 a t }
{
    if sums[SUM_FLAGS + t] == 0 {
        return search_lanes::NONE;
    }
    let costs = search_store::cost_at(1, t, q1, 0);
    if store[costs + search_store::FLAGS + a] == 0 {
        return search_lanes::NONE;
    }
    let p1 = costs + a * search_store::MAX_LANES;
    least_lane(sums, t * search_store::MAX_LANES, store, p1, join.lanes)
}

// The least over the states of row 1, and the state that has it.
fn best_end(sums: &[u32; SUM_WORDS], store: &[u32], join: Join, q1: usize, a: usize) -> Option<Best>
    requires { EndsGiven join store.now q1 a sums.now }
    ensures { LeastFound
        (lowest B (end_sum join.lanes sums.now store.now q1 a) (from 0 join.starts))
        (MetAt (end_sum join.lanes sums.now store.now q1 a) join.starts) result }
{
    let mut best = None;
    for t in 0..join.starts {
        let sum = end_sum(sums, store, join, t, q1, a);
        best = better(best, sum, t as u32);
    }
    best
}

// The code of a way of that value by state t of row 1.
fn pointer_of(
    sums: &[u32; SUM_WORDS],
    store: &[u32],
    join: Join,
    case: Case,
    t: usize,
    value: u32,
) -> u32
    requires { Pointing join store.now sums.now case t value }
    ensures { WayTo join store.now case value result }
{
    let p1 = search_store::cost_at(1, t, case.q1, case.pose);
    let lane = lane_of(
        sums,
        t * search_store::MAX_LANES,
        store,
        p1,
        join.lanes,
        value,
    )
    .unwrap();
    let at = t * search_store::POINTER_ROW_1 + lane;
    let s = start_of(store, join, case.q0, case.pose, t, lane, sums[at]).unwrap();
    (s * search_store::POINTER_ROW_0 + at) as u32
}

// A case: the least over states and lanes, and the code of a way to it.
fn join_case(
    sums: &[u32; SUM_WORDS],
    live: bool,
    store: &[u32],
    join: Join,
    case: Case,
) -> Option<Best>
    requires { Joining join store.now sums.now live case }
    ensures { LeastFound (least_to join store.now case) (WayTo join store.now case) result }
{
    if !live {
        return None;
    }
    let best = best_end(sums, store, join, case.q1, case.pose)?;
    let t = best.code as usize;
    let code = pointer_of(sums, store, join, case, t, best.value);
    Some(Best { code, ..best })
}

// ---- the cases of a stage

// A case of table i + 1, and its source.
fn put_case(store: &mut [u32], sums: &[u32; SUM_WORDS], live: bool, join: Join, case: Case)
    requires { CaseToPut join store.old sums.now live case }
    ensures { Made join (OneCase case.q0 case.q1 case.pose) store.old
        store.new }
{
    let best = join_case(sums, live, store, join, case).unwrap_or(NO_WAY);
    store[search_store::case_at(join.i + 1, case.q0, case.q1) + case.pose] = best.value;
    store[search_store::pointer_at(join.i + 1, case.q0, case.q1) + case.pose] = best.code;
}

// The cases of a state of row 0 in a pose, for every state of row 1.
fn case_pose(
    store: &mut [u32],
    sums: &mut [u32; SUM_WORDS],
    commons: &[u32; COMMON_WORDS],
    join: Join,
    q0: usize,
    ends: usize,
    a: usize,
)
    requires { CaseRoom join q0 ends (a + 1) store.old sums.old commons.now }
    ensures { PartMade join (PoseCases q0 ends a) store.old store.new sums.new }
{
    let live = fill_sums(sums, commons, store, join, q0, a);
    for q1 in 0..ends {
        let case = Case { q0, q1, pose: a };
        put_case(store, sums, live, join, case);
    }
}

// The cases of a state of row 0, for every state of row 1 and every pose.
fn case_block(
    store: &mut [u32],
    sums: &mut [u32; SUM_WORDS],
    commons: &[u32; COMMON_WORDS],
    join: Join,
    q0: usize,
    ends: usize,
    poses: usize,
)
    requires { CaseRoom join q0 ends poses store.old sums.old commons.now }
    ensures { PartMade join (BlockCases q0 ends poses) store.old store.new
        sums.new }
{
    for a in 0..poses {
        case_pose(store, sums, commons, join, q0, ends, a);
    }
}

// Case table i + 1 from case table i and the costs of a stage. There may be more lanes than
// poses, if no case of table i goes by the others.
pub fn join_stage(
    store: &mut [u32],
    i: usize,
    starts: usize,
    lanes: usize,
    ends: usize,
    poses: usize,
)
    requires { JoinGiven starts lanes ends poses i store.old }
    ensures { Joined starts lanes ends poses i store.old store.new }
{
    let join = Join { i, starts, lanes };
    let mut commons = [0; COMMON_WORDS];
    fill_commons(&mut commons, store, join);
    let mut sums = [0; SUM_WORDS];
    for q0 in 0..ends {
        case_block(store, &mut sums, &commons, join, q0, ends, poses);
    }
}

// ---- lanes closed: no case goes by them

// The lanes from `low` to `high` of table i closed for a state of row 0 with every state of row 1.
fn close_state(store: &mut [u32], i: usize, q0: usize, ends: usize, low: usize, high: usize)
    requires { Closing i (q0 + 1) ends low high store.old }
    ensures { Closed i low high (StateWith q0 ends) store.old store.new }
{
    for t in 0..ends {
        search_lanes::fill(
            store,
            search_store::case_at(i, q0, t) + low,
            high - low,
            search_lanes::NONE,
        );
    }
}

// The same for every state of row 0.
pub fn close_lanes(store: &mut [u32], i: usize, ends: usize, low: usize, high: usize)
    requires { Closing i ends ends low high store.old }
    ensures { Closed i low high (AllStates ends ends) store.old store.new }
{
    for s in 0..ends {
        close_state(store, i, s, ends, low, high);
    }
}
