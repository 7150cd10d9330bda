// The map of the lent store: where layers, kept layers, segment costs, cases and back pointers stand. The map is drawn
// in specs/Map.antt; its laws stand in specs/Places.antt.

#![tactic(auto)]

ghost use Rattle.std.specs.Prelude.{◌≡◌, ◌+◌, ◌*◌, ◌≤◌};
ghost use Rattle.search_store.specs.Map.{max_lanes, max_kept, state_block, kept_at, costs_at, case_at, pointer_at};
ghost use Rattle.search_store.specs.Map.{CaseRow, CostRow};

// The words of a row of a table: one for each lane.
pub const MAX_LANES: usize = 64;

// The places for poses in a state of a layer, in a row of cases, and in a code: a state or a position, then a pose.
pub const POSE_SLOTS: usize = 64;

// The words of a state in a layer, and of a layer of twelve states.
pub const STATE: usize = 4096;

pub const LAYER: usize = 49152;

// Where the flags of a state's rows stand in its words, one for each pose: 0 if its row is NONE in every lane,
// whatever its words.
pub const FLAGS: usize = 3840;

// The words of a layer in one lane, how many can be kept, and where the first of them would stand.
pub const KEPT_LAYER: usize = 768;

pub const MAX_KEPT: usize = 66;

const KEPT: usize = 97536;

// Where the pages begin, and the words of a page.
const PAGES: usize = 148992;

const PAGE: usize = 138240;

// In a page: where its cases begin, the words of a pair of states in all tables,
// and how far behind a case its pointer stands.
const CASES: usize = 98304;

const CASE: usize = 1664;

const POINTERS: usize = 19968;

// A pointer counts the states of row 0 in such steps, and those of row 1 in these; the rest is the pose.
pub const POINTER_ROW_0: usize = 768;

pub const POINTER_ROW_1: usize = POSE_SLOTS;

// The rows of a bucket, by the end site of a source, and its words in all lanes.
pub const BUCKET_ROWS: usize = 19;

pub const BUCKET_WORDS: usize = 1216;

// The words of the table in which the sources of a state are gathered: 9 buckets.
pub const TABLE: usize = 10944;

// Where layer i is kept.
pub fn kept_at(i: usize) -> usize
    requires { i ≤ max_kept }
    ensures { result ≡ kept_at i }
{
    KEPT + i * KEPT_LAYER
}

// Where the row of case (q0, q1) of table i begins.
pub fn case_at(i: usize, q0: usize, q1: usize) -> usize
    requires { CaseRow i q0 q1 }
    ensures { result ≡ case_at i q0 q1 }
{
    PAGES + CASES + q0 * PAGE + q1 * CASE + i * POSE_SLOTS
}

// Where the row of its back pointers begins.
pub fn pointer_at(i: usize, q0: usize, q1: usize) -> usize
    requires { CaseRow i q0 q1 }
    ensures { result ≡ pointer_at i q0 q1 }
{
    case_at(i, q0, q1) + POINTERS
}

// Where the costs of start state s to state q in pose a begin, in a row.
pub fn cost_at(row: usize, s: usize, q: usize, a: usize) -> usize
    requires { CostRow row s q a }
    ensures { result ≡ costs_at row s + q * state_block + a * max_lanes }
{
    PAGES + s * PAGE + row * LAYER + q * STATE + a * MAX_LANES
}
