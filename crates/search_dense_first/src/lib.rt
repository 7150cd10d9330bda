// The first layer of a segment with one start, dense: state q has POSE_SLOTS words of a block, one for each pose.

#![tactic(auto)]

ghost use Rattle.std.specs.Prelude.{◌≡◌, ◌+◌, ◌*◌, ◌≤◌};
ghost use Rattle.theory_row.specs.Window.{start};
ghost use Rattle.theory_tables.specs.Steps.{marks, first_after, first_open, pose_slots};
ghost use Rattle.search_lanes.specs.Store.{Written};
ghost use Rattle.search_row.specs.Words.{deck_in, StateKnown};
ghost use Rattle.search_dense_first.specs.Firsts.{starts_at};
ghost use Rattle.search_dense_first.specs.Begun.{LayerGiven, AfterTall, Begun};
ghost use Rattle.search_dense_first.specs.Starts.{paid_after, first_pose, first_layer};
ghost use Rattle.search_dense_first.specs.Starts.{PaidGiven, FirstPoses, FirstState, FirstLayer};

use search_row::Row;

// A tall cell at a position, in a pose.
#[derive(Clone, Copy)]
struct Tall {
    cell: usize,
    pose: usize,
}

// What a segment goes on from: how many cells are placed, their marks, and the tall cell that is the last of them, if
// it does not start the row.
#[derive(Clone, Copy)]
struct Start {
    cells: usize,
    marks: u32,
    tall: Option<Tall>,
}

// Whether state q, the last of i cells, can come first after marks m.
pub fn starts(row: Row, i: usize, m: u32, q: usize) -> bool
    requires { StateKnown row.words.now row.sizes.reordering i q }
    ensures { result ≡ starts_at row.entry.sizes.cells row.entry.sizes.reordering i m q }
{
    row.is_there(i, q) && m == row.words[search_row::STATES + q * 4 + 2]
}

// The marks before anything is placed.
pub fn start_marks(r: usize) -> u32
    requires { r ≤ 2 }
    ensures { result ≡ start r }
{
    match r {
        0 => 1,
        1 => 3,
        _ => 7,
    }
}

// What the cell at position k pays in pose a: as its row's first, or after the tall cell.
fn paid(row: &[u32], tall: Option<Tall>, k: usize, a: usize) -> u32
    requires { PaidGiven row.now tall k a }
    ensures { result ≡ paid_after row.now tall k a }
{
    match tall {
        Some(Tall { cell: p, pose: l }) => search_row::toll(row, p, l, k, a),
        None => search_row::front(row, k, a),
    }
}

// The words of a state that can come first: each pose of the cell at position k with what it pays.
fn put_poses(store: &mut [u32], row: &[u32], tall: Option<Tall>, at: usize, k: usize, poses: usize)
    requires { FirstPoses row.now store.old tall at k poses }
    ensures { Written (first_pose row.now tall k) at poses store.old store.new }
{
    for a in 0..poses {
        let cost = row[k * search_row::CELL + a] + paid(row, tall, k, a);
        store[at + a] = cost.min(search_lanes::NONE);
    }
}

// The words of state q of the layer at `to`.
fn put_state(store: &mut [u32], row: Row, start: Start, to: usize, q: usize)
    requires { FirstState row.words.now store.old row.sizes start to q }
    ensures { Written (first_layer row.entry.words.now row.entry.sizes start q) (to + q * pose_slots) row.entry.sizes.poses
        store.old store.new }
{
    let at = to + q * search_store::POSE_SLOTS;
    let i = start.cells + 1;
    if !starts(row, i, start.marks, q) {
        search_lanes::fill(store, at, row.sizes.poses, search_lanes::NONE);
        return;
    }
    let k = row.last_at(i, q);
    put_poses(store, row.words, start.tall, at, k, row.sizes.poses);
}

// The layer with one cell more than the start has.
fn put_layer(store: &mut [u32], row: Row, start: Start, to: usize)
    requires { FirstLayer row.words.now store.old row.sizes start to }
    ensures { Begun (first_layer row.entry.words.now row.entry.sizes start) row.entry.sizes.poses row.entry.sizes.states to
        store.old store.new }
{
    for q in 0..row.sizes.states {
        put_state(store, row, start, to, q);
    }
}

// The layer with one cell.
pub fn open(store: &mut [u32], row: Row, to: usize)
    requires { LayerGiven row.words.now store.old row.sizes to }
    ensures { Begun (first_open (deck_in row.entry.words.now row.entry.sizes) row.entry.sizes.reordering) row.entry.sizes.poses
        row.entry.sizes.states to store.old store.new }
{
    let start = Start {
        cells: 0,
        marks: start_marks(row.sizes.reordering),
        tall: None,
    };
    put_layer(store, row, start, to);
}

// The layer after the cell at position p in pose l, as state s, the last of i placed.
pub fn after(store: &mut [u32], row: Row, i: usize, s: usize, p: usize, l: usize, to: usize)
    requires { AfterTall row.words.now store.old row.sizes i p l to s }
    ensures { Begun
        (first_after (deck_in row.entry.words.now row.entry.sizes) row.entry.sizes.reordering i (marks row.entry.sizes.reordering s) p l)
        row.entry.sizes.poses row.entry.sizes.states to store.old store.new }
{
    let m = row.words[search_row::STATES + s * 4 + 1];
    let start = Start {
        cells: i,
        marks: m,
        tall: Some(Tall { cell: p, pose: l }),
    };
    put_layer(store, row, start, to);
}
