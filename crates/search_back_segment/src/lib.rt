// The traceback through the kept layers of one segment: each entry's source is found again
// by its cost, and each cell passed is noted.

#![tactic(auto)]

ghost use Rattle.std.specs.Prelude.{◌≡◌, ◌+◌, ◌*◌, set};
ghost use Rattle.theory_tables.specs.Steps.{last_at, pose_slots};
ghost use Rattle.search_row.specs.Words.{deck_in};
ghost use Rattle.search_dense_layer.specs.Kept.{kept_in};
ghost use Rattle.search_back_segment.specs.Traces.{First, from_pose, from_state, SourceFits};
ghost use Rattle.search_back_segment.specs.Traces.{PosesBefore, SourceSought, SourceThere, LastAsked, PathCell};
ghost use Rattle.search_back_segment.specs.Traces.{EntrySource, Back, Entry, SegmentTrace, End};
ghost use Rattle.search_back_segment.specs.Traces.{SegmentTraceDone, EndDone, last_of, EndFound};

use search_row::Row;

// A state of a layer, in a pose.
#[derive(Clone, Copy)]
struct Place {
    state: usize,
    pose: usize,
}

// The first pose of the cell at position k by way of which pose a of position m costs `want`.
fn find_pose(
    store: &[u32],
    row: &[u32],
    at: usize,
    k: usize,
    m: usize,
    a: usize,
    poses: usize,
    want: u32,
) -> Option<usize>
    requires { PosesBefore row.now store.now at k m a poses }
    ensures { First (from_pose store.now row.now at k m a) poses want result }
{
    for b in 0..poses {
        if store[at + b] + search_row::toll(row, k, b, m, a) == want {
            return Some(b);
        }
    }
    None
}

// The same of state p of layer i, to state q, if it is a source of it.
fn state_pose(
    store: &[u32],
    row: Row,
    i: usize,
    q: usize,
    a: usize,
    p: usize,
    want: u32,
) -> Option<usize>
    requires { SourceSought row.words.now store.now row.sizes i q a p want }
    ensures { First (from_state (deck_in row.entry.words.now row.entry.sizes) row.entry.sizes.reordering
        (kept_in store.now i) i q a p) row.entry.sizes.poses want result }
{
    if !row.is_source(i, q, p) {
        return None;
    }
    let k = row.last_at(i, p);
    let m = row.last_at(i + 1, q);
    find_pose(
        store,
        row.words,
        search_store::kept_at(i) + p * search_store::POSE_SLOTS,
        k,
        m,
        a,
        row.sizes.poses,
        want,
    )
}

// The first source, state before pose, by way of which state q in pose a costs `want`.
fn find_source(store: &[u32], row: Row, i: usize, q: usize, a: usize, want: u32) -> Place
    requires { SourceThere row.words.now store.now row.sizes i q a want }
    ensures { SourceFits (deck_in row.entry.words.now row.entry.sizes) row.entry.sizes.reordering
        (kept_in store.now i) i q a want result.state result.pose }
{
    for p in 0..row.sizes.states {
        if let Some(b) = state_pose(store, row, i, q, a, p, want) {
            return Place { state: p, pose: b };
        }
    }
    unreachable!()
}

// Where the kept entry of state q in pose a, one layer after layer i, comes from.
fn entry_source(store: &[u32], row: Row, i: usize, q: usize, a: usize) -> Place
    requires { Entry row.words.now store.now row.sizes i q a }
    ensures { EntrySource (deck_in row.entry.words.now row.entry.sizes) row.entry.sizes.reordering store.now i q a
        result.state result.pose }
{
    let own = row.words[row.last_at(i + 1, q) * search_row::CELL + a];
    let cost = store[search_store::kept_at(i + 1) + q * search_store::POSE_SLOTS + a];
    find_source(store, row, i, q, a, cost - own)
}

// Notes state q in pose a as the i-th cell.
fn note(path: &mut [u32], row: Row, i: usize, q: usize, a: usize)
    requires { PathCell row.words.now path.old row.sizes.reordering i q a }
    ensures { path.new ≡ set path.old i (last_at row.entry.sizes.reordering i q * pose_slots + a) }
{
    path[i] = (row.last_at(i, q) * search_store::POSE_SLOTS + a) as u32;
}

// From state q in pose a of the layer d on from layer i back to layer i.
pub fn trace(store: &[u32], path: &mut [u32], row: Row, i: usize, d: usize, q: usize, a: usize)
    requires { SegmentTrace row.words.now store.now path.old row.sizes i d q a }
    ensures { SegmentTraceDone (deck_in row.entry.words.now row.entry.sizes) row.entry.sizes.reordering store.now i d q a
        path.old path.new }
{
    note(path, row, i + d, q, a);
    if d == 0 {
        return;
    }
    let from = entry_source(store, row, i + (d - 1), q, a);
    trace(store, path, row, i, d - 1, from.state, from.pose);
}

// The kept word of state q in pose b with all n cells placed, with what its cell pays as the row's last; NONE if the
// row has no such cell, or it is tall.
fn last_word(store: &[u32], row: Row, q: usize, b: usize) -> u32
    requires { LastAsked row.words.now store.now row.sizes q b }
    ensures { result ≡ last_of (deck_in row.entry.words.now row.entry.sizes) row.entry.sizes.reordering
        (kept_in store.now row.entry.sizes.cells) q b }
{
    if !row.is_there(row.sizes.cells, q) {
        return search_lanes::NONE;
    }
    let k = row.last_at(row.sizes.cells, q);
    if row.words[k * search_row::CELL + search_row::TALL] == 1 {
        return search_lanes::NONE;
    }
    store[search_store::kept_at(row.sizes.cells) + q * search_store::POSE_SLOTS + b]
        + search_row::back(row.words, k, b)
}

// The first of the last cells, state before pose, that has the least cost; None if the row cannot end.
fn find_last(store: &[u32], row: Row) -> Option<Place>
    requires { Back row.words.now store.now row.sizes }
    ensures { EndFound (deck_in row.entry.words.now row.entry.sizes) row.entry.sizes.reordering
        (kept_in store.now row.entry.sizes.cells) result }
{
    let mut best = search_lanes::NONE;
    let mut last = None;
    for q in 0..row.sizes.states {
        for b in 0..row.sizes.poses {
            let x = last_word(store, row, q, b);
            if x < best {
                best = x;
                last = Some(Place { state: q, pose: b });
            }
        }
    }
    last
}

// From the row's end back to layer i; nothing if no cell was left to place, or the row cannot end.
pub fn trace_end(store: &[u32], path: &mut [u32], row: Row, i: usize)
    requires { End row.words.now store.now path.old row.sizes i }
    ensures { EndDone (deck_in row.entry.words.now row.entry.sizes) row.entry.sizes.reordering store.now i
        path.old path.new }
{
    if row.sizes.cells < i {
        return;
    }
    let Some(last) = find_last(store, row) else {
        return;
    };
    let d = row.sizes.cells - i;
    trace(store, path, row, i, d, last.state, last.pose);
}
