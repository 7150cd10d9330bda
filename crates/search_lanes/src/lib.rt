// Loops over the lanes of a row: a row is MAX_LANES words, one for each start of a segment, all at once.

#![tactic(auto)]

ghost use Rattle.std.specs.Prelude.{◌≡◌, ℕ, ◌+◌, ◌*◌, ◌≤◌, ◌<◌, min, length, get_or, replicate};
ghost use Rattle.search_lanes.specs.Lanes.{LaneRow, Lowered, charged, with_own};
ghost use Rattle.search_lanes.specs.Lanes.{always, words_from, always_rows};
ghost use Rattle.search_lanes.specs.Store.{Written, WrittenRows, SignedWords, said_in, RowSaid, RowsSaid, FlagOf};
ghost use Rattle.search_lanes.specs.Store.{WordsToFill, WordsToCopy, RowsToFill};
ghost use Rattle.search_lanes.specs.Store.{RowToCopy, StateToCopy, WordToPut};

// There is no way: every cost is below. A number and no Option, as the store's words are: lanes are added and lowered
// with no test.
pub const NONE: u32 = 268435456;

// The lower of two costs.
pub fn least(x: u32, y: u32) -> u32
    ensures { result ≡ min x y }
{
    x.min(y)
}

// The same for words below 2^31: compared as signed numbers, four lanes at a time take fewer steps.
pub fn lesser(x: u32, y: u32) -> u32
    requires { SignedWords x y }
    ensures { result ≡ min x y }
{
    (x as i32).min(y as i32) as u32
}

// NONE if all lanes of a row are NONE; in any case at most each of them.
pub fn common(row: &[u32], at: usize, lanes: usize) -> u32
    requires { at + lanes ≤ length row.now }
    ensures { (l : ℕ) → l < lanes → result ≤ get_or row.now (at + l) 0 }
{
    let mut x = NONE;
    for word in &row[at..at + lanes] {
        x &= *word;
    }
    x
}

// The greatest of some words, 0 if there is none.
pub fn most(words: &[u32], at: usize, count: usize) -> u32
    requires { at + count ≤ length words.now }
    ensures { (k : ℕ) → k < count → get_or words.now (at + k) 0 ≤ result }
{
    // the chain with iter and max takes up to twice as long at a row's poses
    let mut x = 0;
    for word in &words[at..at + count] {
        x = x.max(*word);
    }
    x
}

// Each lane of `acc` lowered to the row's word plus a charge.
pub fn relax(
    acc: &mut [u32; search_store::MAX_LANES],
    row: &[u32],
    at: usize,
    charge: u32,
    lanes: usize,
)
    requires { LaneRow acc.old row.now at charge lanes }
    ensures { Lowered (charged row.now at charge) lanes acc.old acc.new }
{
    for l in 0..lanes {
        acc[l] = acc[l].min(row[at + l] + charge);
    }
}

// A row from its lanes, each with the cell's own cost, capped.
pub fn put(
    store: &mut [u32],
    at: usize,
    acc: &[u32; search_store::MAX_LANES],
    own: u32,
    lanes: usize,
)
    requires { LaneRow acc.now store.old at own lanes }
    ensures { Written (with_own own acc.now) at lanes store.old store.new }
{
    for l in 0..lanes {
        store[at + l] = (own + acc[l]).min(NONE);
    }
}

// The same word, so many times.
pub fn fill(store: &mut [u32], at: usize, count: usize, x: u32)
    requires { WordsToFill store.old at count x }
    ensures { Written (always x) at count store.old store.new }
{
    // std's fill takes up to twice as long at a row's lanes
    for word in &mut store[at..at + count] {
        *word = x;
    }
}

// Words from one part of the store to another that does not overlap it.
pub fn copy(store: &mut [u32], from: usize, at: usize, count: usize)
    requires { WordsToCopy store.old from at count }
    ensures { Written (words_from store.old from) at count store.old store.new }
{
    // copy_within takes a third longer at a row's lanes
    for k in 0..count {
        store[at + k] = store[from + k];
    }
}

// The same word in the first lanes of so many rows.
pub fn fill_rows(store: &mut [u32], at: usize, rows: usize, lanes: usize, x: u32)
    requires { RowsToFill store.old at rows lanes x }
    ensures { WrittenRows (always_rows x) at rows lanes store.old store.new }
{
    for a in 0..rows {
        fill(store, at + a * search_store::MAX_LANES, lanes, x);
    }
}

// ---- rows with flags

// The flag of a row whose words are at least x: a word of the store, as the row's are.
pub fn flag_of(x: u32) -> u32
    ensures { FlagOf x result }
{
    u32::from(x < NONE)
}

// The row of pose a of a state says x in its first lane.
pub fn put_one(store: &mut [u32], at: usize, a: usize, x: u32)
    requires { WordToPut store.old at a x }
    ensures { RowSaid (always x) at a 1 store.old store.new }
{
    store[at + a * search_store::MAX_LANES] = x;
    store[at + search_store::FLAGS + a] = flag_of(x);
}

// The row of pose a of a state and its flag, to a state that comes after it.
fn copy_row(store: &mut [u32], from: usize, at: usize, a: usize, lanes: usize)
    requires { RowToCopy store.old from at a lanes }
    ensures { RowSaid (said_in store.old from a) at a lanes store.old
        store.new }
{
    let flag = store[from + search_store::FLAGS + a];
    if flag == 0 {
        store[at + search_store::FLAGS + a] = 0;
        return;
    }
    copy(
        store,
        from + a * search_store::MAX_LANES,
        at + a * search_store::MAX_LANES,
        lanes,
    );
    store[at + search_store::FLAGS + a] = flag;
}

// The rows of so many poses.
pub fn copy_rows(store: &mut [u32], from: usize, at: usize, poses: usize, lanes: usize)
    requires { StateToCopy store.old from at poses lanes }
    ensures { RowsSaid (said_in store.old from) at poses lanes store.old
        store.new }
{
    for a in 0..poses {
        copy_row(store, from, at, a, lanes);
    }
}

// Zeros in every word.
pub fn clear(store: &mut [u32])
    ensures { store.new ≡ replicate (length store.old) 0 }
{
    store.fill(0);
}
