// The sums of a state of row 0 in a pose: the least over its start states, for each state of row 1 and each lane. Rows
// that are NONE in every lane are passed over: those of cases by their common words, those of costs by their flags.
ghost use Rattle.std.specs.Prelude.{◌≡◌, false, ◌+◌};
ghost use Rattle.search_lanes.specs.Store.{Written};
ghost use Rattle.search_lanes.specs.Lowered.{LoweredAt};
ghost use Rattle.search_join.specs.Sums.{Commons, CommonsGiven, CommonsFrom, word_sum, capped_sum, RowSums};
ghost use Rattle.search_join.specs.Sums.{WaySums, WaysAdded, Sums, SumsFrom, SumsFlags, NoFlags};
ghost use Rattle.search_join.specs.Sums.{SumsGiven, AllSummed};

// A row of lanes for each of twelve states; and from SUM_FLAGS on a flag for each, 0 if its row is NONE in every lane,
// whatever its words. They stand as in the store, so that the laws of its rows serve for both.
pub const SUM_WORDS: usize = 780;

pub const SUM_FLAGS: usize = 768;

// A word for each pair of states: at most each lane of their row of cases, and NONE if those are all NONE.
pub const COMMON_WORDS: usize = 144;

// Case table i, with so many start states and lanes.
#[derive(Clone, Copy)]
pub struct Join {
    pub i: usize,
    pub starts: usize,
    pub lanes: usize,
}

// ---- the rows of cases

// The common words of the rows of start state s.
fn state_commons(commons: &mut [u32; COMMON_WORDS], store: &[u32], join: Join, s: usize)
    requires { CommonsFrom join s store.now commons.old }
    ensures { Commons join store.now commons.new }
{
    for t in 0..join.starts {
        commons[s * 12 + t] = search_lanes::common(
            store,
            search_store::case_at(join.i, s, t),
            join.lanes,
        );
    }
}

// The common words of all rows.
pub fn fill_commons(commons: &mut [u32; COMMON_WORDS], store: &[u32], join: Join)
    requires { CommonsGiven join store.now commons.old }
    ensures { Commons join store.now commons.new }
{
    for s in 0..join.starts {
        state_commons(commons, store, join, s);
    }
}

// ---- the sums

// The first sums of a row: the cases at `at` with the costs at p0. It is not lower_sums over a row of NONE, which would
// have to be filled first: each row would be gone over twice.
fn put_sums(
    sums: &mut [u32; SUM_WORDS],
    to: usize,
    store: &[u32],
    at: usize,
    p0: usize,
    lanes: usize,
)
    requires { RowSums sums.old to store.now at p0 lanes }
    ensures { Written (capped_sum store.now at p0) to lanes sums.old sums.new }
{
    for l in 0..lanes {
        sums[to + l] = search_lanes::lesser(store[at + l] + store[p0 + l], search_lanes::NONE);
    }
}

// The sums of a row lowered to others.
fn lower_sums(
    sums: &mut [u32; SUM_WORDS],
    to: usize,
    store: &[u32],
    at: usize,
    p0: usize,
    lanes: usize,
)
    requires { RowSums sums.old to store.now at p0 lanes }
    ensures { LoweredAt (word_sum store.now at p0) to lanes sums.old sums.new }
{
    for l in 0..lanes {
        sums[to + l] = search_lanes::lesser(sums[to + l], store[at + l] + store[p0 + l]);
    }
}

// The sums of state t with the ways by one row of cases.
fn add_ways(
    sums: &mut [u32; SUM_WORDS],
    t: usize,
    store: &[u32],
    at: usize,
    p0: usize,
    lanes: usize,
)
    requires { WaySums sums.old t store.now at p0 lanes }
    ensures { WaysAdded (word_sum store.now at p0) t lanes sums.old sums.new }
{
    if sums[SUM_FLAGS + t] == 0 {
        put_sums(sums, t * search_store::MAX_LANES, store, at, p0, lanes);
        sums[SUM_FLAGS + t] = 1;
        return;
    }
    lower_sums(sums, t * search_store::MAX_LANES, store, at, p0, lanes);
}

// All sums with the ways from start state s.
fn sums_from(
    sums: &mut [u32; SUM_WORDS],
    commons: &[u32; COMMON_WORDS],
    store: &[u32],
    join: Join,
    s: usize,
    q0: usize,
    a: usize,
)
    requires { SumsFrom join store.now commons.now q0 a s sums.old }
    ensures { Sums join store.now q0 a (s + 1) 0 sums.new }
{
    let costs = search_store::cost_at(0, s, q0, 0);
    if store[costs + search_store::FLAGS + a] == 0 {
        return;
    }
    let p0 = costs + a * search_store::MAX_LANES;
    for t in 0..join.starts {
        if commons[s * 12 + t] < search_lanes::NONE {
            let at = search_store::case_at(join.i, s, t);
            add_ways(sums, t, store, at, p0, join.lanes);
        }
    }
}

// Whether any row of sums has a way.
fn any_sums(sums: &[u32; SUM_WORDS], starts: usize) -> bool
    requires { SumsFlags sums.now starts }
    ensures { result ≡ false → NoFlags starts sums.now }
{
    sums[SUM_FLAGS..SUM_FLAGS + starts]
        .iter()
        .any(|flag| *flag != 0)
}

// The sums over every start state: whether there is any way.
pub fn fill_sums(
    sums: &mut [u32; SUM_WORDS],
    commons: &[u32; COMMON_WORDS],
    store: &[u32],
    join: Join,
    q0: usize,
    a: usize,
) -> bool
    requires { SumsGiven join store.now commons.now q0 a sums.old }
    ensures { AllSummed join store.now q0 a sums.new result }
{
    search_lanes::fill(sums, SUM_FLAGS, join.starts, 0);
    for s in 0..join.starts {
        sums_from(sums, commons, store, join, s, q0, a);
    }
    any_sums(sums, join.starts)
}
