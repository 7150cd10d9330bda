// Layers of one lane, dense: state q has POSE_SLOTS words of a block, one for each pose. The four variants of a
// site stand side by side, so that four are done at a time. The sources of a target are gathered by their
// end sites in the buckets of crate buckets.

#![tactic(auto)]

ghost use Rattle.std.specs.Prelude.{◌≡◌, suc, ◌+◌, ◌*◌, ◌/◌};
ghost use Rattle.theory_tables.specs.Steps.{last_at};
ghost use Rattle.search_lanes.specs.Lanes.{Lowered};
ghost use Rattle.search_lanes.specs.Store.{Written};
ghost use Rattle.search_row.specs.Words.{deck_in};
ghost use Rattle.search_buckets.specs.Rows.{buckets_in, one_pose, by_poses, one_state, by_states};
ghost use Rattle.search_dense_layer.specs.Thin.{variant_words, empty_buckets, thin_in, poses_at, four_of, spread_of};
ghost use Rattle.search_dense_layer.specs.Thin.{FourSpread, ThinSpread, ThinGathered, FromPoses, FarBucket, RunUp};
ghost use Rattle.search_dense_layer.specs.Thin.{shared, with_apart, found_by, found_of, found_four, ThinLooks};
ghost use Rattle.search_dense_layer.specs.Thin.{ToFour, ToPut, ThinGiven, ThinNext, ThinTarget, ThinGathering};
ghost use Rattle.search_dense_layer.specs.Thin.{ThinFrom, Put, Stepped};
ghost use Rattle.search_dense_layer.specs.Kept.{Segment, SegmentKept};

use search_buckets::Source;
use search_row::Row;

// Four buckets: a word for each variant in every row.
const VARIANT_WORDS: usize = 76;

// A layer in its block: how many cells it has, and where the block begins.
#[derive(Clone, Copy)]
struct Block {
    cells: usize,
    at: usize,
}

// A state of the next layer, whose sources are sought in this one.
#[derive(Clone, Copy)]
struct Sought {
    layer: Block,
    state: usize,
}

// The buckets of a target. Bucket 0 is far, a word for each row; the others have a word for each variant in
// every row, four of them in one array: 1 to 4 near, 5 to 8 apart.
#[derive(Drop)]
struct Buckets {
    near: [u32; VARIANT_WORDS],
    apart: [u32; VARIANT_WORDS],
    far: [u32; search_store::BUCKET_ROWS],
}

// ---- one source

// A source of cost x to row t of four buckets, where it pays the words from p on.
fn lower_four(
    words: &mut [u32; VARIANT_WORDS],
    t: usize,
    x: u32,
    pays: &[u32; search_buckets::PAY_WORDS],
    p: usize,
)
    requires { FourSpread words.old pays.now t x p }
    ensures { Lowered (four_of t x pays.now p) variant_words words.old
        words.new }
{
    for v in 0..4 {
        words[t * 4 + v] = search_lanes::lesser(words[t * 4 + v], x + pays[p + v]);
    }
}

impl Buckets {
    fn empty() -> Buckets
        ensures { result ≡ empty_buckets }
    {
        Buckets {
            near: [search_lanes::NONE; VARIANT_WORDS],
            apart: [search_lanes::NONE; VARIANT_WORDS],
            far: [search_lanes::NONE; search_store::BUCKET_ROWS],
        }
    }

    // A source of cost x to row t of all buckets that are needed, by its variant u.
    fn spread(
        &mut self,
        x: u32,
        pays: &[u32; search_buckets::PAY_WORDS],
        u: usize,
        t: usize,
        needed: usize,
    )
        requires { ThinSpread self.old pays.now x u t needed }
        ensures { ThinGathered (spread_of t x pays.now u) needed self.old self.new }
    {
        self.far[t] = search_lanes::lesser(self.far[t], x);
        lower_four(&mut self.near, t, x, pays, u * 9 + 1);
        if needed == 9 {
            lower_four(&mut self.apart, t, x, pays, u * 9 + 5);
        }
    }

    // Pose b of a source.
    fn from_pose(
        &mut self,
        store: &[u32],
        row: &[u32],
        pays: &[u32; search_buckets::PAY_WORDS],
        source: Source,
        b: usize,
    )
        requires { FromPoses self.old store.now row.now pays.now source (b + 1) }
        ensures { ThinGathered (one_pose row.now source.left source.right b
            (poses_at store.now source.at b)) source.buckets self.old self.new }
    {
        let x = store[source.at + b];
        if x >= search_lanes::NONE {
            return;
        }
        let t = search_buckets::end_row(row, source.left, b, source.right);
        if t >= search_store::BUCKET_ROWS {
            return;
        }
        self.spread(x, pays, b % 4, t, source.buckets);
    }

    // All its poses.
    fn from_poses(
        &mut self,
        store: &[u32],
        row: &[u32],
        pays: &[u32; search_buckets::PAY_WORDS],
        source: Source,
        poses: usize,
    )
        requires { FromPoses self.old store.now row.now pays.now source poses }
        ensures { ThinGathered (by_poses row.now source.left source.right
            (poses_at store.now source.at) poses) source.buckets self.old self.new }
    {
        for b in 0..poses {
            self.from_pose(store, row, pays, source, b);
        }
    }

    // State p of a layer, if it is a source of the state that is sought.
    fn from_source(&mut self, store: &[u32], row: Row, sought: Sought, p: usize)
        requires { ThinFrom self.old row.words.now store.now row.sizes sought.layer.cells sought.layer.at
            sought.state p }
        ensures { let words = row.entry.words.now in let z = row.entry.sizes in let l = sought.layer in
            ThinGathered (one_state words (deck_in words z) z.reordering (thin_in store.now l.at) l.cells sought.state p)
            (buckets_in words (last_at z.reordering (suc l.cells) sought.state)) self.old self.new }
    {
        if !row.is_source(sought.layer.cells, sought.state, p) {
            return;
        }
        let k = row.last_at(sought.layer.cells, p);
        let m = row.last_at(sought.layer.cells + 1, sought.state);
        let buckets = search_buckets::buckets_of(row.words, m);
        let mut pay = [0u32; search_buckets::PAY_WORDS];
        search_buckets::fill_pays(&mut pay, row.words, k, m, buckets);
        let at = sought.layer.at + p * search_store::POSE_SLOTS;
        let source = Source {
            at,
            left: k,
            right: m,
            buckets,
        };
        self.from_poses(store, row.words, &pay, source, row.sizes.poses);
    }

    // Every source.
    fn gather(&mut self, store: &[u32], row: Row, sought: Sought)
        requires { ThinGathering self.old row.words.now store.now row.sizes sought.layer.cells
            sought.layer.at sought.state }
        ensures { let words = row.entry.words.now in let z = row.entry.sizes in let l = sought.layer in
            ThinGathered (by_states words (deck_in words z) z.reordering (thin_in store.now l.at) l.cells sought.state
            z.states) (buckets_in words (last_at z.reordering (suc l.cells) sought.state)) self.old self.new }
    {
        for p in 0..row.sizes.states {
            self.from_source(store, row, sought, p);
        }
    }
}

// ---- what a pose finds

impl Buckets {
    // Each row of bucket 0, as far as some pose looks, lowered to all rows before it.
    fn run_up(&mut self)
        requires { FarBucket self.old.far }
        ensures { RunUp self.old self.new }
    {
        for t in 0..14 {
            self.far[t + 1] = search_lanes::lesser(self.far[t + 1], self.far[t]);
        }
    }

    // The words that are read for gaps 2 and 3. Where not all buckets are needed, one weight serves for all gaps:
    // those of gap 0 do.
    fn apart_or_near(&self, needed: usize) -> &[u32; VARIANT_WORDS]
        ensures { with_apart result.now self.now ≡ shared needed self.now }
    {
        if needed == 9 { &self.apart } else { &self.near }
    }

    // What the pose at site e in variant v finds: at gaps 0, 2 and 3, and further left.
    fn found(&self, apart: &[u32; VARIANT_WORDS], e: usize, v: usize) -> u32
        requires { ThinLooks (with_apart apart.now self.now) e v }
        ensures { result ≡ found_by (with_apart apart.now self.now) e v }
    {
        let between = search_lanes::lesser(apart[(e + 2) * 4 + v], apart[(e + 1) * 4 + v]);
        search_lanes::lesser(
            search_lanes::lesser(self.near[(e + 4) * 4 + v], between),
            self.far[e],
        )
    }

    // What the four poses at site e of the cell at position k find, with the cell's own cost, capped.
    // A pose that is not offered comes out NONE.
    fn found_four(
        &self,
        words: &mut [u32; 4],
        row: &[u32],
        apart: &[u32; VARIANT_WORDS],
        k: usize,
        e: usize,
    )
        requires { ToFour (with_apart apart.now self.now) row.now words.old k e }
        ensures { Written (found_four row.now (with_apart apart.now self.now) k e) 0 4 words.old words.new }
    {
        for v in 0..4 {
            let x = row[k * search_row::CELL + (e * 4 + v)] + self.found(apart, e, v);
            words[v] = search_lanes::lesser(x, search_lanes::NONE);
        }
    }
}

// They are written once all four are found, so that nothing written can be read again.
fn put_four(
    store: &mut [u32],
    row: &[u32],
    buckets: &Buckets,
    apart: &[u32; VARIANT_WORDS],
    to: usize,
    k: usize,
    e: usize,
)
    requires { ToPut (with_apart apart.now buckets.now) row.now store.old to k (e * 4 + 4) }
    ensures { Written (found_four row.now (with_apart apart.now buckets.now) k e) (to + e * 4) 4 store.old store.new }
{
    let mut words = [0u32; 4];
    buckets.found_four(&mut words, row, apart, k, e);
    for v in 0..4 {
        store[to + e * 4 + v] = words[v];
    }
}

// All poses of the cell at position k, four at a time.
fn put(
    store: &mut [u32],
    row: &[u32],
    buckets: &Buckets,
    apart: &[u32; VARIANT_WORDS],
    to: usize,
    k: usize,
    poses: usize,
)
    requires { ToPut (with_apart apart.now buckets.now) row.now store.old to k poses }
    ensures { Written (found_of row.now (with_apart apart.now buckets.now) k) to ((poses + 3) / 4 * 4) store.old
        store.new }
{
    for e in 0..poses.div_ceil(4) {
        put_four(store, row, buckets, apart, to, k, e);
    }
}

// ---- one layer

// The words of state q, whose cell is there: its sources gathered, then what each pose finds.
fn target_there(store: &mut [u32], row: Row, layer: Block, q: usize)
    requires { ThinTarget row.words.now store.old row.sizes layer.cells layer.at q }
    ensures { Put (deck_in row.entry.words.now row.entry.sizes) row.entry.sizes.reordering layer.cells layer.at q
        store.old store.new }
{
    let m = row.last_at(layer.cells + 1, q);
    let sought = Sought { layer, state: q };
    let mut buckets = Buckets::empty();
    buckets.gather(store, row, sought);
    buckets.run_up();
    let apart = buckets.apart_or_near(search_buckets::buckets_of(row.words, m));
    let to = layer.at + search_store::KEPT_LAYER + q * search_store::POSE_SLOTS;
    put(store, row.words, &buckets, apart, to, m, row.sizes.poses);
}

// The words of state q: all NONE if the row has no such cell.
fn put_state(store: &mut [u32], row: Row, layer: Block, q: usize)
    requires { ThinNext row.words.now store.old row.sizes layer.cells layer.at q }
    ensures { Put (deck_in row.entry.words.now row.entry.sizes) row.entry.sizes.reordering layer.cells layer.at q
        store.old store.new }
{
    if !row.is_there(layer.cells + 1, q) {
        search_lanes::fill(
            store,
            layer.at + search_store::KEPT_LAYER + q * search_store::POSE_SLOTS,
            search_store::POSE_SLOTS,
            search_lanes::NONE,
        );
        return;
    }
    target_there(store, row, layer, q);
}

// The layer with one cell more than the layer at `from`, which has i, to the block after it.
pub fn step(store: &mut [u32], row: Row, i: usize, from: usize)
    requires { ThinGiven row.words.now store.old row.sizes i from }
    ensures { Stepped (deck_in row.entry.words.now row.entry.sizes) row.entry.sizes.reordering row.entry.sizes.states i from
        store.old store.new }
{
    let layer = Block { cells: i, at: from };
    for q in 0..row.sizes.states {
        put_state(store, row, layer, q);
    }
}

// The layers of a segment from one start, kept one after the other: each is dense and comes from the one before.

// All layers of a segment from its first, layer i, which is in its place, up to layer `end`.
pub fn segment_kept(store: &mut [u32], row: Row, i: usize, end: usize)
    requires { Segment row.words.now store.old row.sizes i end }
    ensures { SegmentKept (deck_in row.entry.words.now row.entry.sizes) row.entry.sizes.reordering i end store.old
        store.new }
{
    for cells in i..end {
        let from = search_store::kept_at(cells);
        step(store, row, cells, from);
    }
}
