// Sources gathered by their end site, for one target cell: a table of 9 buckets of BUCKET_ROWS rows of lanes, bucket v
// from v * BUCKET_WORDS on (crate search_buckets tells what the buckets are). Row t has the sources that end at the
// target's first site - 4 + t, row 0 those further left too. Bucket 0 has them by themselves, buckets 1 to 4 with what
// they pay at gap 0 to each variant of the target, buckets 5 to 8 with what they pay at gaps 2 and 3. A target whose
// weights are all equal needs 5 buckets: buckets 1 to 4 serve for gaps 2 and 3 too. Only the rows that some pose looks
// at count; a target that is offered nothing right of its first site, as a fixed cell is, has fewer of them.

#![tactic(auto)]

ghost use Rattle.std.specs.Prelude.{◌≡◌, ◌+◌, ◌-◌, length};
ghost use Rattle.search_lanes.specs.Lowered.{LoweredAt};
ghost use Rattle.search_lanes.specs.Lanes.{always, words_from};
ghost use Rattle.search_lanes.specs.Store.{RowSaid, RowsSaid};
ghost use Rattle.search_buckets.specs.Rows.{rows_of};
ghost use Rattle.search_wide_buckets.specs.Table.{PosesAsked, OfferedBelow, TableFor, TableToClear, Cleared};
ghost use Rattle.search_wide_buckets.specs.Table.{WordToLower, LanesToLower, GatheredIf, charged_words};
ghost use Rattle.search_wide_buckets.specs.Table.{charged_one, LaneSpread, NearSpread, WordsSpread, Spread};
ghost use Rattle.search_wide_buckets.specs.Table.{PoseSource, PosesSource, pose_in, poses_in};
ghost use Rattle.search_wide_buckets.specs.Table.{RunUp, LaneLooks, found_in, found_row, found_row_of, RowFound};
ghost use Rattle.search_wide_buckets.specs.Table.{ToRow, PoseToRow, PosesToRows};

use search_buckets::Source;

// ---- the rows that count

// How many poses of the cell at position k are looked at, of so many: those at its
// first site, if it is offered no other.
pub fn poses_of(row: &[u32], k: usize, poses: usize) -> usize
    requires { PosesAsked row.now k poses }
    ensures { OfferedBelow row.now k poses result }
{
    if poses < 4 {
        return poses;
    }
    if search_lanes::common(row, k * search_row::CELL + 4, poses - 4) >= search_lanes::NONE {
        return 4;
    }
    poses
}

// NONE in the lanes and rows that count, in so many buckets.
pub fn reset(table: &mut [u32; search_store::TABLE], buckets: usize, poses: usize, lanes: usize)
    requires { TableToClear table.old buckets poses lanes }
    ensures { Cleared (rows_of poses) lanes buckets table.new }
{
    let rows = search_buckets::rows_of(poses);
    for v in 0..buckets {
        search_lanes::fill_rows(
            table,
            v * search_store::BUCKET_WORDS,
            rows,
            lanes,
            search_lanes::NONE,
        );
    }
}

// ---- one source

// One word lowered.
fn lower_one(table: &mut [u32; search_store::TABLE], to: usize, x: u32)
    requires { WordToLower table.old to x }
    ensures { LoweredAt (always x) to 1 table.old table.new }
{
    table[to] = search_lanes::lesser(table[to], x);
}

// A source of cost x in one lane to row t of the four buckets of a kind of gap: those from `first` on, 1 or 5.
fn spread_near(
    table: &mut [u32; search_store::TABLE],
    x: u32,
    pays: &[u32; search_buckets::PAY_WORDS],
    u: usize,
    t: usize,
    lane: usize,
    first: usize,
)
    requires { NearSpread table.old pays.now x u t lane first }
    ensures { Spread (charged_one x pays.now u) t first (first + 4) lane 1 table.old
        table.new }
{
    for v in first..first + 4 {
        lower_one(
            table,
            v * search_store::BUCKET_WORDS + t * search_store::MAX_LANES + lane,
            x + pays[u * 9 + v],
        );
    }
}

// The same to all buckets that are needed; row 0 counts in bucket 0 alone.
pub fn spread_lane(
    table: &mut [u32; search_store::TABLE],
    x: u32,
    pays: &[u32; search_buckets::PAY_WORDS],
    u: usize,
    t: usize,
    lane: usize,
    buckets: usize,
)
    requires { LaneSpread table.old pays.now buckets x u t lane }
    ensures { Spread (charged_one x pays.now u) t 0 buckets lane 1 table.old
        table.new }
{
    lower_one(table, t * search_store::MAX_LANES + lane, x + pays[u * 9]);
    if t > 0 {
        spread_near(table, x, pays, u, t, lane, 1);
    }
    if t > 0 && buckets == 9 {
        spread_near(table, x, pays, u, t, lane, 5);
    }
}

// The words of a source row, by its variant u. The buckets of a lane are lowered together, so that each word is read
// once.
fn spread_row(
    table: &mut [u32; search_store::TABLE],
    words: &[u32],
    pays: &[u32; search_buckets::PAY_WORDS],
    u: usize,
    t: usize,
    buckets: usize,
)
    requires { WordsSpread table.old words.now pays.now buckets u t }
    ensures { Spread (charged_words words.now pays.now u) t 0 buckets 0
        (length words.now) table.old table.new }
{
    for (l, word) in words.iter().enumerate() {
        spread_lane(table, *word, pays, u, t, l, buckets);
    }
}

// Pose b of a source: whether it lowered anything.
fn from_pose(
    table: &mut [u32; search_store::TABLE],
    store: &[u32],
    row: &[u32],
    pays: &[u32; search_buckets::PAY_WORDS],
    source: Source,
    b: usize,
    rows: usize,
    lanes: usize,
) -> bool
    requires { PoseSource table.old store.now row.now pays.now source b rows lanes }
    ensures { GatheredIf result
        (pose_in store.now row.now source.at source.left source.right b) rows
        source.buckets lanes table.old table.new }
{
    if store[source.at + search_store::FLAGS + b] == 0 {
        return false;
    }
    let t = search_buckets::end_row(row, source.left, b, source.right);
    if t >= rows {
        return false;
    }
    let at = source.at + b * search_store::MAX_LANES;
    spread_row(
        table,
        &store[at..at + lanes],
        pays,
        b % 4,
        t,
        source.buckets,
    );
    true
}

// All its poses, in so many rows: whether one lowered anything.
pub fn from_poses(
    table: &mut [u32; search_store::TABLE],
    store: &[u32],
    row: &[u32],
    pays: &[u32; search_buckets::PAY_WORDS],
    source: Source,
    poses: usize,
    rows: usize,
    lanes: usize,
) -> bool
    requires { PosesSource table.old store.now row.now pays.now source poses rows lanes }
    ensures { GatheredIf result
        (poses_in store.now row.now source.at source.left source.right poses)
        rows source.buckets lanes table.old table.new }
{
    let mut used = false;
    for b in 0..poses {
        used |= from_pose(table, store, row, pays, source, b, rows, lanes);
    }
    used
}

// ---- what a pose finds

// The lanes from `to` on lowered to those from `from` on.
fn lower_by(table: &mut [u32; search_store::TABLE], to: usize, from: usize, lanes: usize)
    requires { LanesToLower table.old to from lanes }
    ensures { LoweredAt (words_from table.old from) to lanes table.old
        table.new }
{
    for l in 0..lanes {
        table[to + l] = search_lanes::lesser(table[to + l], table[from + l]);
    }
}

// Each row of bucket 0, as far as so many poses look, lowered to all rows before it.
pub fn run_up(table: &mut [u32; search_store::TABLE], poses: usize, lanes: usize)
    requires { TableFor table.old poses lanes }
    ensures { RunUp (rows_of poses - 3) lanes table.old table.new }
{
    let last = poses.div_ceil(4);
    for t in 0..last {
        lower_by(
            table,
            search_store::MAX_LANES + t * search_store::MAX_LANES,
            t * search_store::MAX_LANES,
            lanes,
        );
    }
}

// What pose a finds in lane l: at gaps 0, 2 and 3, and further left.
fn found_lane(table: &[u32; search_store::TABLE], a: usize, l: usize, buckets: usize) -> u32
    requires { LaneLooks table.now a l buckets }
    ensures { result ≡ found_in buckets table.now a l }
{
    let far = a / 4 * search_store::MAX_LANES + l;
    let near = (1 + a % 4) * search_store::BUCKET_WORDS + far;
    let other = (buckets - 4 + a % 4) * search_store::BUCKET_WORDS + far;
    let apart = search_lanes::lesser(
        table[other + 2 * search_store::MAX_LANES],
        table[other + search_store::MAX_LANES],
    );
    search_lanes::lesser(
        search_lanes::lesser(table[near + 4 * search_store::MAX_LANES], apart),
        table[far],
    )
}

// A target's row: what its pose finds, with the cell's own cost, capped. Answers NONE only if all lanes are NONE.
fn put_row(
    store: &mut [u32],
    at: usize,
    table: &[u32; search_store::TABLE],
    a: usize,
    own: u32,
    buckets: usize,
    lanes: usize,
) -> u32
    requires { ToRow store.old table.now at a own buckets lanes }
    ensures { RowFound result (found_row buckets table.now own a) at lanes store.old
        store.new }
{
    let mut x = search_lanes::NONE;
    for l in 0..lanes {
        let y = search_lanes::lesser(own + found_lane(table, a, l, buckets), search_lanes::NONE);
        store[at + l] = y;
        x &= y;
    }
    x
}

// The row of pose a of the cell at position k and its flag, which is 0 where the pose is not offered or finds nothing.
fn put_pose(
    store: &mut [u32],
    row: &[u32],
    table: &[u32; search_store::TABLE],
    at: usize,
    k: usize,
    a: usize,
    buckets: usize,
    lanes: usize,
)
    requires { PoseToRow store.old row.now table.now at k a buckets lanes }
    ensures { RowSaid (found_row_of buckets row.now table.now k a) at a lanes
        store.old store.new }
{
    let own = row[k * search_row::CELL + a];
    if own >= search_lanes::NONE {
        store[at + search_store::FLAGS + a] = 0;
        return;
    }
    let x = put_row(
        store,
        at + a * search_store::MAX_LANES,
        table,
        a,
        own,
        buckets,
        lanes,
    );
    store[at + search_store::FLAGS + a] = search_lanes::flag_of(x);
}

// The rows of its poses, one after the other, in the words of a state.
pub fn put_rows(
    store: &mut [u32],
    row: &[u32],
    table: &[u32; search_store::TABLE],
    at: usize,
    k: usize,
    poses: usize,
    buckets: usize,
    lanes: usize,
)
    requires { PosesToRows store.old row.now table.now at k poses buckets lanes }
    ensures { RowsSaid (found_row_of buckets row.now table.now k) at poses lanes
        store.old store.new }
{
    for a in 0..poses {
        put_pose(store, row, table, at, k, a, buckets, lanes);
    }
}
