// The buckets in which the sources of a target are gathered by their end site: which row a source counts in, what it
// pays in each bucket, and which buckets are needed. Bucket 0 has the sources by themselves, buckets 1 to 4 with what
// they pay at gap 0 to each variant of the target, buckets 5 to 8 with what they pay at the other gaps that pay.

#![tactic(auto)]

ghost use Rattle.std.specs.Prelude.{◌≡◌, ◌+◌, ◌*◌, ◌≤◌};
ghost use Rattle.search_store.specs.Map.{max_poses};
ghost use Rattle.search_row.specs.Words.{CellAt};
ghost use Rattle.search_buckets.specs.Rows.{rows_of, buckets_in, end_row_of, pay_in, pay_words};
ghost use Rattle.search_buckets.specs.Rows.{Pays, SourcePose, PayGiven, PaysGiven, VariantPays};

// What a source pays: a word for each of its four variants in each of 9 buckets.
pub const PAY_WORDS: usize = 36;

// A state that is a source of a target: where its words begin, the positions of its cell, on the left, and of the
// target's, and how many buckets the target needs.
#[derive(Clone, Copy)]
pub struct Source {
    pub at: usize,
    pub left: usize,
    pub right: usize,
    pub buckets: usize,
}

// The row in which pose b of the cell at position k counts for the cell at position m.
#[tactic(auto, unfolding(crate::specs::Rows::end_row_of))]
pub fn end_row(row: &[u32], k: usize, b: usize, m: usize) -> usize
    requires { SourcePose row.now k b m }
    ensures { result ≡ end_row_of row.now k b m }
{
    let y = search_row::end(row, k, b) + 4;
    y.saturating_sub(search_row::word(row, m * search_row::CELL + search_row::FIRST))
}

// How many rows some pose looks at: pose a at rows a / 4 to a / 4 + 4, and at all before.
pub fn rows_of(poses: usize) -> usize
    requires { poses ≤ max_poses }
    ensures { result ≡ rows_of poses }
{
    poses.div_ceil(4) + 4
}

// How many buckets the cell at position m needs: where all gaps that pay have
// one weight, those of gap 0 serve them all.
#[tactic(auto, unfolding(crate::specs::Rows::buckets_in))]
pub fn buckets_of(row: &[u32], m: usize) -> usize
    requires { CellAt row.now m }
    ensures { result ≡ buckets_in row.now m }
{
    if row[m * search_row::CELL + search_row::TOUCHING]
        == row[m * search_row::CELL + search_row::FILLED]
    {
        5
    } else {
        9
    }
}

// What variant u of the cell at position k pays in bucket v of the cell at position m.
#[tactic(auto, unfolding(crate::specs::Rows::pay_in))]
fn pay(row: &[u32], k: usize, u: usize, m: usize, v: usize) -> u32
    requires { PayGiven row.now k u m v }
    ensures { result ≡ pay_in row.now k u m v }
{
    match v {
        0 => 0,
        1..5 => row[m * search_row::CELL + search_row::TOUCHING]
            * search_row::differ(row, k, u, m, v - 1),
        _ => row[m * search_row::CELL + search_row::FILLED]
            * search_row::differ(row, k, u, m, v - 5),
    }
}

// What variant u pays in each of so many buckets, after the variants before it.
fn pay_row(pays: &mut [u32; PAY_WORDS], row: &[u32], k: usize, u: usize, m: usize, buckets: usize)
    requires { VariantPays row.now k u m buckets pays.old }
    ensures { Pays row.now k m buckets (u * 9 + 9) pays.new }
{
    for v in 0..buckets {
        pays[u * 9 + v] = pay(row, k, u, m, v);
    }
}

// All of them, by variant and bucket.
pub fn fill_pays(pays: &mut [u32; PAY_WORDS], row: &[u32], k: usize, m: usize, buckets: usize)
    requires { PaysGiven row.now k m buckets 0 pays.old }
    ensures { Pays row.now k m buckets pay_words pays.new }
{
    for u in 0..4 {
        pay_row(pays, row, k, u, m, buckets);
    }
}
