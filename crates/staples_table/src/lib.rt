// The fewest sites that the cells still to come cover anew, for every way in which both rows of a job without tall
// cells can have got so far, cell by cell in file order. A block of words for each pair of counts of placed cells; in
// it a word for each pair of site numbers of the two last cells. Blocks are filled from the last to the first.

#![tactic(auto)]

ghost use Rattle.std.specs.Prelude.{◌≡◌, ◌+◌, ◌*◌, ◌<◌};
ghost use Rattle.search_lanes.specs.Store.{Written};
ghost use Rattle.staples_table.specs.Blocks.{lesser_way, RowsPut, WordLooks, RowLooks, BlockLooks};
ghost use Rattle.staples_table.specs.Blocks.{BlockAsked, NextAsked, BlockMade};
ghost use Rattle.staples_table.specs.Blocks.{LineAsked, LineMade, TableAsked, TableMade};

use staples_ways::{LastCell, NextCell, Rests};

// The words of a block, and how far it is to that with one cell more of row 0.
pub const BLOCK: usize = 225;

pub const BLOCKS: usize = 14625;

// The cells of both rows, and the limit D of shifts.
#[derive(Clone, Copy)]
pub struct RowCounts {
    pub cells0: usize,
    pub cells1: usize,
    pub limit: usize,
}

// What a word of a block is found by: where the last cells end at their number 0, and where the next ones may first
// stand.
#[derive(Clone, Copy)]
pub struct Looks {
    pub numbers: usize,
    pub end0: usize,
    pub end1: usize,
    pub first0: usize,
    pub first1: usize,
}

// The word of site numbers t and u: the lesser of what both rows' next cells come to.
fn least_of(
    ways0: &[u32; staples_ways::ALL_WAYS],
    ways1: &[u32; staples_ways::ALL_WAYS],
    looks: Looks,
    t: usize,
    u: usize,
) -> u32
    requires { WordLooks ways0.now ways1.now looks t u }
    ensures { result ≡ lesser_way ways0.now ways1.now looks t u }
{
    let x = staples_ways::found_way(
        ways0,
        u * staples_ways::WAYS,
        looks.numbers,
        looks.end0 + t,
        looks.first0,
    );
    let y = staples_ways::found_way(
        ways1,
        t * staples_ways::WAYS,
        looks.numbers,
        looks.end1 + u,
        looks.first1,
    );
    x.min(y)
}

// The words of site number t.
fn put_words(
    store: &mut [u32],
    ways0: &[u32; staples_ways::ALL_WAYS],
    ways1: &[u32; staples_ways::ALL_WAYS],
    looks: Looks,
    at: usize,
    t: usize,
)
    requires { RowLooks store.old ways0.now ways1.now looks at t }
    ensures { Written (lesser_way ways0.now ways1.now looks t) at looks.numbers
        store.old store.new }
{
    for u in 0..looks.numbers {
        store[at + u] = least_of(ways0, ways1, looks, t, u);
    }
}

// The words of a block.
fn put_block(
    store: &mut [u32],
    ways0: &[u32; staples_ways::ALL_WAYS],
    ways1: &[u32; staples_ways::ALL_WAYS],
    looks: Looks,
    at: usize,
)
    requires { BlockLooks store.old ways0.now ways1.now looks at }
    ensures { RowsPut (lesser_way ways0.now ways1.now looks) at looks.numbers
        looks.numbers store.old store.new }
{
    for t in 0..looks.numbers {
        put_words(
            store,
            ways0,
            ways1,
            looks,
            at + t * staples_ways::NUMBERS,
            t,
        );
    }
}

// The block of p cells of row 0 and q of row 1, where one is still to come.
fn fill_next(store: &mut [u32], row0: &[u32], row1: &[u32], counts: RowCounts, p: usize, q: usize)
    requires { NextAsked store.old row0.now row1.now counts p q }
    ensures { BlockMade row0.now row1.now counts p q store.old
        store.new }
{
    let numbers = 2 * counts.limit + 1;
    let at = (p * 65 + q) * BLOCK;
    let last0 = staples_ways::last_of(row0, counts.limit, p, 0);
    let last1 = staples_ways::last_of(row1, counts.limit, q, 0);
    let next0 = NextCell {
        cells: counts.cells0,
        placed: p,
        numbers,
    };
    let next1 = NextCell {
        cells: counts.cells1,
        placed: q,
        numbers,
    };
    let mut ways0 = [0u32; staples_ways::ALL_WAYS];
    let mut ways1 = [0u32; staples_ways::ALL_WAYS];
    let rests0 = Rests {
        at: at + BLOCKS,
        step: staples_ways::NUMBERS,
    };
    let rests1 = Rests {
        at: at + BLOCK,
        step: 1,
    };
    let first0 = staples_ways::ways_ahead(&mut ways0, store, row0, next0, last1, rests0, 1);
    let first1 = staples_ways::ways_ahead(
        &mut ways1,
        store,
        row1,
        next1,
        last0,
        rests1,
        staples_ways::NUMBERS,
    );
    let looks = Looks {
        numbers,
        end0: last0.end,
        end1: last1.end,
        first0,
        first1,
    };
    put_block(store, &ways0, &ways1, looks, at);
}

// The block of p cells of row 0 and q of row 1.
pub fn fill_block(
    store: &mut [u32],
    row0: &[u32],
    row1: &[u32],
    counts: RowCounts,
    p: usize,
    q: usize,
)
    requires { BlockAsked store.old row0.now row1.now counts p q }
    ensures { BlockMade row0.now row1.now counts p q store.old
        store.new }
{
    if p + q == counts.cells0 + counts.cells1 {
        search_lanes::fill(store, (p * 65 + q) * BLOCK, BLOCK, 0);
        return;
    }
    fill_next(store, row0, row1, counts, p, q);
}

// The blocks of p cells of row 0, from the last of row 1 to the first.
fn fill_line(store: &mut [u32], row0: &[u32], row1: &[u32], counts: RowCounts, p: usize)
    requires { LineAsked store.old row0.now row1.now counts p }
    ensures { LineMade row0.now row1.now counts p 0 store.old
        store.new }
{
    for q in (0..counts.cells1 + 1).rev() {
        fill_block(store, row0, row1, counts, p, q);
    }
}

// All blocks.
pub fn fill_table(store: &mut [u32], row0: &[u32], row1: &[u32], counts: RowCounts)
    requires { TableAsked store.old row0.now row1.now counts }
    ensures { TableMade row0.now row1.now counts 0 store.old
        store.new }
{
    for p in (0..counts.cells0 + 1).rev() {
        fill_line(store, row0, row1, counts, p);
    }
}
