// Reading a row's words: the cells, the states and the tall cells' positions, then sources and tolls.
// The words' places stand in specs/Words.antt.

#![tactic(auto)]

ghost use Rattle.std.specs.Prelude.{◌≡◌, ◌<◌, length, get_or};
ghost use Rattle.theory_tables.specs.Steps.{last_at, is_source};
ghost use Rattle.theory_tables.specs.Stages.{placed_with};
ghost use Rattle.search_row.specs.Words.{site_in, end_in, differ_in, weight_in, toll_in, front_in, back_in};
ghost use Rattle.search_row.specs.Words.{deck_in, there_in, pos_in, with_cells, end_toll};
ghost use Rattle.search_row.specs.Words.{StateKnown, SourceAsked, TallAt, CellAt, PoseAt, NeighbourPoses};

// So many cells a row can have: all of a job.
pub const MAX_CELLS: usize = 64;

// The words of a row: those of a cell; where the states begin, the tall cells' positions, and how many words there are.
pub const CELL: usize = 128;

pub const STATES: usize = 8192;

pub const TALLS: usize = 8256;

pub const WORDS: usize = 8288;

// The words of a cell after its costs by pose; the heights have one for each variant.
pub const FIRST: usize = 64;

pub const WIDTH: usize = 65;

pub const TALL: usize = 67;

pub const LEFT_P: usize = 68;

const LEFT_N: usize = 72;

const RIGHT_P: usize = 76;

const RIGHT_N: usize = 80;

pub const TOUCHING: usize = 84;

pub const NUMBER: usize = 85;

pub const FILLED: usize = 86;

pub const FRONT_BARRED: usize = 87;

pub const BACK_BARRED: usize = 88;

// How many words of a cell are in use.
pub const USED: usize = 89;

// The sizes of a search in one row: how many cells, poses of a cell, places a cell
// may move, states and tall cells there are.
#[derive(Clone, Copy)]
pub struct Sizes {
    pub cells: usize,
    pub poses: usize,
    pub reordering: usize,
    pub states: usize,
    pub talls: usize,
}

// A row as the search reads it: its words, and the sizes of a search in it.
#[derive(Clone, Copy)]
pub struct Row<'a> {
    pub words: &'a [u32],
    pub sizes: Sizes,
}

// The two rows of a search: they have the same sizes, but row 1 has `cells1` cells.
#[derive(Clone, Copy)]
pub struct Rows<'a> {
    pub row0: &'a [u32],
    pub row1: &'a [u32],
    pub sizes: Sizes,
    pub cells1: usize,
}

// The same with so many cells: the other row's.
pub fn with_cells(sizes: Sizes, cells: usize) -> Sizes
    ensures { result ≡ with_cells sizes cells }
{
    Sizes { cells, ..sizes }
}

// A word as a count or a place.
pub fn word(words: &[u32], at: usize) -> usize
    requires { at < length words.now }
    ensures { result ≡ get_or words.now at 0 }
{
    words[at] as usize
}

impl Row<'_> {
    // The position of state q's cell, the last of i placed; 0 where it would be left of the row.
    pub fn last_at(self, i: usize, q: usize) -> usize
        requires { StateKnown self.words.now self.sizes.reordering i q }
        ensures { result ≡ last_at self.entry.sizes.reordering i q }
    {
        let k = i + word(self.words, STATES + q * 4);
        k.saturating_sub(self.sizes.reordering + 1)
    }

    // Whether the row has that cell.
    pub fn is_there(self, i: usize, q: usize) -> bool
        requires { StateKnown self.words.now self.sizes.reordering i q }
        ensures { result ≡ there_in self.entry.sizes.cells self.entry.sizes.reordering i q }
    {
        self.sizes.reordering < i + word(self.words, STATES + q * 4)
            && self.last_at(i, q) < self.sizes.cells
    }

    // Whether state q of the layer with i cells is a source of state q1 of the next.
    pub fn is_source(self, i: usize, q1: usize, q: usize) -> bool
        requires { SourceAsked self.words.now self.sizes i q1 q }
        ensures { result ≡ is_source (deck_in self.entry.words.now self.entry.sizes)
            self.entry.sizes.reordering i q1 q }
    {
        let words = self.words;
        self.is_there(i, q)
            && words[self.last_at(i, q) * CELL + TALL] != 1
            && words[STATES + q * 4 + 1] == words[STATES + q1 * 4 + 2]
    }

    // How many cells are placed once the cell at position p stands as state s.
    pub fn placed_with(self, p: usize, s: usize) -> usize
        requires { StateKnown self.words.now self.sizes.reordering p s }
        ensures { result ≡ placed_with self.entry.sizes.reordering p s }
    {
        let all = p + self.sizes.reordering + 1;
        all.saturating_sub(word(self.words, STATES + s * 4))
    }
}

// The left site of the cell at position k in pose a, with D added.
pub fn site(row: &[u32], k: usize, a: usize) -> usize
    requires { PoseAt row.now k a }
    ensures { result ≡ site_in row.now k a }
{
    word(row, k * CELL + FIRST) + a / 4
}

// The first site right of it.
pub fn end(row: &[u32], k: usize, b: usize) -> usize
    requires { PoseAt row.now k b }
    ensures { result ≡ end_in row.now k b }
{
    site(row, k, b) + word(row, k * CELL + (WIDTH + b % 4 / 2))
}

// How many of the two heights differ where pose b of k has pose a of m on its right.
pub fn differ(row: &[u32], k: usize, b: usize, m: usize, a: usize) -> u32
    requires { NeighbourPoses row.now k b m a }
    ensures { result ≡ differ_in row.now k b m a }
{
    let p = row[k * CELL + (RIGHT_P + b % 4)] != row[m * CELL + (LEFT_P + a % 4)];
    let n = row[k * CELL + (RIGHT_N + b % 4)] != row[m * CELL + (LEFT_N + a % 4)];
    u32::from(p) + u32::from(n)
}

// The weight of a step between the cell at position m and the cell on its left, by the gap between them.
fn weight(row: &[u32], m: usize, gap: usize) -> u32
    requires { CellAt row.now m }
    ensures { result ≡ weight_in row.now m gap }
{
    if gap == 0 {
        row[m * CELL + TOUCHING]
    } else {
        row[m * CELL + FILLED]
    }
}

// What the two pay; NONE where they may not stand so.
#[tactic(auto, unfolding(crate::specs::Words::toll_in))]
pub fn toll(row: &[u32], k: usize, b: usize, m: usize, a: usize) -> u32
    requires { NeighbourPoses row.now k b m a }
    ensures { result ≡ toll_in row.now k b m a }
{
    let x = site(row, m, a);
    let y = end(row, k, b);
    if x < y {
        return search_lanes::NONE;
    }
    let gap = x - y;
    if gap == gap_charge::FORBIDDEN_GAP {
        return search_lanes::NONE;
    }
    gap_charge::charge_of(gap) * (weight(row, m, gap) * differ(row, k, b, m, a))
}

// What a cell at the end of its row pays: nothing, but where it is barred.
fn end_toll(at: usize, barred: usize) -> u32
    ensures { result ≡ end_toll at barred }
{
    if at == barred { search_lanes::NONE } else { 0 }
}

// What the cell at position k pays in pose a as the first of its row; NONE where it may not stand there.
#[tactic(auto, unfolding(crate::specs::Words::front_in))]
pub fn front(row: &[u32], k: usize, a: usize) -> u32
    requires { PoseAt row.now k a }
    ensures { result ≡ front_in row.now k a }
{
    end_toll(site(row, k, a), word(row, k * CELL + FRONT_BARRED))
}

// The same as the last of its row.
#[tactic(auto, unfolding(crate::specs::Words::back_in))]
pub fn back(row: &[u32], k: usize, a: usize) -> u32
    requires { PoseAt row.now k a }
    ensures { result ≡ back_in row.now k a }
{
    end_toll(end(row, k, a), word(row, k * CELL + BACK_BARRED))
}

// The position of tall cell i, counted from 0.
#[tactic(auto, unfolding(crate::specs::Words::pos_in))]
pub fn tall_at(row: &[u32], i: usize) -> usize
    requires { TallAt row.now i }
    ensures { result ≡ pos_in row.now i }
{
    word(row, TALLS + i)
}
