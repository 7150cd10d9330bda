// The search of two rows of words: the stages, and the cheapest way through them traced back.

#![tactic(auto)]

ghost use Rattle.std.specs.Prelude.{◌≡◌, ◌≤◌};
ghost use Rattle.search_stage.specs.Stage.{wide, StagesGiven};
ghost use Rattle.search.specs.Words.{words_for};
ghost use Rattle.search.specs.Rows.{Asked, AskedLow};
ghost use Rattle.search.specs.Found.{FoundIfAny, Costed, Answering, PosesAnswered};

use search_row::Rows;

// Room for a path: a word for each place.
const PATH_WORDS: usize = 128;

// The least cost, and the pose number of each cell.
#[derive(Drop)]
pub struct Found {
    pub cost: u32,
    pub poses: [u32; search_row::MAX_CELLS],
}

// The least cost: the one case of the last table.
fn least_cost(store: &mut [u32], rows: Rows) -> u32
    requires { StagesGiven rows.row0.now rows.row1.now store.old rows.sizes rows.cells1 }
    ensures { Costed rows.entry.row0.now rows.entry.row1.now rows.entry.sizes rows.entry.cells1 store.old
        store.new result }
{
    search_stage::stages(store, rows);
    store[search_store::case_at(rows.sizes.talls + 1, 0, 0)]
}

// The pose number of each cell, by cell number: both rows traced, then noted one after the other.
fn note(out: &mut [u32], store: &mut [u32], rows: Rows)
    requires { Answering rows.row0.now rows.row1.now rows.sizes rows.cells1 store.old out.old }
    ensures { PosesAnswered rows.entry.row0.now rows.entry.row1.now rows.entry.sizes rows.entry.cells1 out.new }
{
    let mut path0 = [0u32; PATH_WORDS];
    let mut path1 = [0u32; PATH_WORDS];
    search_back::trace(store, &mut path0, &mut path1, rows);
    search_back::scatter(out, &path0, rows.row0, rows.sizes.cells);
    search_back::scatter(out, &path1, rows.row1, rows.cells1);
}

// What the tables of both rows come to: nothing where no way costs less than NONE.
fn find(store: &mut [u32], rows: Rows) -> Option<Found>
    requires { AskedLow rows.row0.now rows.row1.now rows.sizes rows.cells1 store.old }
    ensures { FoundIfAny rows.entry.row0.now rows.entry.row1.now rows.entry.sizes rows.entry.cells1 result }
{
    let cost = least_cost(store, rows);
    if cost >= search_lanes::NONE {
        return None;
    }
    let mut poses = [0u32; search_row::MAX_CELLS];
    note(&mut poses, store, rows);
    Some(Found { cost, poses })
}

// How many words of the store a search needs: a page for each state of the largest table.
fn store_words(talls: usize, count: usize) -> usize
    requires { wide talls talls count ≤ 12 }
    ensures { result ≡ words_for talls count }
{
    let pages = search_stage::wide_of(talls, talls, count);
    search_store::cost_at(0, pages, 0, 0)
}

// Two rows with these sizes, of which row 1 has so many cells. Only the words that are needed are cleared and used.
pub fn search(store: &mut [u32], rows: Rows) -> Option<Found>
    requires { Asked rows.row0.now rows.row1.now rows.sizes rows.cells1 store.old }
    ensures { FoundIfAny rows.entry.row0.now rows.entry.row1.now rows.entry.sizes rows.entry.cells1 result }
{
    let words = store_words(rows.sizes.talls, rows.sizes.states);
    search_lanes::clear(&mut store[..words]);
    find(&mut store[..words], rows)
}
