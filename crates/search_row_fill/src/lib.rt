// The rows of a job as the words that the search reads. The words' places stand in crate search_row, specs/Words.antt.

#![tactic(auto)]

ghost use Rattle.std.specs.Prelude.{◌≡◌, ◌&&◌, ◌+◌, ◌*◌, ◌<◌, eqb};
ghost use Rattle.search_row.specs.Words.{talls_from, words_used};
ghost use Rattle.definition_laws.specs.Sound.{Sound};
ghost use Rattle.job.specs.Value.{job_of};
ghost use Rattle.theory_tables.specs.Steps.{B};
ghost use Rattle.search_lanes.specs.Store.{Written};
ghost use Rattle.theory_bridge.specs.Paired.{is_offered, pose_number, pose_numbers, own_of};
ghost use Rattle.search_row_fill.specs.Words.{edge, own_word, shape_word, height_word, cell_word};
ghost use Rattle.search_row_fill.specs.Values.{one};
ghost use Rattle.search_row_fill.specs.Filled.{side_of, CellAdded, CellsIn};
ghost use Rattle.search_row_fill.specs.Ready.{word_in, RowReady};
ghost use Rattle.search_row_fill.specs.TallWords.{TallsUpto, TallWords};
ghost use Rattle.search_row_fill.specs.Lent.{Bounded, Weight, CellPose, PoseRight, ShapeAt, HeightAt, CellPut};
ghost use Rattle.search_row_fill.specs.Lent.{CellToFill, CellToAdd, RowToFill};
ghost use Rattle.search_row_fill.specs.Lent.{TallNext, TallsRoom, PlacesPut};

use job::{Cell, Header, Job, Pose};
use search_row::Sizes;

// A cell by itself, under its job's header.
#[derive(Clone, Copy)]
struct Lone {
    header: Header,
    cell: Cell,
}

// ---- what a cell costs

// A weight, so many times: a function of its own for the bound that it promises.
fn times(weight: u32, x: u32) -> u32
    requires { Weight weight x }
    ensures { Bounded (weight * x) 16000 result }
{
    weight * x
}

// Whether what a cell costs by itself is left to the other row: a tall cell's counts in row 0.
fn counts_there(of: u32, side: u32) -> bool
    ensures { result ≡ (eqb of 2 && eqb side 1) }
{
    of == 2 && side == 1
}

impl Lone {
    // Whether rules 1 to 3 allow the cell pose number a.
    #[tactic(auto, unfolding(theory_bridge::specs::Paired::is_offered, theory_bridge::specs::Paired::pose_number, theory_bridge::specs::Paired::width_of, job::specs::Value::header_of, job::specs::Value::cell_of))]
    fn is_offered(self, a: u32) -> bool
        requires { CellPose self a }
        ensures { result ≡ is_offered (one self.header self.cell) 0 a }
    {
        let offer = job::offer_of(self.header, self.cell);
        let x = self.cell.given + a / 4;
        if x < offer.limit {
            return false;
        }
        let pose = Pose {
            site: x - offer.limit,
            layout: a % 4 / 2,
            mark: a % 2,
        };
        job::offers_choice(offer, pose)
            && job::offers_site(offer, pose)
            && pose.site + job::width_of(self.cell, pose.layout) <= self.header.sites
    }

    // Shift, mirroring and layout of a pose that is not left of site 0.
    fn pose_cost(self, a: u32) -> u32
        requires { PoseRight self a }
        ensures { let j = one self.header self.cell in Bounded (own_of j 0 (pose_number j 0 a)) 48000 result }
    {
        let offer = job::offer_of(self.header, self.cell);
        let given = self.cell.given;
        let site = given + a / 4 - offer.limit;
        let shift = times(self.header.shift, site.abs_diff(given));
        let mirror = times(self.header.mirror, a % 2);
        let swap = times(self.header.swap, a % 4 / 2);
        shift + mirror + swap
    }

    // What the cell costs in pose a in a row; NONE where it is not offered.
    #[tactic(auto, unfolding(crate::specs::Words::own_word, job::specs::Value::cell_of))]
    fn own_word(self, side: u32, a: u32) -> u32
        requires { CellPose self a }
        ensures { Bounded (own_word (one self.header self.cell) side 0 a) B result }
    {
        if !self.is_offered(a) {
            return search_lanes::NONE;
        }
        if counts_there(self.cell.row, side) {
            return 0;
        }
        self.pose_cost(a)
    }
}

// ---- the words of a cell

// Where one of the 16 heights stands among the row's four; a mark exchanges the edges.
fn edge_of(u: u32) -> usize
    requires { u < 16 }
    ensures { Bounded (edge u) 3 result }
{
    ((u / 8 + u % 2) % 2 * 2 + u / 4 % 2) as usize
}

impl Lone {
    // The site of its pose number 0, with D added; the widths of its layouts; whether it is tall.
    #[tactic(auto, unfolding(crate::specs::Words::shape_word, job::specs::Value::header_of, job::specs::Value::cell_of))]
    fn shape_word(self, i: usize) -> u32
        requires { ShapeAt self i }
        ensures { result ≡ shape_word (one self.header self.cell) 0 i }
    {
        match i {
            search_row::FIRST => {
                let offer = job::offer_of(self.header, self.cell);
                self.cell.given + (self.header.displacement - offer.limit)
            }
            search_row::WIDTH..search_row::TALL => job::width_of(
                self.cell,
                (i - search_row::WIDTH) as u32,
            ),
            _ => u32::from(self.cell.row == 2),
        }
    }

    // Its heights, by edge, type and variant.
    #[tactic(auto, unfolding(crate::specs::Words::height_word, job::specs::Value::cell_of))]
    fn height_word(self, side: u32, u: u32) -> u32
        requires { HeightAt u side }
        ensures { result ≡ height_word (one self.header self.cell) side 0 u }
    {
        let i = job::first_of(self.cell.row, side) + edge_of(u);
        job::height_of(self.cell, u % 4 / 2, i)
    }

    // Word i of the cell, which bears a number. As the first of its row it may not stand one site from the row's start,
    // nor as the last end one site from the row's end.
    #[tactic(auto, unfolding(crate::specs::Words::cell_word, crate::specs::Words::end_word, job::specs::Value::header_of))]
    fn cell_word(self, side: u32, number: u32, i: usize) -> u32
        requires { CellPut self side number }
        ensures { Bounded (cell_word (one self.header self.cell) side 0 number i) B result }
    {
        match i {
            0..search_row::FIRST => self.own_word(side, i as u32),
            search_row::FIRST..search_row::LEFT_P => self.shape_word(i),
            search_row::LEFT_P..search_row::TOUCHING => {
                self.height_word(side, (i - search_row::LEFT_P) as u32)
            }
            search_row::TOUCHING => self.header.step,
            search_row::NUMBER => number,
            search_row::FILLED => self.header.filled,
            search_row::FRONT_BARRED => self.header.displacement + gap_charge::FORBIDDEN_GAP as u32,
            _ => self.header.sites + self.header.displacement - gap_charge::FORBIDDEN_GAP as u32,
        }
    }

    // The words of the cell.
    fn fill_cell(self, row: &mut [u32], at: usize, side: u32, number: u32)
        requires { CellToFill self side number at row.old }
        ensures { Written (cell_word (one self.header self.cell) side 0 number) at words_used row.old row.new }
    {
        for i in 0..search_row::USED {
            row[at + i] = self.cell_word(side, number, i);
        }
    }

    // The cell, at position n if it stands in the row; how many cells there are then.
    #[tactic(auto, unfolding(job::specs::Value::cell_of))]
    fn add_cell(self, row: &mut [u32], n: usize, side: u32, number: u32) -> usize
        requires { CellToAdd self side number n row.old }
        ensures { CellAdded (one self.header self.cell) side number n result row.old row.new }
    {
        if !job::stands(self.cell.row, side) {
            return n;
        }
        self.fill_cell(row, n * search_row::CELL, side, number);
        n + 1
    }
}

// ---- the row

// The words of the row's cells, in file order; how many cells it has.
fn fill_cells(row: &mut [u32], job: Job, side: u32) -> usize
    requires { RowToFill job side row.old }
    ensures { CellsIn (job_of job) (side_of side) row.new result }
{
    row.fill(0);
    let header = job.header;
    let mut n: usize = 0;
    for k in 0..job.count {
        let lone = Lone {
            header,
            cell: job.cells[k],
        };
        n = lone.add_cell(row, n, side, k as u32);
    }
    n
}

// ---- the tall cells

// Position p, if its cell is tall; how many there are then.
fn add_tall(talls: &mut [u32], count: usize, row: &[u32], n: usize, p: usize) -> usize
    requires { TallNext row.now n talls.old count p }
    ensures { TallsUpto row.now n talls.new result (p + 1) }
{
    if row[p * search_row::CELL + search_row::TALL] != 1 {
        return count;
    }
    talls[count] = p as u32;
    count + 1
}

// The positions of the tall cells of a row of n cells, in rising order; how many there are.
fn fill_talls(talls: &mut [u32], row: &[u32], n: usize) -> usize
    requires { TallsRoom row.now n talls.old }
    ensures { TallWords row.now n talls.new result }
{
    let mut count: usize = 0;
    for p in 0..n {
        count = add_tall(talls, count, row, n, p);
    }
    count
}

// The positions, to their place after the words of the states.
fn put_talls(row: &mut [u32], places: &[u32; 32])
    requires { PlacesPut row.old places.now }
    ensures { Written (word_in places.now) talls_from 32 row.old row.new }
{
    row[search_row::TALLS..search_row::TALLS + 32].copy_from_slice(places);
}

// ---- all of a row

#[tactic(auto, unfolding(job::specs::Value::job_of, job::specs::Value::header_of))]
fn pose_numbers(job: Job) -> usize
    requires { Sound (job_of job) }
    ensures { result ≡ pose_numbers (job_of job) }
{
    let d = job.header.displacement as usize;
    4 * (2 * d + 1)
}

// The cells of a row, the positions of the tall ones and the states; its sizes.
pub fn fill_row(row: &mut [u32], job: Job, side: u32) -> Sizes
    requires { RowToFill job side row.old }
    ensures { RowReady (job_of job) (side_of side) row.new result }
{
    let cells = fill_cells(row, job, side);
    let mut places = [0u32; 32];
    let talls = fill_talls(&mut places, row, cells);
    put_talls(row, &places);
    let poses = pose_numbers(job);
    let reordering = job.header.reordering as usize;
    let states = search_states::fill_states(row, reordering);
    Sizes {
        cells,
        poses,
        reordering,
        states,
        talls,
    }
}
