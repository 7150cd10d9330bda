// The job and a placement as values: what the reader hands on, their limits, and what is asked of one cell.

#![tactic(auto)]

ghost use Rattle.std.specs.Prelude.{◌≡◌, ◌≤◌, ◌<◌};
ghost use Rattle.definition.specs.Rules.{offer_of, choice_offered, site_offered};
ghost use Rattle.job.specs.Value.{empty_job, empty_placement};
ghost use Rattle.job.specs.Value.{header_of, cell_of, pose_of, offer_in, height_count};
ghost use Rattle.job.specs.Parts.{stands_in, width_in, height_in, FirstHeight};

// A width and eight heights: left P, left N, right P, right N of row 0 (or of the single cell's row), then of row 1.
#[derive(Clone, Copy, Default)]
pub struct Layout {
    pub width: u32,
    pub heights: [u32; 8],
}

// Row is 0, 1, or 2 for a tall cell; `layouts` is how many of the two are there. A fixed cell must not move. Row and
// layout are numbers: a text says any, and the clauses of stands, first_of, width_of and height_of speak of any.
#[derive(Clone, Copy, Default)]
pub struct Cell {
    pub fixed: bool,
    pub row: u32,
    pub given: u32,
    pub mirrorable: bool,
    pub layouts: u32,
    pub first: Layout,
    pub second: Layout,
}

// The weight `step` is of steps where cells touch, `filled` of those against filler.
#[derive(Clone, Copy, Default)]
pub struct Header {
    pub rows: u32,
    pub sites: u32,
    pub displacement: u32,
    pub reordering: u32,
    pub step: u32,
    pub shift: u32,
    pub mirror: u32,
    pub swap: u32,
    pub filled: u32,
}

// The first `count` cells are the job's, in file order: an array with a count, as there is no heap.
#[derive(Clone, Copy)]
pub struct Job {
    pub header: Header,
    pub count: usize,
    pub cells: [Cell; Job::MAX_CELLS],
}

impl Layout {
    pub const MAX_WIDTH: u32 = 64;

    pub const MAX_HEIGHT: u32 = 15;
}

impl Job {
    pub const MAX_CELLS: usize = 64;

    pub const MAX_TALL: usize = 24;

    pub const MAX_SITES: u32 = 1024;

    pub const MAX_DISPLACEMENT: u32 = 7;

    pub const MAX_REORDERING: u32 = 2;

    pub const MAX_WEIGHT: u32 = 1000;

    pub const MAX_GIVEN: u32 = 1023;

    // By hand: its callers cite `empty_job`, and what a derived `default` promises does not name it.
    pub fn empty() -> Job
        ensures { result ≡ empty_job }
    {
        Job {
            header: Header::default(),
            count: 0,
            cells: [Cell::default(); Job::MAX_CELLS],
        }
    }
}

// Where a cell stands: its left site, its layout number and its mirror mark, which are numbers since the clause of
// offers_choice speaks of any.
#[derive(Clone, Copy, Default)]
pub struct Pose {
    pub site: u32,
    pub layout: u32,
    pub mark: u32,
}

// The first `count` poses are the placement's, in file order: an array with a count, as there is no heap.
#[derive(Clone, Copy)]
pub struct Placement {
    pub count: usize,
    pub poses: [Pose; Job::MAX_CELLS],
}

impl Placement {
    // By hand, as an empty job.
    pub fn empty() -> Placement
        ensures { result ≡ empty_placement }
    {
        Placement {
            count: 0,
            poses: [Pose::default(); Job::MAX_CELLS],
        }
    }
}

// A cell of row number `of` stands in a row: 2 is a tall cell's.
pub fn stands(of: u32, row: u32) -> bool
    ensures { result ≡ stands_in row of }
{
    (of == 2) | (of == row)
}

// What rules 1 and 3 leave to a cell: how far from its given site it may stand, which layout numbers it may take,
// whether it may be mirrored.
#[derive(Clone, Copy)]
pub struct Offer {
    pub given: u32,
    pub limit: u32,
    pub layouts: u32,
    pub mirrorable: bool,
}

// A fixed cell keeps its given site, layout 0 and mark 0.
#[tactic(auto, unfolding(crate::specs::Value::cell_of, crate::specs::Value::header_of))]
pub fn offer_of(header: Header, cell: Cell) -> Offer
    ensures { offer_in result ≡ offer_of (header_of header) (cell_of cell) }
{
    if cell.fixed {
        return Offer {
            given: cell.given,
            limit: 0,
            layouts: 1,
            mirrorable: false,
        };
    }
    Offer {
        given: cell.given,
        limit: header.displacement,
        layouts: cell.layouts.min(2),
        mirrorable: cell.mirrorable,
    }
}

// Rule 1, of what is offered.
pub fn offers_choice(offer: Offer, pose: Pose) -> bool
    ensures { result ≡ choice_offered (offer_in offer) (pose_of pose) }
{
    (pose.layout < offer.layouts) & ((pose.mark == 0) | ((pose.mark == 1) & offer.mirrorable))
}

// Rule 3, of what is offered.
pub fn offers_site(offer: Offer, pose: Pose) -> bool
    ensures { result ≡ site_offered (offer_in offer) (pose_of pose) }
{
    pose.site.abs_diff(offer.given) <= offer.limit
}

// The width of a cell in a layout; 0 in one that it lacks.
#[tactic(auto, unfolding(crate::specs::Value::cell_of))]
pub fn width_of(cell: Cell, layout: u32) -> u32
    ensures { result ≡ width_in (cell_of cell) layout }
{
    if cell.layouts <= layout {
        return 0;
    }
    match layout {
        0 => cell.first.width,
        1 => cell.second.width,
        _ => 0,
    }
}

// Height number i of a cell in a layout; 0 in one that it lacks.
#[tactic(auto, unfolding(crate::specs::Value::cell_of))]
pub fn height_of(cell: Cell, layout: u32, i: usize) -> u32
    requires { i < height_count cell.row }
    ensures { result ≡ height_in (cell_of cell) layout i }
{
    if layout >= cell.layouts {
        return 0;
    }
    match layout {
        0 => cell.first.heights[i],
        1 => cell.second.heights[i],
        _ => 0,
    }
}

// Where the row's four heights begin: a tall cell's row 1 has the second four.
pub fn first_of(of: u32, row: u32) -> usize
    requires { row ≤ 1 }
    ensures { FirstHeight of row result }
{
    if of == 2 { 4 * (row as usize) } else { 0 }
}
