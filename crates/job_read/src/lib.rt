// The reader: a job text is read line by line, each line once, up to the first that is refused.

#![tactic(auto)]

ghost use Rattle.std.specs.Prelude.{◌≡◌, ◌+◌, ◌<◌, length, drop, true, false, MatchResult};
ghost use Rattle.definition.specs.Texts.{lines_of};
ghost use Rattle.definition.specs.Job.{read_job, read_cells};
ghost use Rattle.job_read.specs.Lines.{refusal_at, number_by, Leads, LeadOf, head_count, head_number, cell_number};
ghost use Rattle.job_read.specs.Reads.{HeadLine, CellLine, CellsFrom, begun, Reads};

use job::{Cell, Header, Job};
use job_ranges::{cell_of, count_fits, header_fits, header_of, layouts_fit, shape_fits};
use job_tally::{Tally, does_rise, has_room, tally_with};
use results::Refusal;
use text_scan::read_led;

// Why a line is refused.
#[derive(Clone, Copy)]
pub enum Fault {
    Form,
    Range,
    Count,
    Order,
}

// The header line, and where the next line begins.
#[derive(Drop)]
pub struct Head {
    pub next: usize,
    pub header: Header,
}

// A cell line, likewise.
#[derive(Drop)]
pub struct Line {
    pub next: usize,
    pub cell: Cell,
}

impl Fault {
    // The refusal of that line.
    pub fn at(self, line: u32) -> Refusal
        ensures { result ≡ refusal_at self line }
    {
        match self {
            Fault::Form => Refusal::Form(line),
            Fault::Range => Refusal::Range(line),
            Fault::Count => Refusal::Count(line),
            Fault::Order => Refusal::Order(line),
        }
    }
}

// A test that a line has to pass.
fn must(passed: bool, fault: Fault) -> Result<(), Fault>
    ensures { MatchResult result (λ _. passed ≡ true) (λ f. (passed ≡ false) × (f ≡ fault)) }
{
    if passed { Ok(()) } else { Err(fault) }
}

// A line's lead, one of two: the second if the line begins with that.
fn lead_of(one: u8, other: u8, second: bool) -> u8
    requires { Leads one other }
    ensures { LeadOf one other second result }
{
    if second { other } else { one }
}

// ---- the header

// How many numbers follow the lead.
fn head_count(filled: bool) -> usize
    ensures { result ≡ head_count filled }
{
    if filled { 9 } else { 8 }
}

// The tests after the lead, of a header with so many numbers.
#[tactic(auto, unfolding(crate::specs::Lines::head_number, definition::specs::Job::first_failing))]
fn test_header(filled: bool, count: usize, h: Header) -> Result<(), Fault>
    ensures { number_by result ≡ head_number filled count h }
{
    must(count == head_count(filled), Fault::Form)?;
    must(header_fits(h), Fault::Range)
}

// The first line, which has a weight of its own for filled steps if K leads it.
fn header_line(text: &[u8]) -> Result<Head, Fault>
    requires { 0 < length text.now }
    ensures { HeadLine text.now result }
{
    let filled = text[0] == b'K';
    let lead = lead_of(b'J', b'K', filled);
    let n = read_led(text, 0, lead).ok_or(Fault::Form)?;
    let header = header_of(filled, n.values);
    test_header(filled, n.count, header)?;
    Ok(Head {
        next: n.next,
        header,
    })
}

// ---- the cells

// The tests after the lead, in document 01's order; `mark` is the line's number for mirrorable.
#[tactic(auto, unfolding(crate::specs::Lines::cell_number, definition::specs::Job::first_failing))]
fn test_cell(t: Tally, count: usize, mark: u32, c: Cell) -> Result<(), Fault>
    ensures { number_by result ≡ cell_number t count mark c }
{
    must(4 <= count, Fault::Form)?;
    must(shape_fits(t.rows, c.row, c.layouts), Fault::Range)?;
    must(count_fits(count, c.row, c.layouts), Fault::Form)?;
    must(
        (c.given <= Job::MAX_GIVEN) & (mark <= 1) & layouts_fit(c),
        Fault::Range,
    )?;
    must(has_room(t, c.row), Fault::Count)?;
    must(does_rise(t, c.row, c.given), Fault::Order)
}

// The line of a cell, which is fixed if F leads it.
fn cell_line(text: &[u8], at: usize, t: Tally) -> Result<Line, Fault>
    requires { at < length text.now }
    ensures { CellLine text.now at t result }
{
    let fixed = text[at] == b'F';
    let lead = lead_of(b'C', b'F', fixed);
    let n = read_led(text, at, lead).ok_or(Fault::Form)?;
    let cell = cell_of(fixed, n.values);
    test_cell(t, n.count, n.values[2], cell)?;
    Ok(Line { next: n.next, cell })
}

// ---- the whole text

// The cell lines from `from` on, after a header.
fn read_cells(text: &[u8], from: usize, header: Header) -> Result<Job, Refusal>
    requires { CellsFrom text.now from header }
    ensures { Reads (read_cells (begun header) 2 (lines_of (drop from text.now))) result }
{
    let mut job = Job::empty();
    job.header = header;
    let mut t = Tally {
        rows: header.rows,
        count: 0,
        tall: 0,
        first: 0,
        second: 0,
    };
    let mut at = from;
    let mut line: u32 = 2;
    // a `while`: it goes from line to line, and counts no index
    while at < text.len() {
        let l = match cell_line(text, at, t) {
            Ok(l) => l,
            Err(fault) => return Err(fault.at(line)),
        };
        job.cells[t.count] = l.cell;
        t = tally_with(t, l.cell.row, l.cell.given);
        at = l.next;
        line += 1;
    }
    job.count = t.count;
    Ok(job)
}

// The job that a text says, or its first refusal.
pub fn read_job(text: &[u8]) -> Result<Job, Refusal>
    ensures { Reads (read_job text.now) result }
{
    if text.is_empty() {
        return Err(Refusal::Form(1));
    }
    match header_line(text) {
        Ok(head) => read_cells(text, head.next, head.header),
        Err(fault) => Err(fault.at(1)),
    }
}
