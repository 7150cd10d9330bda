// Fault line: the line that Score reports, as that very part of the job text or of the placement text.

#![tactic(auto)]

ghost use Rattle.std.specs.Prelude.{◌≡◌, ◌≤◌, ◌+◌, length};
ghost use Rattle.definition.specs.Outcome.{over};
ghost use Rattle.definition.specs.FaultLine.{fault_line, part_at, Very, ToldFault, CopiedFault};
ghost use Rattle.op_fault.specs.Part.{PieceOf, NextLine, LineAt, part_of, text_in, number_of};
ghost use Rattle.op_fault.specs.Fault.{Reported};

use job_read::read_job;
use placement_read::read_placement;
use text_scan::line_end;

// Score's number and line: 1 to 4 as Read does, then 5; 0 and 0 if nothing is refused. Neither job nor placement is
// kept, which takes less of the stack than both together.
fn reported(job: &[u8], placement: &[u8]) -> (u32, u32)
    ensures { Reported job.now placement.now result }
{
    match read_job(job) {
        Ok(job) => match read_placement(placement, job.count) {
            Ok(_) => (0, 0),
            Err(refusal) => (refusal.number(), refusal.line()),
        },
        Err(refusal) => (refusal.number(), refusal.line()),
    }
}

// Where the line is that Score reports.
#[tactic(auto, unfolding(definition::specs::FaultLine::fault_line))]
pub fn fault_piece(job: &[u8], placement: &[u8]) -> Piece
    ensures { PieceOf (fault_line job.now placement.now)
        job.now placement.now result }
{
    let (number, line) = reported(job, placement);
    part_at(number, line, job, placement)
}

// The line that Score reports.
pub fn fault_line<'a>(job: &'a [u8], placement: &'a [u8]) -> &'a [u8]
    ensures { Very (fault_line job.now placement.now) job.entry placement.entry result }
{
    let p = fault_piece(job, placement);
    very_part(job, placement, p)
}

// Some entries over others, as far as those reach.
fn lay<T: Copy>(from: &[T], to: &mut [T])
    ensures { to.new ≡ over from.now to.old }
{
    let n = from.len().min(to.len());
    for i in 0..n {
        to[i] = from[i];
    }
}

// The line that Score reports by which text (0 job, 1 placement), first byte and length; the number of the refusal.
#[tactic(auto, unfolding(definition::specs::FaultLine::fault_line))]
pub fn tell_fault(job: &[u8], placement: &[u8], results: &mut [u64]) -> u32
    ensures { ToldFault job.now placement.now result
        results.old results.new }
{
    let (number, line) = reported(job, placement);
    let p = part_at(number, line, job, placement);
    lay(
        &[p.which.number(), p.span.start as u64, p.span.size as u64],
        results,
    );
    number
}

// What `tell_fault` tells, and the line itself, copied. One lifetime for both texts: the line may stand in either.
pub fn copy_fault<'a>(
    job: &'a [u8],
    placement: &'a [u8],
    output: &mut [u8],
    part: &mut [u64],
) -> u32
    ensures { CopiedFault job.now placement.now result
        output.old output.new part.old part.new }
{
    let number = tell_fault(job, placement, part);
    let line = fault_line(job, placement);
    lay(line, output);
    number
}

// Parts of a job text and a placement text: a line by its number, and a part as that very piece of the text lent.

// The first byte of a part and how many it has.
#[derive(Clone, Copy)]
pub struct Span {
    pub start: usize,
    pub size: usize,
}

// One of the two texts.
#[derive(Clone, Copy)]
pub enum Which {
    Job,
    Placement,
}

// A part of one of them.
#[derive(Clone, Copy)]
pub struct Piece {
    pub which: Which,
    pub span: Span,
}

impl Which {
    // As the host is told.
    pub fn number(self) -> u64
        ensures { result ≡ number_of self }
    {
        match self {
            Which::Job => 0,
            Which::Placement => 1,
        }
    }
}

// The byte after the line from `at` on; at the text's end there is none.
fn next_line(text: &[u8], at: usize) -> usize
    requires { at ≤ length text.now }
    ensures { NextLine text.now at result }
{
    if at < text.len() {
        line_end(text, at)
    } else {
        at
    }
}

// Line n, counted from 1; a missing one is empty and at the text's end.
fn line_span(text: &[u8], n: u32) -> Span
    ensures { LineAt text.now n result }
{
    let mut at = 0;
    for i in 1..n {
        at = next_line(text, at);
    }
    let end = next_line(text, at);
    Span {
        start: at,
        size: end - at,
    }
}

// Where the line is that a refusal reports: in the placement text for 5, else in the job text; for 0 the placement's
// end. By numbers, of which its clause, which may not change, speaks.
#[tactic(auto, unfolding(definition::specs::FaultLine::part_at))]
pub fn part_at(number: u32, line: u32, job: &[u8], placement: &[u8]) -> Piece
    ensures { PieceOf (part_at number line job.now placement.now)
        job.now placement.now result }
{
    match number {
        0 => Piece {
            which: Which::Placement,
            span: Span {
                start: placement.len(),
                size: 0,
            },
        },
        5 => Piece {
            which: Which::Placement,
            span: line_span(placement, line),
        },
        _ => Piece {
            which: Which::Job,
            span: line_span(job, line),
        },
    }
}

// That very part.
pub fn very_part<'a>(job: &'a [u8], placement: &'a [u8], p: Piece) -> &'a [u8]
    requires { p.span.start + p.span.size ≤ length (text_in p.which job.now placement.now) }
    ensures { Very (part_of p) job.entry placement.entry result }
{
    let start = p.span.start;
    let size = p.span.size;
    match p.which {
        Which::Job => &job[start..start + size],
        Which::Placement => &placement[start..start + size],
    }
}
