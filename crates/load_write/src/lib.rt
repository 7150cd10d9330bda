// A load's text, written line by line as its fields are drawn.

#![tactic(auto)]

ghost use Rattle.std.specs.Prelude.{◌≡◌, [], ◌∷◌, ◌-◌, length, replicate, cond, ltb};
ghost use Rattle.definition.specs.Job.{max_tall, layout_size};
ghost use Rattle.definition.specs.Draws.{◌to◌};
ghost use Rattle.definition.specs.Load.{repeated, listed, load_of};
ghost use Rattle.text_write.specs.Put.{Room, Wrote};
ghost use Rattle.load_write.specs.Fields.{FieldsRoom, RangeRoom, WroteFields};
ghost use Rattle.load_write.specs.Openings.{CellRoom, DrewOpening, largest_of, opening_text};
ghost use Rattle.load_write.specs.Cells.{layout_of, CellGiven, WroteCell, LoadGiven};

use job::Job;
use job_tally::{Tally, tally_with};
use load_draws::Generator;
use text_write::{put_byte, put_bytes, put_number};

// Where a writer goes on: a place in the output, and the generator.
#[derive(Clone, Copy)]
pub struct Cursor {
    pub at: usize,
    pub generator: Generator,
}

// What the lines so far leave to the next.
#[derive(Clone, Copy)]
pub struct Progress {
    pub cursor: Cursor,
    pub tally: Tally,
}

// The first four numbers of a line, and the generator after them.
#[derive(Clone, Copy)]
pub struct Opening {
    pub row: u32,
    pub given: u32,
    pub mirrorable: u32,
    pub layouts: u32,
    pub generator: Generator,
}

// A number after a comma.
fn put_listed(output: &mut [u8], at: usize, n: u32) -> usize
    requires { Room (listed (n ∷ [])) output.old at }
    ensures { Wrote (listed (n ∷ [])) output.old at output.new result }
{
    let p = put_byte(&mut *output, at, b',');
    put_number(output, p, n)
}

// So many fields from `low` to `high`.
fn put_fields(output: &mut [u8], cursor: Cursor, count: u32, low: u32, high: u32) -> Cursor
    requires { RangeRoom low high count cursor.at output.old }
    ensures { WroteFields (replicate count (low to high)) cursor
        output.old output.new result }
{
    let mut c = cursor;
    for i in 0..count {
        let generator = c.generator.next();
        let n = generator.field(low, high);
        let at = put_listed(&mut *output, c.at, n);
        c = Cursor { at, generator };
    }
    c
}

// One layout: its width and its heights.
fn put_layout(output: &mut [u8], cursor: Cursor, heights: u32) -> Cursor
    requires { FieldsRoom (length (layout_of heights)) cursor.at output.old }
    ensures { WroteFields (layout_of heights) cursor output.old output.new result }
{
    let c = put_fields(&mut *output, cursor, 1, 1, 16);
    put_fields(output, c, heights, 1, 4)
}

fn put_layouts(output: &mut [u8], cursor: Cursor, layouts: u32, heights: u32) -> Cursor
    requires { FieldsRoom (length (repeated layouts (layout_of heights))) cursor.at output.old }
    ensures { WroteFields (repeated layouts (layout_of heights)) cursor
        output.old output.new result }
{
    let mut c = cursor;
    for i in 0..layouts {
        c = put_layout(&mut *output, c, heights);
    }
    c
}

// The largest given site so far in a cell's rows.
fn largest_in(t: Tally, row: u32) -> u32
    ensures { result ≡ largest_of t row }
{
    match row {
        2 => t.first.max(t.second),
        0 => t.first,
        _ => t.second,
    }
}

// No tall cell comes after the last that a job may have.
fn last_row(tall: usize) -> u32
    ensures { result ≡ cond (ltb tall max_tall) 2 1 }
{
    if tall < Job::MAX_TALL { 2 } else { 1 }
}

// Row, given site, mirrorable and layouts of the next cell.
fn draw_opening(p: Progress) -> Opening
    requires { CellRoom p }
    ensures { DrewOpening p result }
{
    let t = p.tally;
    let g1 = p.cursor.generator.next();
    let row = g1.field(0, last_row(t.tall));
    let g2 = g1.next();
    let given = largest_in(t, row) + g2.field(0, 12);
    let g3 = g2.next();
    let mirrorable = g3.field(0, 1);
    let generator = g3.next();
    let layouts = generator.field(1, 2);
    Opening {
        row,
        given,
        mirrorable,
        layouts,
        generator,
    }
}

// The lead and the first four numbers of a line.
fn put_opening(output: &mut [u8], at: usize, opening: Opening) -> usize
    requires { Room (opening_text opening) output.old at }
    ensures { Wrote (opening_text opening) output.old at output.new result }
{
    let numbers = [
        opening.row,
        opening.given,
        opening.mirrorable,
        opening.layouts,
    ];
    let mut p = put_byte(&mut *output, at, b'C');
    for n in numbers {
        p = put_listed(&mut *output, p, n);
    }
    p
}

// How many heights a layout has.
fn heights_of(row: u32) -> u32
    ensures { result ≡ layout_size row - 1 }
{
    if row == 2 { 8 } else { 4 }
}

// The line of one cell.
fn put_cell(output: &mut [u8], p: Progress) -> Progress
    requires { CellGiven p output.old }
    ensures { WroteCell p output.old output.new result }
{
    let opening = draw_opening(p);
    let heights = heights_of(opening.row);
    let at = put_opening(&mut *output, p.cursor.at, opening);
    let generator = opening.generator;
    let c = put_layouts(
        &mut *output,
        Cursor { at, generator },
        opening.layouts,
        heights,
    );
    let at = put_byte(output, c.at, b'\n');
    let generator = c.generator;
    let tally = tally_with(p.tally, opening.row, opening.given);
    Progress {
        cursor: Cursor { at, generator },
        tally,
    }
}

// The whole text, from the output's first byte on; its length.
pub fn put_load(output: &mut [u8], seed: u32, cells: u32) -> usize
    requires { LoadGiven cells output.old }
    ensures { Wrote (load_of seed cells).text output.old 0 output.new result }
{
    let at = put_bytes(&mut *output, 0, b"J,2,1024,7,1,100,1,100,50\n");
    let mut p = Progress {
        cursor: Cursor {
            at,
            generator: Generator::seeded(seed),
        },
        tally: Tally {
            rows: 2,
            count: 0,
            tall: 0,
            first: 0,
            second: 0,
        },
    };
    for i in 0..cells {
        p = put_cell(&mut *output, p);
    }
    p.cursor.at
}
