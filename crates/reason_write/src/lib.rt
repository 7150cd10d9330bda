// A reason's sentence, written into a lent output: the rule's phrase and the cells that break it, each by its number.

#![tactic(auto)]

ghost use Rattle.std.specs.Prelude.{◌≡◌, take};
ghost use Rattle.definition.specs.Reasons.{phrase_of, cell_named, cells_named, sentence};
ghost use Rattle.text_write.specs.Put.{Room, Wrote};
ghost use Rattle.reason_write.specs.Sentences.{next_named, SentenceRoom};

use text_write::{put_bytes, put_number};

// What a rule forbids, in words; a rule that there is not has none: a rule is a number, as the clause speaks of any.
#[tactic(auto, unfolding(definition::specs::Texts::bytes))]
fn phrase(rule: u32) -> &'static [u8]
    ensures { result.now ≡ phrase_of rule }
{
    match rule {
        1 => b"choice not offered",
        2 => b"outside row",
        3 => b"shifted too far",
        4 => b"overlap",
        5 => b"one-site gap",
        6 => b"order moved too far",
        7 => b"tall order changed",
        8 => b"one-site row end",
        _ => b"",
    }
}

// One cell, by its number.
#[tactic(auto, unfolding(definition::specs::Texts::bytes))]
fn put_cell(output: &mut [u8], at: usize, n: u32) -> usize
    requires { Room (cell_named n) output.old at }
    ensures { Wrote (cell_named n) output.old at output.new result }
{
    let p = put_bytes(&mut *output, at, b"cell ");
    put_number(output, p, n)
}

// A comma and a space before every cell but the first.
#[tactic(auto, unfolding(definition::specs::Texts::bytes))]
fn put_next(output: &mut [u8], at: usize, first: bool, n: u32) -> usize
    requires { Room (next_named first n) output.old at }
    ensures { Wrote (next_named first n) output.old at output.new result }
{
    if first {
        return put_cell(output, at, n);
    }
    let p = put_bytes(&mut *output, at, b", ");
    put_cell(output, p, n)
}

fn put_cells(output: &mut [u8], at: usize, cells: &[u32]) -> usize
    requires { Room (cells_named cells.now) output.old at }
    ensures { Wrote (cells_named cells.now) output.old at output.new result }
{
    let mut p = at;
    for (i, n) in cells.iter().enumerate() {
        p = put_next(&mut *output, p, i == 0, *n);
    }
    p
}

// The whole sentence, from the output's first byte on; its length. Bytes past it stay as they are. `count` stands
// beside the slice since the clauses, which may not change, name both.
#[tactic(auto, unfolding(definition::specs::Texts::bytes, definition::specs::Reasons::sentence))]
pub fn put_sentence(output: &mut [u8], rule: u32, cells: &[u32], count: usize) -> usize
    requires { SentenceRoom rule cells.now count output.old }
    ensures { Wrote (sentence (record { rule = rule; cells = take count cells.now }))
        output.old 0 output.new result }
{
    if rule == 0 {
        return put_bytes(output, 0, b"legal.");
    }
    let p = put_bytes(&mut *output, 0, phrase(rule));
    let q = put_bytes(&mut *output, p, b": ");
    let r = put_cells(&mut *output, q, &cells[..count]);
    put_bytes(output, r, b".")
}
