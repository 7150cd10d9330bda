// Lines, fields and numbers of a text, read where they stand. A line is read
// once, from its first byte to its line feed.

#![tactic(auto)]

ghost use Rattle.std.specs.Prelude.{◌≡◌, ◌↔◌, ◌+◌, ◌≤◌, ◌<◌, length, position, IsTrue, MatchOption, ◌==◌};
ghost use Rattle.definition.specs.Texts.{line_feed};
ghost use Rattle.text_scan.specs.Found.{LineTo, byte_of, NoEnd, MoreDigit, NumberFrom};
ghost use Rattle.text_scan.specs.Found.{NumbersFrom, MayLead, LedFrom};

// The byte that ends a number.
#[derive(Clone, Copy, PartialEq, Eq)]
pub enum End {
    Comma,
    LineFeed,
}

// A number, what ends it, and where the next field begins.
#[derive(Drop)]
pub struct Number {
    pub value: u32,
    pub end: End,
    pub next: usize,
}

// The numbers of a line and where the next line begins. All are counted, and the first 24 kept: in an array, as there
// is no heap.
#[derive(Drop)]
pub struct Numbers {
    pub count: usize,
    pub next: usize,
    pub values: [u32; 24],
}

// Where the first line feed is.
fn feed_at(text: &[u8]) -> Option<usize>
    ensures { result ≡ position (λ b. b == line_feed) text.now }
{
    text.iter().position(|b| *b == b'\n')
}

// The byte after the line that begins at `at`.
pub fn line_end(text: &[u8], at: usize) -> usize
    requires { at < length text.now }
    ensures { LineTo text.now at result }
{
    match feed_at(&text[at..]) {
        Some(feed) => at + feed + 1,
        None => text.len(),
    }
}

fn end_of(b: u8) -> Option<End>
    ensures { MatchOption result (NoEnd b) (λ e. b ≡ byte_of e) }
{
    match b {
        b',' => Some(End::Comma),
        b'\n' => Some(End::LineFeed),
        _ => None,
    }
}

// The byte at `i` may be one more digit of the number that begins at `from`.
fn is_more(text: &[u8], from: usize, i: usize) -> bool
    requires order { from ≤ i }
    requires inside { i < length text.now }
    ensures { IsTrue result ↔ MoreDigit text.now from i }
{
    text[i].is_ascii_digit() && i - from < 4 && !(i != from && text[from] == b'0')
}

// The number that begins at `from`, if a comma or a line feed ends it.
pub fn read_number(text: &[u8], from: usize) -> Option<Number>
    requires { from ≤ length text.now }
    ensures { NumberFrom text.now from result }
{
    let mut value = 0;
    for i in from..text.len() {
        let b = text[i];
        if let Some(end) = end_of(b) {
            if i == from {
                return None;
            }
            return Some(Number {
                value,
                end,
                next: i + 1,
            });
        }
        if !is_more(text, from, i) {
            return None;
        }
        value = value * 10 + u32::from(b - b'0');
    }
    None
}

// The numbers of the line that begins at `at`, if its fields are numbers.
pub fn read_numbers(text: &[u8], at: usize) -> Option<Numbers>
    requires { at ≤ length text.now }
    ensures { NumbersFrom text.now at result }
{
    let mut values = [0u32; 24];
    let mut count = 0;
    let mut next = at;
    // a `loop`: it goes from field to field, and counts no index
    loop {
        let n = read_number(text, next)?;
        if count < 24 {
            values[count] = n.value;
        }
        count += 1;
        next = n.next;
        if n.end == End::LineFeed {
            return Some(Numbers {
                count,
                next,
                values,
            });
        }
    }
}

// The numbers after the lead of the line that begins at `at`.
pub fn read_led(text: &[u8], at: usize, lead: u8) -> Option<Numbers>
    requires { MayLead text.now at lead }
    ensures { LedFrom lead text.now at result }
{
    if !text[at..].starts_with(&[lead, b',']) {
        return None;
    }
    read_numbers(text, at + 2)
}
