// The states of a digit and marks in which a cell can have been placed last, as the words that the
// search reads: marks rising, digits rising.

#![tactic(auto)]

ghost use Rattle.std.specs.Prelude.{◌≡◌, ◌++◌, ◌+◌, ◌≤◌, ◌<◌};
ghost use Rattle.theory_tables.specs.Steps.{may_be_last};
ghost use Rattle.search_states.specs.Upto.{is_marks, digits_from, marks_from, with_state, StatesAdded, Coded};
ghost use Rattle.search_states.specs.Upto.{StatesRoom, Coming, DigitComing, DigitAsked, StateRoom};
ghost use Rattle.theory_row.specs.Marks.{bit};

// Whether m has r + 1 ones, the lowest digit among them.
fn is_marks(r: u32, m: u32) -> bool
    requires { r ≤ 2 }
    ensures { result ≡ is_marks r m }
{
    m % 2 == 1 && m.count_ones() == r + 1
}

// Whether the cell placed last can be the one at digit d: its digit is set, and it is the top one if that is set.
fn may_be_last(r: u32, m: u32, d: u32) -> bool
    requires { DigitAsked r d }
    ensures { result ≡ may_be_last r m d }
{
    digit(m, d) == 1 && (digit(m, 2 * r) == 0 || d == 2 * r)
}

// State q: its digit, its marks, and the only marks from which placing the cell at that digit leads to them.
fn put_state(row: &mut [u32], q: usize, d: u32, m: u32)
    requires { StateRoom row.old q d m }
    ensures { row.new ≡ with_state row.old q d m }
{
    let at = search_row::STATES + q * 4;
    row[at] = d;
    row[at + 1] = m;
    row[at + 2] = 2 * (m - (1 << d)) + 1;
}

// The state of digit d, if it is one; how many there are then.
fn add_digit(row: &mut [u32], count: usize, r: u32, m: u32, d: u32) -> usize
    requires { DigitComing r row.old count m d }
    ensures { StatesAdded r row.old row.new result
        (digits_from r m (d + 1) ++ marks_from r (m + 1)) }
{
    if !may_be_last(r, m, d) {
        return count;
    }
    put_state(row, count, d, m);
    count + 1
}

// The states of m, if it is marks; how many there are then.
fn add_marks(row: &mut [u32], count: usize, r: u32, m: u32) -> usize
    requires { Coming r row.old count m (marks_from r m) }
    ensures { StatesAdded r row.old row.new result (marks_from r (m + 1)) }
{
    if !is_marks(r, m) {
        return count;
    }
    let mut n = count;
    for d in 0..2 * r + 1 {
        n = add_digit(row, n, r, m, d);
    }
    n
}

// All states; how many there are.
pub fn fill_states(row: &mut [u32], r: usize) -> usize
    requires { StatesRoom r row.old }
    ensures { Coded r row.old row.new result }
{
    let limit = r as u32;
    let end: u32 = 2 << (2 * limit);
    let mut n: usize = 0;
    for m in 0..end {
        n = add_marks(row, n, limit, m);
    }
    n
}

// The marks of a window as an unsigned number: one digit for each cell, the lowest first.

// Digit j of the marks.
pub fn digit(m: u32, j: u32) -> u32
    requires { j < 32 }
    ensures { result ≡ bit m j }
{
    (m >> j) & 1
}
