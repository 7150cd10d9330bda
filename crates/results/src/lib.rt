// The result array that a caller lends: number, line and then the fields, as far as
// it reaches. One writer for every operation.

#![tactic(auto)]

ghost use Rattle.std.specs.Prelude.{◌≡◌, [], ◌∷◌, ◌^◌, ◌≤◌, ◌<◌, replicate, pos};
ghost use Rattle.definition.specs.Outcome.{over};
ghost use Rattle.results.specs.Fields.{max_fields, list_of, FieldsOf, More};
ghost use Rattle.results.specs.Refusals.{number_of, line_of, Writable, Refusable, ToRefuse};

// Why a call is refused. A number is the line at fault, counted from 1; the others are at no line.
#[derive(Clone, Copy)]
pub enum Refusal {
    Form(u32),
    Range(u32),
    Count(u32),
    Order(u32),
    Placement(u32),
    Store,
    Output,
    NoLegal,
    LoadCount,
    LoadOutput,
    ReasonsOutput,
}

// The first `count` values, in the order in which an operation names its fields. A count beside an array, since the
// library has no heap for a list that grows.
#[derive(Drop)]
pub struct Fields {
    pub count: usize,
    pub values: [i32; Fields::MAX],
}

impl Refusal {
    // What a refused call returns.
    pub fn number(self) -> u32
        ensures { result ≡ number_of self }
    {
        match self {
            Refusal::Form(_) => 1,
            Refusal::Range(_) => 2,
            Refusal::Count(_) => 3,
            Refusal::Order(_) => 4,
            Refusal::Placement(_) => 5,
            Refusal::Store => 6,
            Refusal::Output => 7,
            Refusal::NoLegal => 8,
            Refusal::LoadCount => 9,
            Refusal::LoadOutput => 10,
            Refusal::ReasonsOutput => 11,
        }
    }

    // The line at fault, or 0.
    pub fn line(self) -> u32
        ensures { result ≡ line_of self }
    {
        match self {
            Refusal::Form(line)
            | Refusal::Range(line)
            | Refusal::Count(line)
            | Refusal::Order(line)
            | Refusal::Placement(line) => line,
            Refusal::Store
            | Refusal::Output
            | Refusal::NoLegal
            | Refusal::LoadCount
            | Refusal::LoadOutput
            | Refusal::ReasonsOutput => 0,
        }
    }
}

impl Fields {
    pub const MAX: usize = 16;

    pub fn empty() -> Fields
        ensures { FieldsOf [] 0 result }
    {
        Fields::zeros(0)
    }

    // So many fields of 0.
    pub fn zeros(count: usize) -> Fields
        requires { count ≤ max_fields }
        ensures { FieldsOf (replicate count (pos 0)) count result }
    {
        Fields {
            count,
            values: [0i32; Fields::MAX],
        }
    }

    // One field more.
    pub fn push(self, value: i32) -> Fields
        requires { self.count < max_fields }
        ensures { More self (value ∷ []) result }
    {
        let at = self.count;
        let mut values = self.values;
        values[at] = value;
        Fields {
            count: at + 1,
            values,
        }
    }
}

pub fn put_results(results: &mut [i32], number: u32, line: u32, fields: Fields)
    requires { Writable number line fields }
    ensures { results.new ≡ over (pos number ∷ pos line ∷ list_of fields) results.old }
{
    let count = fields.count;
    let values = fields.values;
    let len = results.len();
    if len == 0 {
        return;
    }
    results[0] = number as i32;
    if len == 1 {
        return;
    }
    results[1] = line as i32;
    for i in 0..count {
        if len <= i + 2 {
            return;
        }
        results[i + 2] = values[i];
    }
}

// A refusal: its number and line, and so many fields of zero.
pub fn refuse(results: &mut [i32], number: u32, line: u32, count: usize)
    requires { Refusable number line count }
    ensures { results.new ≡ over (pos number ∷ pos line ∷ replicate count (pos 0)) results.old }
{
    put_results(results, number, line, Fields::zeros(count));
}

// The same of a kind of refusal. Its number, for the caller to return.
pub fn refuse_by(results: &mut [i32], refusal: Refusal, count: usize) -> u32
    requires { ToRefuse refusal count }
    ensures number { result ≡ number_of refusal }
    ensures array { results.new ≡ over (pos (number_of refusal) ∷ pos (line_of refusal)
        ∷ replicate count (pos 0)) results.old }
{
    let number = refusal.number();
    refuse(results, number, refusal.line(), count);
    number
}

// An answer of these fields.
pub fn answer(results: &mut [i32], fields: Fields)
    requires { fields.count ≤ max_fields }
    ensures { results.new ≡ over (pos 0 ∷ pos 0 ∷ list_of fields) results.old }
{
    put_results(results, 0, 0, fields);
}

// An answer of one number.
pub fn answer_one(results: &mut [i32], value: usize)
    requires { value < 2 ^ 31 }
    ensures { results.new ≡ over (pos 0 ∷ pos 0 ∷ pos value ∷ []) results.old }
{
    let fields = Fields::empty().push(value as i32);
    answer(results, fields);
}
