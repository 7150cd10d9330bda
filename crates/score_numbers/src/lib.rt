// The numbers of a placement: steps, sites shifted, mirrored, changed, cost and drift, and filled steps where the job
// text asks for them.

#![tactic(auto)]

ghost use Rattle.std.specs.Prelude.{◌≡◌, ◌+◌, ◌*◌, ◌≤◌, ◌==◌, count_by, length, take};
ghost use Rattle.definition.specs.Job.{max_cells};
ghost use Rattle.definition.specs.Cost.{steps_in};
ghost use Rattle.definition.specs.Outcome.{number_count};
ghost use Rattle.results.specs.Fields.{More};
ghost use Rattle.job.specs.Value.{job_of, placement_of};
ghost use Rattle.job.specs.Ready.{Ready};
ghost use Rattle.score_steps.specs.Steps.{RowSteps};
ghost use Rattle.score_drift.specs.Total.{Digits};
ghost use Rattle.score_numbers.specs.Sums.{sum_from, shift_in};
ghost use Rattle.score_numbers.specs.Counted.{no_numbers, first_in, numbers_in, Pushable, Counted};
ghost use Rattle.score_numbers.specs.Bridge.{Standing, StandingRow, AllSteps, Weighable};
ghost use Rattle.score_numbers.specs.Bridge.{StepsWeighable, StepsWeighed};

use job::{Header, Job, Placement, Pose};
use results::Fields;
use score_drift::{drift_from, total_shift};
use score_order::{Stand, order_row};
use score_steps::{Steps, steps_in};
use score_words::stands_of;

#[derive(Clone, Copy, Default)]
pub struct Numbers {
    pub steps: u32,
    pub shifted: u32,
    pub mirrored: u32,
    pub changed: u32,
    pub cost: u32,
    pub drift: i32,
    pub filled: u32,
}

impl Numbers {
    // How many any job text has; one that begins with `K,` has filled steps as one more.
    pub const COUNT: usize = 6;

    // Those of a placement that is not legal.
    pub fn zero() -> Numbers
        ensures { result ≡ no_numbers }
    {
        Numbers::default()
    }
}

// How many numbers a job text has.
pub fn number_count(job: &[u8]) -> usize
    ensures { result ≡ number_count job.now }
{
    if job.starts_with(b"K,") {
        Numbers::COUNT + 1
    } else {
        Numbers::COUNT
    }
}

// The numbers that every job text has as fields after others, in the order of document 01.
fn push_first(fields: Fields, n: Numbers) -> Fields
    requires { Pushable fields n 6 }
    ensures { More fields (first_in n) result }
{
    fields
        .push(n.steps as i32)
        .push(n.shifted as i32)
        .push(n.mirrored as i32)
        .push(n.changed as i32)
        .push(n.cost as i32)
        .push(n.drift)
}

// So many of the numbers as fields after others.
pub fn push_numbers(fields: Fields, n: Numbers, count: usize) -> Fields
    requires { Pushable fields n count }
    ensures { More fields (take count (numbers_in n)) result }
{
    let first = push_first(fields, n);
    if count == Numbers::COUNT {
        first
    } else {
        first.push(n.filled as i32)
    }
}

// Sites shifted, over all cells: once a cell, in whichever rows it stands.
fn shifted_in(stands: &[Stand]) -> u32
    requires { Digits stands.now }
    ensures same { result ≡ sum_from (shift_in stands.now) 0 (length stands.now) }
    ensures few { result ≤ 800000 }
{
    let mut total = 0;
    for stand in stands {
        total += stand.site.abs_diff(stand.given);
    }
    total
}

// Cells whose mark is 1.
fn mirrored_in(poses: &[Pose]) -> u32
    requires { length poses.now ≤ max_cells }
    ensures same { result ≡ count_by (λ p. p.mark == 1) poses.now }
    ensures few { result ≤ max_cells }
{
    poses.iter().filter(|p| p.mark == 1).count() as u32
}

// Cells in layout 1.
fn changed_in(poses: &[Pose]) -> u32
    requires { length poses.now ≤ max_cells }
    ensures same { result ≡ count_by (λ p. p.layout == 1) poses.now }
    ensures few { result ≤ max_cells }
{
    poses.iter().filter(|p| p.layout == 1).count() as u32
}

// The steps of one row.
fn steps_row(job: Job, placement: Placement, stands: &[Stand], row: u32) -> Steps
    requires { StandingRow job placement stands.now row }
    ensures { RowSteps (λ f. steps_in f (job_of job) (placement_of placement) row) result }
{
    let mut order = [0u32; Job::MAX_CELLS];
    let at = order_row(stands, row, &mut order);
    steps_in(job, placement, stands, &order[at..], row)
}

// The steps of both rows.
fn steps_both(job: Job, placement: Placement, stands: &[Stand]) -> Steps
    requires { Standing job placement stands.now }
    ensures { AllSteps (job_of job) (placement_of placement) result }
{
    let a = steps_row(job, placement, stands, 0);
    let b = steps_row(job, placement, stands, 1);
    Steps {
        touching: a.touching + b.touching,
        filled: a.filled + b.filled,
    }
}

// Steps by their two weights.
fn weighed_steps(header: Header, steps: Steps) -> u32
    requires { StepsWeighable header steps }
    ensures { StepsWeighed header steps result }
{
    header.step * steps.touching + header.filled * steps.filled
}

// Each number times its weight, after the steps.
fn weighed_sum(header: Header, steps: u32, shifted: u32, mirrored: u32, changed: u32) -> u32
    requires { Weighable header steps shifted mirrored changed }
    ensures same { result ≡ steps + header.shift * shifted + header.mirror * mirrored + header.swap * changed }
    ensures most { result ≤ 1000000000 }
{
    steps + header.shift * shifted + header.mirror * mirrored + header.swap * changed
}

// All numbers, from how the cells stand.
fn numbers_from(job: Job, placement: Placement, stands: &[Stand]) -> Numbers
    requires { Standing job placement stands.now }
    ensures { Counted (job_of job) (placement_of placement) result }
{
    let steps = steps_both(job, placement, stands);
    let shifted = shifted_in(stands);
    let poses = &placement.poses[..placement.count];
    let mirrored = mirrored_in(poses);
    let changed = changed_in(poses);
    let weighed = weighed_steps(job.header, steps);
    let cost = weighed_sum(job.header, weighed, shifted, mirrored, changed);
    let drift = drift_from(total_shift(stands), stands.len() as u32);
    Numbers {
        steps: steps.touching + steps.filled,
        shifted,
        mirrored,
        changed,
        cost,
        drift,
        filled: steps.filled,
    }
}

// All numbers of a placement, legal or not.
pub fn numbers_of(job: Job, placement: Placement) -> Numbers
    requires { Ready job placement }
    ensures { Counted (job_of job) (placement_of placement) result }
{
    let stands = stands_of(job, placement);
    numbers_from(job, placement, &stands[..job.count])
}
