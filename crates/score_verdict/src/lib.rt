// The verdict on a placement: the first broken rule and its lowest cell. Each rule marks the cells that break it.

#![tactic(auto)]

ghost use Rattle.std.specs.Prelude.{◌≤◌, length};
ghost use Rattle.std.specs.Result.{result_err};
ghost use Rattle.definition.specs.Job.{max_cells};
ghost use Rattle.definition.specs.Rules.{verdict};
ghost use Rattle.job.specs.Value.{job_of, placement_of};
ghost use Rattle.job.specs.Ready.{Ready};
ghost use Rattle.score_verdict.specs.Judged.{Judged, VerdictMarked, LowestTold};
ghost use Rattle.score_verdict.specs.Board.{Board, ReadyClear};

use job::{Job, Placement};
use score_cell_rules::{
    lowest_marked, mark_far, mark_overlaps, mark_passing, mark_past, mark_unoffered,
};
use score_order::{Stand, order_row};
use score_row_rules::{mark_ends, mark_gaps, mark_places};
use score_words::stands_of;

// A broken rule and the lowest cell that breaks it; both count from 1, and both are numbers that Score tells.
#[derive(Clone, Copy)]
pub struct Breach {
    pub rule: u32,
    pub cell: u32,
}

// A rule that has marked the cells that break it is kept if there are none.
fn kept(rule: u32, marks: &[bool]) -> Result<(), Breach>
    requires { length marks.now ≤ max_cells }
    ensures { LowestTold rule marks.now result }
{
    match lowest_marked(marks) {
        None => Ok(()),
        Some(cell) => Err(Breach { rule, cell }),
    }
}

// The rules in their order, up to the first that is broken.
fn keep_rules(
    job: &Job,
    placement: &Placement,
    stands: &[Stand],
    order0: &[u32],
    order1: &[u32],
    marks: &mut [bool],
) -> Result<(), Breach>
    requires { Board job.now placement.now stands.now order0.now order1.now marks.old }
    ensures { VerdictMarked (job_of job.now) (placement_of placement.now) (result_err result) marks.new }
{
    let header = job.header;
    mark_unoffered(job, placement, marks);
    kept(1, marks)?;
    mark_past(stands, header.sites, marks);
    kept(2, marks)?;
    mark_far(job, placement, marks);
    kept(3, marks)?;
    mark_overlaps(stands, order0, order1, marks);
    kept(4, marks)?;
    mark_gaps(stands, order0, order1, marks);
    kept(5, marks)?;
    mark_places(stands, header.reordering, order0, order1, marks);
    kept(6, marks)?;
    mark_passing(stands, marks);
    kept(7, marks)?;
    mark_ends(stands, header.sites, order0, order1, marks);
    kept(8, marks)
}

// The cells that break the first broken rule are left marked.
pub fn judge(job: Job, placement: Placement, marks: &mut [bool]) -> Option<Breach>
    requires { ReadyClear job placement marks.old }
    ensures { VerdictMarked (job_of job) (placement_of placement) result marks.new }
{
    let all = stands_of(job, placement);
    let stands = &all[..job.count];
    let mut order0 = [0u32; Job::MAX_CELLS];
    let start0 = order_row(stands, 0, &mut order0);
    let mut order1 = [0u32; Job::MAX_CELLS];
    let start1 = order_row(stands, 1, &mut order1);
    keep_rules(
        &job,
        &placement,
        stands,
        &order0[start0..],
        &order1[start1..],
        marks,
    )
    .err()
}

// The verdict alone; none if all rules hold.
pub fn verdict_of(job: Job, placement: Placement) -> Option<Breach>
    requires { Ready job placement }
    ensures { Judged (verdict (job_of job) (placement_of placement)) result }
{
    let mut marks = [false; Job::MAX_CELLS];
    judge(job, placement, &mut marks[..job.count])
}
