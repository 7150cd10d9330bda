// The reason of a placement: the first broken rule, and every cell that breaks it.

#![tactic(auto)]

ghost use Rattle.definition.specs.Reasons.{reason_of};
ghost use Rattle.job.specs.Value.{job_of, placement_of};
ghost use Rattle.job.specs.Ready.{Ready};
ghost use Rattle.score_reason.specs.Reasons.{ReasonIs};

use job::{Job, Placement};
use score_cell_rules::list_marked;
use score_verdict::judge;

// The broken rule and the cells that break it, counted from 1 and in rising order. Rule 0 and no cells if all rules
// hold, as `put_sentence` of reason_write takes them; there is no heap, so an array holds the cells, the first `count`.
#[derive(Drop)]
pub struct Reason {
    pub rule: u32,
    pub count: usize,
    pub cells: [u32; Job::MAX_CELLS],
}

pub fn reason_of(job: Job, placement: Placement) -> Reason
    requires { Ready job placement }
    ensures { ReasonIs (reason_of (job_of job) (placement_of placement)) result }
{
    let mut all = [false; Job::MAX_CELLS];
    let marks = &mut all[..job.count];
    let breach = judge(job, placement, marks);
    let mut cells = [0u32; Job::MAX_CELLS];
    let count = list_marked(marks, &mut cells);
    Reason {
        rule: breach.map_or(0, |b| b.rule),
        count,
        cells,
    }
}
