// How the cells of a job stand in a placement.

#![tactic(auto)]

ghost use Rattle.std.specs.Prelude.{◌≡◌, ◌-◌, take};
ghost use Rattle.job.specs.Value.{job_of, placement_of};
ghost use Rattle.job.specs.Ready.{Ready};
ghost use Rattle.score_words.specs.Flat.{Flat, EmptyFrom};

use job::{Job, Placement, width_of};
use score_order::Stand;

// The empty sites between an end and the next site; none if they overlap.
pub fn gap_between(end: u32, site: u32) -> usize
    ensures { result ≡ site - end }
{
    site.saturating_sub(end) as usize
}

// The first `count` are the job's cells, the others are empty.
pub fn stands_of(job: Job, placement: Placement) -> [Stand; Job::MAX_CELLS]
    requires { Ready job placement }
    ensures flat { Flat (job_of job) (placement_of placement) (take job.count result) }
    ensures empty { EmptyFrom job.count result }
{
    let mut stands = [Stand::default(); Job::MAX_CELLS];
    for k in 0..job.count {
        let cell = job.cells[k];
        let pose = placement.poses[k];
        let end = pose.site + width_of(cell, pose.layout);
        stands[k] = Stand {
            site: pose.site,
            end,
            row: cell.row,
            given: cell.given,
        };
    }
    stands
}
