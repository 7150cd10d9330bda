// Steps: the charge of a gap, the differing heights of neighbours, and their sum over a row; those where cells touch
// and filled ones apart.

#![tactic(auto)]

ghost use Rattle.std.specs.Prelude.{◌≤◌};
ghost use Rattle.definition.specs.Lists.{sum_next};
ghost use Rattle.definition.specs.Cost.{steps_at};
ghost use Rattle.job.specs.Value.{job_of, placement_of};
ghost use Rattle.score_steps.specs.Heights.{edge_of, EdgeAt, Unlike};
ghost use Rattle.score_steps.specs.Steps.{differing_in, PlacedRow, AtGap, RowSteps};

use gap_charge::{filled_of, touching_of};
use job::{Cell, Job, Placement, Pose, first_of, height_of};
use score_order::Stand;
use score_words::gap_between;

// A cell as it stands.
#[derive(Clone, Copy)]
struct Placed {
    cell: Cell,
    pose: Pose,
}

#[derive(Clone, Copy, PartialEq, Eq)]
enum Side {
    Left,
    Right,
}

// Where the two heights at a side begin: a mirrored cell has those of its sides exchanged.
fn edge_of(of: u32, mark: u32, side: Side, row: u32) -> usize
    requires { row ≤ 1 }
    ensures { EdgeAt (edge_of side of mark row) of result }
{
    let first = first_of(of, row);
    if (mark == 1) == (side == Side::Right) {
        first
    } else {
        first + 2
    }
}

// The differing heights of a cell and its right neighbour.
fn differing_heights(left: Placed, right: Placed, row: u32) -> u32
    requires { row ≤ 1 }
    ensures { Unlike (differing_in left right row) result }
{
    let Placed { cell: a, pose: p } = left;
    let Placed { cell: b, pose: q } = right;
    let x = edge_of(a.row, p.mark, Side::Right, row);
    let y = edge_of(b.row, q.mark, Side::Left, row);
    let high = height_of(a, p.layout, x) != height_of(b, q.layout, y);
    let low = height_of(a, p.layout, x + 1) != height_of(b, q.layout, y + 1);
    u32::from(high) + u32::from(low)
}

// Those where cells touch, and those that are filled.
#[derive(Clone, Copy)]
pub struct Steps {
    pub touching: u32,
    pub filled: u32,
}

// The steps of a cell and its right neighbour: the heights that differ, at the charge of their gap.
fn steps_of(gap: usize, left: Placed, right: Placed, row: u32) -> Steps
    requires { row ≤ 1 }
    ensures { AtGap gap (differing_in left right row) result }
{
    let unlike = differing_heights(left, right, row);
    Steps {
        touching: touching_of(gap) * unlike,
        filled: filled_of(gap) * unlike,
    }
}

// The steps of a row, whose cells from left to right are those of `order`.
pub fn steps_in(job: Job, placement: Placement, stands: &[Stand], order: &[u32], row: u32) -> Steps
    requires { PlacedRow job placement stands.now order.now row }
    ensures { RowSteps (λ f. sum_next (steps_at f (job_of job) (placement_of placement) row) order.now) result }
{
    let mut touching = 0;
    let mut filled = 0;
    for i in 1..order.len() {
        let a = order[i - 1] as usize;
        let b = order[i] as usize;
        let left = Placed {
            cell: job.cells[a],
            pose: placement.poses[a],
        };
        let right = Placed {
            cell: job.cells[b],
            pose: placement.poses[b],
        };
        let steps = steps_of(gap_between(stands[a].end, stands[b].site), left, right, row);
        touching += steps.touching;
        filled += steps.filled;
    }
    Steps { touching, filled }
}
