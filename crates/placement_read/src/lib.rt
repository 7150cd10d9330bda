// Reading a placement text: one line after another, as many as are due.

#![tactic(auto)]

ghost use Rattle.std.specs.Prelude.{◌+◌, ◌≤◌, length};
ghost use Rattle.definition.specs.Job.{max_cells};
ghost use Rattle.placement_read.specs.Reading.{PoseFrom, FaultAt, ReadAs};

use job::{Placement, Pose};
use results::Refusal;
use text_scan::read_numbers;

// A pose and where the next line begins.
#[derive(Drop)]
pub struct PoseLine {
    pub next: usize,
    pub pose: Pose,
}

// The pose that the line from `at` on says.
fn read_pose(text: &[u8], at: usize) -> Option<PoseLine>
    requires { at ≤ length text.now }
    ensures { PoseFrom text.now at result }
{
    let n = read_numbers(text, at)?;
    if n.count != 3 {
        return None;
    }
    Some(PoseLine {
        next: n.next,
        pose: Pose {
            site: n.values[0],
            layout: n.values[1],
            mark: n.values[2],
        },
    })
}

fn faulty(line: usize) -> Refusal
    requires { line ≤ max_cells + 1 }
    ensures { FaultAt line result }
{
    Refusal::Placement(line as u32)
}

// What the text says of `due` cells, or the earliest line that is bad, missing or surplus.
pub fn read_placement(text: &[u8], due: usize) -> Result<Placement, Refusal>
    requires { due ≤ max_cells }
    ensures { ReadAs text.now due result }
{
    let mut placement = Placement::empty();
    let mut at = 0;
    for n in 0..due {
        let Some(line) = read_pose(text, at) else {
            return Err(faulty(n + 1));
        };
        placement.poses[n] = line.pose;
        at = line.next;
    }
    if at < text.len() {
        return Err(faulty(due + 1));
    }
    placement.count = due;
    Ok(placement)
}
