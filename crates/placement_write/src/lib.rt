// Printing a placement: lines and the whole text, into a lent output.

#![tactic(auto)]

ghost use Rattle.definition.specs.Placement.{line_of, text_of};
ghost use Rattle.text_write.specs.Put.{Room, Wrote};
ghost use Rattle.job.specs.Value.{pose_of, placement_of};
ghost use Rattle.placement_write.specs.Room.{PlacementRoom};

use job::{Placement, Pose};
use text_write::put_field;

// The line of one cell.
fn put_pose(output: &mut [u8], at: usize, pose: Pose) -> usize
    requires { Room (line_of (pose_of pose)) output.old at }
    ensures { Wrote (line_of (pose_of pose)) output.old at output.new result }
{
    let p = put_field(&mut *output, at, pose.site, b',');
    let q = put_field(&mut *output, p, pose.layout, b',');
    put_field(output, q, pose.mark, b'\n')
}

// The whole text, from the output's first byte on; its length. Bytes past it stay as they are.
pub fn put_placement(output: &mut [u8], placement: Placement) -> usize
    requires { PlacementRoom placement output.old }
    ensures { Wrote (text_of (placement_of placement)) output.old 0 output.new result }
{
    let mut at = 0;
    for pose in &placement.poses[..placement.count] {
        at = put_pose(&mut *output, at, *pose);
    }
    at
}
