// Place: the job is read, a cheapest legal placement is searched for, and its text and
// numbers are written to what the caller lends.

#![tactic(auto)]

ghost use Rattle.std.specs.Prelude.{length};
ghost use Rattle.definition.specs.Outcome.{lent, Placed};
ghost use Rattle.job.specs.Value.{job_of, placement_of};
ghost use Rattle.results.specs.Fields.{Listed};
ghost use Rattle.op_place.specs.Poses.{ToPose, PoseBy, ByNumber, Numbered};
ghost use Rattle.op_place.specs.Fields.{fields_in, ReadyText, WroteAnswer};
ghost use Rattle.op_place.specs.Accepted.{Enough, Answered, ToAnswer};
ghost use Rattle.op_place.specs.Buffers.{ReadWithBuffers};

use job::{Cell, Job, Placement, Pose};
use job_read::read_job;
use placement_write::put_placement;
use results::{Fields, Refusal, answer, refuse_by};
use score_numbers::{number_count, numbers_of, push_numbers};
use search_job::{search_job, store_needed};

// What is asked of the output: bytes for each cell.
const LINE_BYTES: usize = 9;

// The text's length, which stands after the numbers.
const LENGTH: usize = 1;

// A pose by its number: a site within the cell's limit, a layout, a mark.
fn pose_of(limit: u32, cell: Cell, a: u32) -> Pose
    requires { ToPose cell a }
    ensures { PoseBy limit cell.given a result }
{
    let x = cell.given + a / 4;
    Pose {
        site: x.saturating_sub(limit),
        layout: a % 4 / 2,
        mark: a % 2,
    }
}

// The placement by pose numbers, cell by cell.
fn placement_of(job: Job, poses: [u32; Job::MAX_CELLS]) -> Placement
    requires { ByNumber job poses }
    ensures { Numbered job poses result }
{
    let mut placement = Placement::empty();
    placement.count = job.count;
    for k in 0..job.count {
        let cell = job.cells[k];
        let offer = job::offer_of(job.header, cell);
        placement.poses[k] = pose_of(offer.limit, cell, poses[k]);
    }
    placement
}

// So many of Score's numbers of a placement, and how long its text is.
fn fields_of(job: Job, placement: Placement, count: usize, bytes: usize) -> Fields
    requires { ReadyText job placement count bytes }
    ensures { Listed (fields_in count (job_of job) (placement_of placement) bytes) result }
{
    let numbers = numbers_of(job, placement);
    let fields = push_numbers(Fields::empty(), numbers, count);
    fields.push(bytes as i32)
}

// The answer: text and fields of the placement found.
fn put_answer(
    job: Job,
    count: usize,
    poses: [u32; Job::MAX_CELLS],
    output: &mut [u8],
    results: &mut [i32],
)
    requires { ToAnswer job count poses (length output.old) }
    ensures { WroteAnswer job count poses output.old output.new
        results.old results.new }
{
    let placement = placement_of(job, poses);
    let bytes = put_placement(output, placement);
    let fields = fields_of(job, placement, count, bytes);
    answer(results, fields);
}

// Of an accepted job whose text has so many numbers, with buffers that are enough. No word of the store outlives the
// call.
fn place_job(
    job: Job,
    count: usize,
    store: &mut [u32],
    output: &mut [u8],
    results: &mut [i32],
) -> u32
    requires { Enough job count (length store.old) (length output.old) }
    ensures { Answered count (job_of job) result
        (lent store.old output.old results.old)
        (lent store.new output.new results.new) }
{
    let found = search_job(job, &mut *store);
    search_lanes::clear(store);
    match found {
        Some(found) => {
            let poses = found.poses;
            put_answer(job, count, poses, output, results);
            0
        }
        None => refuse_by(results, Refusal::NoLegal, count + LENGTH),
    }
}

// The job that a text says, for buffers of so many words and bytes: refusals 1 to 4 as Read, then 6 and 7.
fn read_with_buffers(job: &[u8], words: usize, room: usize) -> Result<Job, Refusal>
    ensures { ReadWithBuffers job.now words room result }
{
    let j = read_job(job)?;
    let words_asked = store_needed(j.header);
    if words < words_asked {
        return Err(Refusal::Store);
    }
    let bytes_asked = LINE_BYTES * j.count;
    if room < bytes_asked {
        return Err(Refusal::Output);
    }
    Ok(j)
}

// Place: a refusal by the job or the buffers, then 8 or an answer.
pub fn place_texts(job: &[u8], store: &mut [u32], output: &mut [u8], results: &mut [i32]) -> u32
    ensures { Placed job.now result
        (lent store.old output.old results.old)
        (lent store.new output.new results.new) }
{
    let count = number_count(job);
    match read_with_buffers(job, store.len(), output.len()) {
        Ok(j) => place_job(j, count, store, output, results),
        Err(refusal) => refuse_by(results, refusal, count + LENGTH),
    }
}
