// A load: refusals 9 and 10 before any byte is written, or the job's text and its length.

#![tactic(auto)]

ghost use Rattle.std.specs.Prelude.{◌≡◌, [], length, MatchResult};
ghost use Rattle.definition.specs.Load.{load, load_refusal};
ghost use Rattle.results.specs.Refusals.{refusal_of};
ghost use Rattle.definition.specs.Outcome.{without_line, lent, Met};

use job::Job;
use load_write::put_load;
use results::{Refusal, answer_one, refuse_by};

// What is asked of the output.
const ROOM: usize = 8192;

// The text's length.
const FIELDS: usize = 1;

// 9 by the count, 10 by the output.
#[tactic(auto, unfolding(definition::specs::Load::load_refusal, definition::specs::Job::first_failing))]
fn load_refusal(cells: u32, room: usize) -> Result<(), Refusal>
    ensures { MatchResult result (λ _. load_refusal cells room ≡ 0)
        (λ refusal. refusal_of refusal ≡ without_line (load_refusal cells room)) }
{
    if Job::MAX_CELLS < cells as usize {
        return Err(Refusal::LoadCount);
    }
    if room < ROOM {
        return Err(Refusal::LoadOutput);
    }
    Ok(())
}

pub fn load_text(seed: u32, cells: u32, output: &mut [u8], results: &mut [i32]) -> u32
    ensures { Met (load seed cells (length output.old)) result
        (lent [] output.old results.old)
        (lent [] output.new results.new) }
{
    if let Err(refusal) = load_refusal(cells, output.len()) {
        return refuse_by(results, refusal, FIELDS);
    }
    let length = put_load(output, seed, cells);
    answer_one(results, length);
    0
}
