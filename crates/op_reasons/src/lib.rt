// Reasons in words: the sentence that names every cell that breaks the first broken rule, and its length.

#![tactic(auto)]

ghost use Rattle.std.specs.Prelude.{[], length};
ghost use Rattle.definition.specs.Outcome.{lent, Met};
ghost use Rattle.definition.specs.Reasons.{reason_of, sentence, reasons};
ghost use Rattle.job.specs.Value.{job_of, placement_of};
ghost use Rattle.text_write.specs.Put.{Wrote};
ghost use Rattle.op_reasons.specs.Answers.{ReasonRoom, ReadWithRoom};

use job::{Job, Placement};
use reason_write::put_sentence;
use results::{Refusal, answer_one, refuse_by};
use score_reason::reason_of;
use texts_read::{Texts, read_texts};

// What is asked of the output.
const ROOM: usize = 1024;

// The text's length.
const FIELDS: usize = 1;

// The sentence of a placement; its length.
fn put_reason(output: &mut [u8], job: Job, placement: Placement) -> usize
    requires { ReasonRoom job placement output.old }
    ensures { Wrote (sentence (reason_of (job_of job) (placement_of placement)))
        output.old 0 output.new result }
{
    let r = reason_of(job, placement);
    put_sentence(output, r.rule, &r.cells, r.count)
}

// 1 to 5 as Score, then 11 by the output.
fn read_with_room(job: &[u8], placement: &[u8], room: usize) -> Result<Texts, Refusal>
    ensures { ReadWithRoom job.now placement.now room result }
{
    let texts = read_texts(job, placement)?;
    if room < ROOM {
        return Err(Refusal::ReasonsOutput);
    }
    Ok(texts)
}

// A refusal, or the sentence.
pub fn reasons_texts(job: &[u8], placement: &[u8], output: &mut [u8], results: &mut [i32]) -> u32
    ensures { Met (reasons job.now placement.now (length output.old)) result
        (lent [] output.old results.old)
        (lent [] output.new results.new) }
{
    match read_with_room(job, placement, output.len()) {
        Ok(texts) => {
            let length = put_reason(output, texts.job, texts.placement);
            answer_one(results, length);
            0
        }
        Err(refusal) => refuse_by(results, refusal, FIELDS),
    }
}
