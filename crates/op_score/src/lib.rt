// Score: the two texts are read, and the placement is judged and counted.

#![tactic(auto)]

ghost use Rattle.definition.specs.Rules.{verdict};
ghost use Rattle.std.specs.Prelude.{◌≡◌};
ghost use Rattle.definition.specs.Outcome.{number_count, score_field_count, score_fields, score};
ghost use Rattle.job.specs.Value.{job_of, placement_of};
ghost use Rattle.results.specs.Fields.{Listed};
ghost use Rattle.op_score.specs.Scores.{ToScore, Scores};

use job::{Job, Placement};
use results::{Fields, Refusal};
use score_numbers::{Numbers, number_count, numbers_of, push_numbers};
use score_verdict::verdict_of;
use texts_read::read_texts;

// Rule and cell, which stand before the numbers.
const FIRST: usize = 2;

// The fields of a placement: rule and cell, or 0, 0 and so many numbers.
fn fields_of(job: &Job, placement: &Placement, count: usize) -> Fields
    requires { ToScore job.now placement.now count }
    ensures { Listed (score_fields count (job_of job.now) (placement_of placement.now)
        (verdict (job_of job.now) (placement_of placement.now))) result }
{
    match verdict_of(*job, *placement) {
        Some(breach) => {
            let fields = Fields::empty().push(breach.rule as i32);
            let fields = fields.push(breach.cell as i32);
            push_numbers(fields, Numbers::zero(), count)
        }
        None => {
            let fields = Fields::zeros(FIRST);
            push_numbers(fields, numbers_of(*job, *placement), count)
        }
    }
}

// How many fields Score has, which are all 0 where it refuses.
pub fn field_count(job: &[u8]) -> usize
    ensures { result ≡ score_field_count (number_count job.now) }
{
    FIRST + number_count(job)
}

pub fn score_texts(job: &[u8], placement: &[u8]) -> Result<Fields, Refusal>
    ensures { Scores (score job.now placement.now) (score_field_count (number_count job.now)) result }
{
    let texts = read_texts(job, placement)?;
    Ok(fields_of(&texts.job, &texts.placement, number_count(job)))
}
