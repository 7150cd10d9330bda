// The exported C functions, each over slices that are passed as address and length.

#![tactic(auto)]

ghost use Rattle.std.specs.Prelude.{[], length};
ghost use Rattle.definition.specs.Outcome.{read, number_count, score, Told, lent, Met, Placed, Demand3Of};
ghost use Rattle.definition.specs.Load.{load, LoadedOf};
ghost use Rattle.definition.specs.Reasons.{reasons, ReasonedOf};
ghost use Rattle.definition.specs.Demands.{read_shape, score_shape, fault_shape, place_shape, load_shape, reasons_shape};
ghost use Rattle.definition.specs.Demands.{Demand1};
ghost use Rattle.definition.specs.Demands.{alone, unsigned};
ghost use Rattle.definition.specs.FaultLine.{ToldFault, CopiedFault};

use job_read::read_job;
use op_fault::{copy_fault, tell_fault};
use op_load::load_text;
use op_place::place_texts;
use op_reasons::reasons_texts;
use op_score::{field_count, score_texts};
use results::{answer, answer_one, refuse_by};

// Read's fields: the cell count.
const READ_FIELDS: usize = 1;

// Read: number, line and cell count go to the results, and the number is returned.
#[unsafe(no_mangle)]
pub extern "C" fn refiner_read(job: &[u8], results: &mut [i32]) -> u32
    ensures told { Told (read job.now) result results.old results.new }
    ensures demand1 { Demand1 read_shape result (alone results.old) (alone results.new) }
{
    match read_job(job) {
        Ok(job) => {
            answer_one(results, job.count);
            0
        }
        Err(refusal) => refuse_by(results, refusal, READ_FIELDS),
    }
}

// Score: number, line, rule, cell and the numbers go to the results, and the number is returned. There are six
// numbers, or seven for a job text that begins with `K,`.
#[unsafe(no_mangle)]
pub extern "C" fn refiner_score(job: &[u8], placement: &[u8], results: &mut [i32]) -> u32
    ensures told { Told (score job.now placement.now) result
        results.old results.new }
    ensures demand1 { Demand1 (score_shape (number_count job.now)) result
        (alone results.old) (alone results.new) }
{
    match score_texts(job, placement) {
        Ok(fields) => {
            answer(results, fields);
            0
        }
        Err(refusal) => refuse_by(results, refusal, field_count(job)),
    }
}

// Fault line for the host: which text (0 the job, 1 the placement), first byte and length of the line that Score
// reports go to `part`, and Score's number is returned.
#[unsafe(no_mangle)]
pub extern "C" fn refiner_fault(job: &[u8], placement: &[u8], part: &mut [u64]) -> u32
    ensures told_fault { ToldFault job.now placement.now result
        part.old part.new }
    ensures demand1 { Demand1 fault_shape result (unsigned [] part.old) (unsigned [] part.new) }
{
    tell_fault(job, placement, part)
}

// Fault line with the line itself, which is copied to the output as far as that reaches.
#[unsafe(no_mangle)]
pub extern "C" fn refiner_fault_line<'a>(
    job: &'a [u8],
    placement: &'a [u8],
    output: &mut [u8],
    part: &mut [u64],
) -> u32
    ensures copied_fault { CopiedFault job.now placement.now result
        output.old output.new part.old part.new }
    ensures demand1 { Demand1 fault_shape result
        (unsigned output.old part.old) (unsigned output.new part.new) }
{
    copy_fault(job, placement, output, part)
}

// Place: the placement's text goes to the output, number, line, Score's numbers and the text's length to the results,
// and the number is returned. No list of moves ends in a cheaper legal placement.
#[unsafe(no_mangle)]
pub extern "C" fn refiner_place(
    job: &[u8],
    store: &mut [u32],
    output: &mut [u8],
    results: &mut [i32],
) -> u32
    ensures placed { Placed job.now result
        (lent store.old output.old results.old)
        (lent store.new output.new results.new) }
    ensures demand1 { Demand1 (place_shape (number_count job.now)) result
        (lent store.old output.old results.old)
        (lent store.new output.new results.new) }
    ensures demand3of { Demand3Of job.now result
        (lent store.old output.old results.old)
        (lent store.new output.new results.new) }
{
    place_texts(job, store, output, results)
}

// A load for the farm: the text of a job goes to the output, number, line and the text's length to the results, and
// the number is returned. The reader accepts the job, with so many cells.
#[unsafe(no_mangle)]
pub extern "C" fn refiner_load(seed: u32, cells: u32, output: &mut [u8], results: &mut [i32]) -> u32
    ensures met { Met (load seed cells (length output.old)) result
        (lent [] output.old results.old)
        (lent [] output.new results.new) }
    ensures demand1 { Demand1 load_shape result
        (lent [] output.old results.old)
        (lent [] output.new results.new) }
    ensures loaded_of { LoadedOf cells result
        (lent [] output.old results.old)
        (lent [] output.new results.new) }
{
    load_text(seed, cells, output, results)
}

// Reasons in words: the sentence that names every cell that breaks the first broken rule goes to the output, number,
// line and the text's length to the results, and the number is returned. From the sentence the rule and the cells can
// be had back, and they are Score's.
#[unsafe(no_mangle)]
pub extern "C" fn refiner_reasons(
    job: &[u8],
    placement: &[u8],
    output: &mut [u8],
    results: &mut [i32],
) -> u32
    ensures met { Met (reasons job.now placement.now (length output.old)) result
        (lent [] output.old results.old)
        (lent [] output.new results.new) }
    ensures demand1 { Demand1 reasons_shape result
        (lent [] output.old results.old)
        (lent [] output.new results.new) }
    ensures reasoned_of { ReasonedOf job.now placement.now result
        (lent [] output.old results.old)
        (lent [] output.new results.new) }
{
    reasons_texts(job, placement, output, results)
}
