// A job text and a placement text read one after the other, for every operation that refuses as Score does.

#![tactic(auto)]

ghost use Rattle.texts_read.specs.Reading.{TextsRead};

use job::{Job, Placement};
use job_read::read_job;
use placement_read::read_placement;
use results::Refusal;

// What both texts are read as.
#[derive(Drop)]
pub struct Texts {
    pub job: Job,
    pub placement: Placement,
}

// 1 to 4 as Read does, then 5.
#[tactic(auto, using(crate::specs::Reading::by_job, crate::specs::Reading::by_fault, crate::specs::Reading::by_both))]
pub fn read_texts(job: &[u8], placement: &[u8]) -> Result<Texts, Refusal>
    ensures { TextsRead job.now placement.now result }
{
    let job = read_job(job)?;
    let placement = read_placement(placement, job.count)?;
    Ok(Texts { job, placement })
}
