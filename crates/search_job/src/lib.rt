// The search of a job: its rows as words, and the search of these.

#![tactic(auto)]

ghost use Rattle.std.specs.Prelude.{◌≡◌};
ghost use Rattle.definition.specs.Outcome.{store_for};
ghost use Rattle.job.specs.Value.{job_of};
ghost use Rattle.search_job.specs.Solved.{JobAsked, SolvedIfAny};

use job::{Header, Job};
use search::Found;
use search_row::Rows;

// How many words a job asks for: those that leave room for three states, and for twelve.
const STORE_WORDS: usize = 1048576;

const STORE_WORDS_BY_TWO: usize = 4194304;

// How many words of store a job needs, by its reordering limit.
pub fn store_needed(header: Header) -> usize
    ensures { result ≡ store_for header.reordering }
{
    if header.reordering == 2 {
        return STORE_WORDS_BY_TWO;
    }
    STORE_WORDS
}

// The least cost of a legal placement, and the pose number of each cell; nothing where no placement is legal.
pub fn search_job(job: Job, store: &mut [u32]) -> Option<Found>
    requires { JobAsked job store.old }
    ensures { SolvedIfAny (job_of job) result }
{
    let mut row0 = [0u32; search_row::WORDS];
    let mut row1 = [0u32; search_row::WORDS];
    let sizes = search_row_fill::fill_row(&mut row0, job, 0);
    let other = search_row_fill::fill_row(&mut row1, job, 1);
    let rows = Rows {
        row0: &row0,
        row1: &row1,
        sizes,
        cells1: other.cells,
    };
    search::search(store, rows)
}
