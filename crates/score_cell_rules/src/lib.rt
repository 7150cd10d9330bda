// Marks of the cells that break a rule: made by rules 1 to 4 and 7, and read.

#![tactic(auto)]

ghost use Rattle.std.specs.Prelude.{◌≡◌, ℕ, ◌<◌, ◌≤◌, true, map, suc, length};
ghost use Rattle.definition.specs.Lists.{from, keep};
ghost use Rattle.definition.specs.Job.{max_cells};
ghost use Rattle.definition.specs.Rules.{lowest, breaks1, breaks3};
ghost use Rattle.job.specs.Value.{job_of, placement_of};
ghost use Rattle.score_order.specs.Words.{Below};
ghost use Rattle.score_cell_rules.specs.Tests.{past_in, share_in, clash_in, clashes_in, wrong_in, passes_in};
ghost use Rattle.score_cell_rules.specs.Tests.{Two, ByOrder, ByOffer};
ghost use Rattle.score_cell_rules.specs.Marks.{marked_in, Arrays, Added, Tried, CellsListed};
ghost use Rattle.score_cell_rules.specs.Lowest.{LowestIs};
ghost use Rattle.score_cell_rules.specs.Quick.{InLine, TallRising};

use job::{Job, Placement, offer_of, offers_choice, offers_site, stands};
use score_order::Stand;

// Each cell for which `breaks` holds is marked.
pub fn mark_each<F: Fn(usize) -> bool>(marks: &mut [bool], breaks: F)
    requires { (k : ℕ) → k < length marks.old → F.pre breaks k }
    ensures { Tried (F.post breaks) marks.old marks.new }
{
    for (k, mark) in marks.iter_mut().enumerate() {
        *mark |= breaks(k);
    }
}

// Rule 1: a layout or a mirror mark that the cell is not offered.
pub fn mark_unoffered(job: &Job, placement: &Placement, marks: &mut [bool])
    requires { ByOffer job.now placement.now marks.old }
    ensures { Added (breaks1 (job_of job.now) (placement_of placement.now)) marks.old marks.new }
{
    mark_each(
        marks,
        |k| !offers_choice(offer_of(job.header, job.cells[k]), placement.poses[k]),
    );
}

// Rule 3: a site too far from the given one.
pub fn mark_far(job: &Job, placement: &Placement, marks: &mut [bool])
    requires { ByOffer job.now placement.now marks.old }
    ensures { Added (breaks3 (job_of job.now) (placement_of placement.now)) marks.old marks.new }
{
    mark_each(
        marks,
        |k| !offers_site(offer_of(job.header, job.cells[k]), placement.poses[k]),
    );
}

// Rule 2.
pub fn mark_past(stands: &[Stand], sites: u32, marks: &mut [bool])
    requires { length marks.old ≡ length stands.now }
    ensures { Added (past_in stands.now sites) marks.old marks.new }
{
    mark_each(marks, |k| sites < stands[k].end);
}

// Rule 4: cells of two row numbers share a row.
#[tactic(auto, unfolding(crate::specs::Tests::share_in))]
fn share(a: u32, b: u32) -> bool
    ensures { result ≡ share_in a b }
{
    (stands(a, 0) && stands(b, 0)) || (stands(a, 1) && stands(b, 1))
}

// Two different cells share a site in a row.
#[tactic(auto, unfolding(crate::specs::Tests::clash_in))]
fn clash(stands: &[Stand], k: usize, b: usize) -> bool
    requires { Two stands.now k b }
    ensures { result ≡ clash_in stands.now k b }
{
    let stand = stands[k];
    let other = stands[b];
    b != k && share(stand.row, other.row) && stand.site < other.end && other.site < stand.end
}

fn clashes(stands: &[Stand], k: usize) -> bool
    requires { k < length stands.now }
    ensures { result ≡ clashes_in stands.now k }
{
    (0..stands.len()).any(|b| clash(stands, k, b))
}

// The quick test: no cell of the list begins before all that precede it have ended.
fn in_line(stands: &[Stand], order: &[u32]) -> bool
    requires { Below (length stands.now) order.now }
    ensures { result ≡ true → InLine stands.now order.now }
{
    let mut reach: u32 = 0;
    for cell in order {
        let stand = stands[*cell as usize];
        if stand.site < reach {
            return false;
        }
        reach = reach.max(stand.end);
    }
    true
}

// Every pair of cells is tried only if a row fails the quick test.
pub fn mark_overlaps(stands: &[Stand], order0: &[u32], order1: &[u32], marks: &mut [bool])
    requires { ByOrder stands.now order0.now order1.now marks.old }
    ensures { Added (clashes_in stands.now) marks.old marks.new }
{
    if in_line(stands, order0) && in_line(stands, order1) {
        return;
    }
    mark_each(marks, |k| clashes(stands, k));
}

// Rule 7: tall cell b is on the wrong side of cell k.
#[tactic(auto, unfolding(crate::specs::Tests::wrong_in))]
fn wrong(stands: &[Stand], k: usize, b: usize) -> bool
    requires { Two stands.now k b }
    ensures { result ≡ wrong_in stands.now k b }
{
    let site = stands[k].site;
    let other = stands[b].site;
    stands[b].row == 2 && ((b < k && site < other) || (k < b && other < site))
}

#[tactic(auto, unfolding(crate::specs::Tests::passes_in))]
fn passes(stands: &[Stand], k: usize) -> bool
    requires { k < length stands.now }
    ensures { result ≡ passes_in stands.now k }
{
    stands[k].row == 2 && (0..stands.len()).any(|b| wrong(stands, k, b))
}

// The quick test: the tall cells' sites do not fall in file order.
fn tall_rising(stands: &[Stand]) -> bool
    ensures { result ≡ true → TallRising stands.now }
{
    let mut reach: u32 = 0;
    for stand in stands {
        let site = stand.site;
        if stand.row == 2 {
            if site < reach {
                return false;
            }
            reach = site;
        }
    }
    true
}

// Every pair of cells is tried only if the quick test fails.
pub fn mark_passing(stands: &[Stand], marks: &mut [bool])
    requires { length marks.old ≡ length stands.now }
    ensures { Added (passes_in stands.now) marks.old marks.new }
{
    if tall_rising(stands) {
        return;
    }
    mark_each(marks, |k| passes(stands, k));
}

// The lowest cell that is marked, counted from 1.
pub fn lowest_marked(marks: &[bool]) -> Option<u32>
    requires { length marks.now ≤ max_cells }
    ensures { LowestIs (lowest (marked_in marks.now) (from 0 (length marks.now))) result }
{
    let first = marks.iter().position(|mark| *mark);
    first.map(|k| k as u32 + 1)
}

// The marked cells, counted from 1, are written to the start of `list` in rising order; the answer is how many. The
// list is lent, since there is no heap.
pub fn list_marked(marks: &[bool], list: &mut [u32]) -> usize
    requires { Arrays marks.now list.old }
    ensures { CellsListed (map suc (keep (marked_in marks.now) (from 0 (length marks.now)))) result list.new }
{
    let mut n: usize = 0;
    for (k, mark) in marks.iter().enumerate() {
        if *mark {
            list[n] = k as u32 + 1;
            n += 1;
        }
    }
    n
}
