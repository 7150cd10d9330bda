// Drift: the signed sum of displacements, divided by the number of cells and rounded, halves to even on both sides of
// zero.

#![tactic(auto)]

ghost use Rattle.std.specs.Prelude.{◌≡◌, ◌*◌, pos, ◌-ℤ◌};
ghost use Rattle.definition.specs.Cost.{nearest};
ghost use Rattle.score_drift.specs.Total.{Digits, InRange, SumOver, Average, Displaced, drift_of};

use score_order::Stand;
use std::cmp::Ordering;

// How far a cell was moved to the right; negative if to the left.
fn displacement(site: u32, given: u32) -> i32
    requires { InRange site given }
    ensures { result ≡ pos site -ℤ pos given }
{
    site as i32 - given as i32
}

// The signed sum of the displacements of all cells.
pub fn total_shift(stands: &[Stand]) -> i32
    requires { Digits stands.now }
    ensures { Displaced stands.now result }
{
    let mut total = 0;
    for stand in stands {
        total += displacement(stand.site, stand.given);
    }
    total
}

// d over n in hundredths, a half going to the even hundredth.
fn hundredths_of(d: u32, n: u32) -> u32
    requires { Average d n }
    ensures { result ≡ nearest (100 * d) n }
{
    let whole = 100 * d / n;
    let rest = 2 * (100 * d % n);
    match rest.cmp(&n) {
        Ordering::Less => whole,
        Ordering::Equal => whole + whole % 2,
        Ordering::Greater => whole + 1,
    }
}

// A signed sum over n cells, in hundredths of a site: rounded by its size, so that both sides of zero are alike.
pub fn drift_from(s: i32, n: u32) -> i32
    requires { SumOver s n }
    ensures { result ≡ drift_of s n }
{
    if n == 0 {
        return 0;
    }
    let h = hundredths_of(s.unsigned_abs(), n) as i32;
    if s < 0 { -h } else { h }
}
