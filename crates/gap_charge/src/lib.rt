// What a gap costs. Document 02, A5: "forbidden if the gap is 1, charged if it is below 4"; A7: where cells touch, and
// against filler.

#![tactic(auto)]

ghost use Rattle.std.specs.Prelude.{◌≡◌};
ghost use Rattle.definition.specs.Cost.{charge, touching, filled};

pub const FORBIDDEN_GAP: usize = 1;

// What a step costs at a gap; none is counted at the forbidden one.
pub fn charge_of(gap: usize) -> u32
    ensures { result ≡ charge gap }
{
    match gap {
        FORBIDDEN_GAP => 0,
        0..4 => 1,
        _ => 0,
    }
}

// Of that, what is charged where cells touch.
pub fn touching_of(gap: usize) -> u32
    ensures { result ≡ touching gap }
{
    if gap == 0 { charge_of(gap) } else { 0 }
}

// And what is charged of a filled step.
pub fn filled_of(gap: usize) -> u32
    ensures { result ≡ filled gap }
{
    if gap == 0 { 0 } else { charge_of(gap) }
}
