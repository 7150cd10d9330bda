// The generator that a load's fields are drawn from.

#![tactic(auto)]

ghost use Rattle.std.specs.Prelude.{◌≡◌};
ghost use Rattle.definition.specs.Draws as paper;
ghost use Rattle.definition.specs.Draws.{◌to◌, drawn};
ghost use Rattle.load_draws.specs.Generators.{generator_of, InForm};

#[derive(Clone, Copy)]
pub struct Generator {
    pub s: u32,
    pub w: u32,
}

// What each draw adds to w.
const STEP: u32 = 362437;

impl Generator {
    // Seed 0 is taken as 1.
    #[tactic(auto, unfolding(definition::specs::Draws::seeded))]
    pub fn seeded(seed: u32) -> Generator
        ensures { generator_of result ≡ paper.seeded seed }
    {
        Generator {
            s: seed.max(1),
            w: 0,
        }
    }

    // As a draw leaves it. Shifts to the left drop what is over 32 bits; sums wrap.
    #[tactic(auto, unfolding(definition::specs::Draws::next))]
    pub fn next(self) -> Generator
        ensures { generator_of result ≡ paper.next (generator_of self) }
    {
        let s = self.s;
        let a = s ^ (s << 13);
        let b = a ^ (a >> 17);
        Generator {
            s: b ^ (b << 5),
            w: self.w.wrapping_add(STEP),
        }
    }

    // A field from `low` to `high`, by the draw that left this.
    #[tactic(auto, unfolding(definition::specs::Draws::drawn))]
    pub fn field(self, low: u32, high: u32) -> u32
        requires { InForm low high }
        ensures { result ≡ drawn (low to high) (generator_of self) }
    {
        low + self.s.wrapping_add(self.w) % (high - low + 1)
    }
}
