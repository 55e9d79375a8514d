//! The numbers that a seed gives.

ghost use Rattle.std.specs.Prelude.{◌≡◌};
ghost use Rattle.wef_made.specs.Made as made;
ghost use Rattle.wef_made.specs.Made.{Takes};

use std::marker::Model;

/// Numbers below 2^16 that a seed gives, so many, one after the other: a linear congruential generator
/// over 64 bits, of whose state the highest 16 bits are drawn.
#[derive(Drop)]
pub struct Draws {
    state: u64,
    left: u32,
}

impl Model for Draws {
    ghost use Rattle.std.specs.Prelude.{ℕ, List};
    ghost use Rattle.wef_made.specs.Made.{draws};

    ghost Value = { List ℕ };

    ghost view = { λ d. draws d.state d.left };
}

impl Draws {
    /// The first numbers that a seed gives, so many.
    pub fn new(seed: u64, size: u32) -> Draws
        ensures { result ≡ made.draws seed size }
    {
        Draws {
            state: seed,
            left: size,
        }
    }

    /// Draws the next number, if one is left.
    #[tactic(auto, using(crate::proofs::Drawn::one_drawn, crate::proofs::Drawn::none_drawn))]
    pub fn next(&mut self) -> Option<u64>
        ensures { Takes self.old result self.new }
    {
        if self.left == 0 {
            return None;
        }
        self.left -= 1;
        self.state = next_state(self.state);
        Some(self.state / 281_474_976_710_656)
    }
}

fn next_state(state: u64) -> u64
    ensures { result ≡ made.next_state state }
{
    let product = u128::from(state) * 6_364_136_223_846_793_005;
    ((product + 1_442_695_040_888_963_407) % 18_446_744_073_709_551_616) as u64
}
