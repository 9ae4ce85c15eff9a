//! Numbers that are drawn one after the other.
ghost use Rattle.std.specs.Prelude.{◌≡◌, ◌<◌, ◌≤◌, ◌%◌, ◌^◌};
ghost use Rattle.made_sky.specs.Draws.{drawn, share};

use std::marker::Model;

/// One more than the greatest state.
const STATES: u64 = 0x8000_0000;

/// A source of drawn numbers. Its value is its state, which is below 2^31.
#[derive(Debug, Drop)]
pub struct Draws {
    state: u64,
}

impl Model for Draws {
    ghost use Rattle.std.specs.Prelude.{ℕ, ◌<◌, ◌^◌};

    ghost Value = { ℕ };

    ghost view = { λ d. d.state };

    ghost invariant = { λ d. d.state < 2 ^ 31 };
}

impl Draws {
    /// The source that a number begins.
    pub fn new(number: u32) -> Draws
        ensures { result ≡ number % 2 ^ 31 }
    {
        Draws {
            state: number as u64 % STATES,
        }
    }

    /// Draws a number below `count`.
    #[tactic(auto, unfolding(crate::specs::Draws::drawn, crate::specs::Draws::share))]
    pub fn draw(&mut self, count: u32) -> u32
        requires { 0 < count }
        ensures state { self.new ≡ drawn self.old }
        ensures drawn { result ≡ share count self.new }
        ensures below { result < count }
    {
        self.state = (1_103_515_245 * self.state + 12_345) % STATES;
        (self.state * count as u64 / STATES) as u32
    }
}
