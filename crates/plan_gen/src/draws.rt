//! The numbers that a plan is drawn from.
ghost use Rattle.std.specs.Prelude.{◌≡◌, ◌<◌};
ghost use Rattle.plan_gen.specs.Drawing.{next_state, drawn};

use std::marker::Model;

/// Numbers that follow from a seed, one after another: each plan can be made again from its seed alone.
#[derive(Debug, Drop)]
pub struct Draws {
    /// The state behind the last number that was drawn; the seed where there is none.
    pub state: u32,
}

impl Model for Draws {
    ghost use Rattle.std.specs.Prelude.{ℕ};

    ghost Value = { ℕ };

    ghost view = { λ a. a.state };
}

impl Draws {
    /// Draws a number below `n`.
    #[tactic(auto, unfolding(crate::specs::Drawing::next_state, crate::specs::Drawing::drawn))]
    pub fn draw(&mut self, n: u32) -> u32
        requires { 0 < n }
        ensures value { result ≡ drawn n self.old }
        ensures state { self.new ≡ next_state self.old }
        ensures below { result < n }
    {
        let next = (1_103_515_245 * u64::from(self.state) + 12_345) % 2_147_483_648;
        self.state = next as u32;
        self.state / 65_536 % n
    }
}
