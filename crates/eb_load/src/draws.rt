// The numbers that a generated stream is made of.
ghost use Rattle.std.specs.Prelude.{◌≡◌, ◌<◌, ◌^◌};
ghost use Rattle.eb_load.specs.Draws.{next, drawn};

use std::marker::Model;

// A linear congruential generator, whose state has 31 bits after the first draw. Contracts see the state.
#[derive(Drop)]
pub struct Draws {
    state: u32,
}

impl Model for Draws {
    // The numbers that a generated stream is made of.
    ghost use Rattle.std.specs.Prelude.{ℕ};

    ghost Value = { ℕ };

    ghost view = { λ d. d.state };
}

impl Draws {
    pub fn from(state: u32) -> Draws
        ensures state { result ≡ state }
    {
        Draws { state }
    }

    // The next number, of 15 bits.
    #[tactic(auto, unfolding(crate::specs::Draws::next, crate::specs::Draws::drawn))]
    pub fn draw(&mut self) -> u32
        ensures number { result ≡ drawn self.old }
        ensures state { self.new ≡ next self.old }
        ensures small { result < 2 ^ 15 }
    {
        let state = (u64::from(self.state) * 1_103_515_245 + 12_345) % 0x8000_0000;
        self.state = state as u32;
        self.state / 65_536
    }
}
