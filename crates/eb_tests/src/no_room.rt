ghost use Rattle.std.specs.Prelude.{◌≡◌, false, true};

use eb_base::NoMemory;
use std::alloc::Global;
use wb_signals::{Answer, Master, Op};

// A master that has no memory for any record. While its cycle is open that has one pair, which was answered by ERR.
#[derive(Drop)]
pub struct NoRoom {
    is_open: bool,
    was_cut: bool,
    ghost once: { is_open ≡ true → was_cut ≡ false },
}

impl NoRoom {
    pub fn new() -> NoRoom
        ensures closed { result.is_open ≡ false }
    {
        NoRoom {
            is_open: false,
            was_cut: false,
        }
    }
}

impl Master for NoRoom {
    ghost use Rattle.std.specs.Prelude.{[], ◌∷◌, true, false, if◌then◌else◌};
    ghost use Rattle.eb_base.specs.declared.width.Width.TheVariants.{W32};
    ghost use Rattle.wb_signals.specs.declared.answer.Answer.TheVariants.{Err};

    ghost cycles = { λ s. record {
      made = if s.was_cut
          then record {
            master = 0;
            cut = true;
            pairs = record {
              request = record { write = false; adr = 0; dat = 0; sel = 1 };
              answer = Err;
            } ∷ [];
          } ∷ []
          else [];
      opened = if s.is_open
          then record { request = record { write = false; adr = 0; dat = 0; sel = 1 }; answer = Err } ∷ []
          else [];
    } };

    ghost Kept = { Unit {0} };

    ghost identity = { λ s. record { bus = W32; number = 0; kept = tt } };

    ghost answered = { λ s. if s.is_open then Err ∷ [] else [] };

    fn record(&mut self, _: Global, _: &[Op], _: bool) -> Result<(), NoMemory> {
        Err(NoMemory)
    }

    fn answers(&self) -> usize {
        if self.is_open { 1 } else { 0 }
    }

    fn answer(&self, _: usize) -> Answer {
        Answer::Err
    }

    fn cut(&mut self) {
        self.is_open = false;
        self.was_cut = true;
    }

    fn is_open(&self) -> bool {
        self.is_open
    }
}
