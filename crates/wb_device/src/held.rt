//! A device on a classic bus, clock by clock.
ghost use Rattle.std.specs.Prelude.{◌≡◌, Some, None, ◌∷◌, [], true, ◌≤◌};
ghost use Rattle.wb_signals.specs.Content.{size_of};
ghost use Rattle.wb_signals.specs.Standing.{stands, contents_stood};
ghost use Rattle.wb_device.specs.Standing.{held_standing, held_leaf};
ghost use Rattle.wb_device.specs.Line.{is_taken, device_leaf};

use crate::Device;
use wb_signals::{Answer, Classic, Op};

/// A request that stands, with its answer and the clocks that it has stood.
#[derive(Clone, Copy, Debug)]
pub struct Standing {
    pub request: Op,
    pub answer: Answer,
    pub clocks: u8,
}

/// A device at which a request stands for a fixed number of clocks.
#[derive(Debug, Drop)]
pub struct Held {
    device: Device,
    wait: u8,
    standing: Option<Standing>,
}

impl Held {
    /// The device with this wait.
    pub fn new(device: Device, wait: u8) -> Held
        requires wait { wait ≤ 15 }
        ensures slave { ⟦<Held as Classic>⟧.slave result ≡ held_leaf device wait None }
        ensures sound { ⟦<Held as Classic>⟧.is_sound result }
    {
        Held {
            device,
            wait,
            standing: None,
        }
    }

    /// The request as it stands in this clock.
    #[tactic(auto, unfolding(wb_signals::specs::Wiring::stepped))]
    fn stands(&mut self, op: Op) -> Standing
        requires taken { is_taken self.old.device op ≡ true }
        ensures standing { held_standing (Some result) ≡
            Some (stands (device_leaf self.old.device self.old.wait true) (self.old.device.content ∷ [])
            (held_standing self.old.standing) op) }
        ensures content { self.new.device.content ∷ [] ≡
            contents_stood (device_leaf self.old.device self.old.wait true) (self.old.device.content ∷ [])
            (held_standing self.old.standing) (Some op) }
        ensures bus { self.new.device.bus ≡ self.old.device.bus }
        ensures size { size_of self.new.device.content ≡ size_of self.old.device.content }
        ensures wait { self.new.wait ≡ self.old.wait }
    {
        match self.standing {
            Some(standing) => standing,
            None => Standing {
                request: op,
                answer: self.device.apply(&op),
                clocks: 0,
            },
        }
    }
}

impl Classic for Held {
    ghost use Rattle.wb_device.specs.Standing.{held_leaf, Within};

    ghost slave = { λ h. held_leaf h.device h.wait h.standing };

    ghost is_sound = { λ h. Within h.wait h.standing };

    fn tick(&mut self, op: Option<Op>) -> Option<Answer> {
        match op {
            None => None,
            Some(op) => {
                let mut standing = self.stands(op);
                if standing.clocks == self.wait {
                    self.standing = None;
                    Some(standing.answer)
                } else {
                    standing.clocks += 1;
                    self.standing = Some(standing);
                    None
                }
            }
        }
    }
}
