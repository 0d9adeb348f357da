//! How a server's command ends otherwise than well.
ghost use Rattle.std.specs.Prelude.{◌≡◌};
ghost use Rattle.eb_serving.specs.declared.fault.ServingFault.TheVariants as serving;

use eb_text::{Fault, Status};

/// How a server's command ended otherwise than well. How its streams ended stands in its output.
#[derive(Debug, Drop)]
pub enum ServingFault {
    /// A fault that other commands have too.
    Common(Fault),
    /// A door could not be made.
    Door,
}

impl ServingFault {
    ghost use Rattle.eb_serving.specs.ServingLines.{serving_status};

    /// Its status.
    pub fn status(&self) -> Status
        ensures status { result ≡ serving_status self.now }
    {
        match self {
            ServingFault::Common(fault) => fault.status(),
            ServingFault::Door => Status::DOOR,
        }
    }
}

impl From<Fault> for ServingFault {
    ghost from_gives = { λ fault f. f ≡ serving.Common fault };

    fn from(fault: Fault) -> ServingFault {
        ServingFault::Common(fault)
    }
}
