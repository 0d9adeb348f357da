// How a command ends otherwise than well.
ghost use Rattle.std.specs.Prelude.{◌≡◌};
ghost use Rattle.eb_text.specs.declared.fault.Fault.TheVariants as fault;

use crate::status::Status;
use eb_codec::Why;
use eb_io::WriteFault;
use soc_desc::DescFault;

/// How a command ended otherwise than well.
#[derive(Debug, Drop)]
pub enum Fault {
    /// The words are no command.
    Usage,
    /// The description is refused, or there was no memory to read it.
    Description(DescFault),
    /// An open or a read failed.
    ReadFault,
    /// A write to the output failed.
    WriteFault,
    /// The octet of the stream at this place, from 0, breaks this rule first.
    Malformed(u64, Why),
    /// The input ended after so many octets of an item.
    Truncated(u64),
    /// The stream has more octets than are read.
    TooLong,
    /// There was no memory.
    NoMemory,
    /// The script's line of this number, from 1, is the first that breaks a rule; 0 where the script is too long.
    Script(u32),
}

impl Fault {
    ghost use Rattle.eb_text.specs.Lines.{status_of};

    /// Its status.
    pub fn status(&self) -> Status
        ensures status { result ≡ status_of self.now }
    {
        match self {
            Fault::Usage => Status::USAGE,
            Fault::Description(DescFault::NoMemory) => Status::NO_MEMORY,
            Fault::Description(_) => Status::DESCRIPTION,
            Fault::ReadFault => Status::READ_FAULT,
            Fault::WriteFault => Status::WRITE_FAULT,
            Fault::Malformed(..) => Status::MALFORMED,
            Fault::Truncated(_) => Status::TRUNCATED,
            Fault::TooLong => Status::TOO_LONG,
            Fault::NoMemory => Status::NO_MEMORY,
            Fault::Script(_) => Status::SCRIPT,
        }
    }
}

impl From<WriteFault> for Fault {
    ghost from_gives = { λ _ e. e ≡ fault.WriteFault };

    fn from(_fault: WriteFault) -> Fault {
        Fault::WriteFault
    }
}
