//! How a client's command ends otherwise than well.
ghost use Rattle.std.specs.Prelude.{◌≡◌};
ghost use Rattle.eb_text.specs.declared.fault.Fault.TheVariants as fault;
ghost use Rattle.eb_client.specs.declared.fault.ClientFault.TheVariants as client_fault;

use eb_base::Widths;
use eb_io::WriteFault;
use eb_text::{Fault, Status};
use sdb_record::RecordFault;

/// The rule of a walk through SDB tables that a record breaks.
#[derive(Clone, Copy, Debug, PartialEq, Eq)]
pub enum WalkWhy {
    /// Its 64 octets are no record.
    Record(RecordFault),
    /// The first record of a table is no interconnect, or a later one is.
    WrongPlace,
    /// The tables begun so far have too many records together.
    TooMany,
    /// It is not inside the range above it.
    OutsideParent,
    /// It is a bridge in a table of the last level.
    TooDeep,
}

/// How a client's command ended otherwise than well. Octets of the peer count from the first that was read, as 0.
#[derive(Debug, Drop)]
pub enum ClientFault {
    /// A fault that other commands have too.
    Common(Fault),
    /// The peer could not be dialled.
    Door,
    /// The peer ended before a whole reply, and so many octets were read.
    Ended(u64),
    /// The octet of this index differs from every reply that is expected.
    BadReply(u64),
    /// The peer has these sets of widths, and one of them has no width in common.
    NoCommonWidth(Widths),
    /// This address is wider than the address width. It was not asked for.
    TooWide(u64),
    /// The bus answered the access to this address with ERR or RTY.
    BusError(u64),
    /// The record at this address breaks this rule of the walk first.
    Walk(u64, WalkWhy),
}

impl ClientFault {
    ghost use Rattle.eb_client.specs.ClientLines.{client_status};

    /// Its status.
    pub fn status(&self) -> Status
        ensures status { result ≡ client_status self.now }
    {
        match self {
            ClientFault::Common(fault) => fault.status(),
            ClientFault::Door => Status::DOOR,
            ClientFault::Ended(_)
            | ClientFault::BadReply(_)
            | ClientFault::NoCommonWidth(_)
            | ClientFault::TooWide(_) => Status::PEER,
            ClientFault::BusError(_) => Status::BUS_ERROR,
            ClientFault::Walk(..) => Status::WALK,
        }
    }
}

impl From<WriteFault> for ClientFault {
    ghost from_gives = { λ _ e. e ≡ client_fault.Common fault.WriteFault };

    fn from(_fault: WriteFault) -> ClientFault {
        ClientFault::Common(Fault::WriteFault)
    }
}
