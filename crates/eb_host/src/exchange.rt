//! One exchange over a link: octets that are sent, and those that are expected in reply.

ghost use Rattle.std.specs.Prelude.{◌≡◌, ◌≤◌, length, vec_capacity};
ghost use Rattle.eb_host.specs.Exchange.{Exchanges, duplex};

use crate::hearing::{Heard, hear};
use crate::link::{HostLink, send_all};
use crate::op::HostFault;
use eb_io::WriteFault;

// Sends octets, and reads those that are expected in reply, in place of what was heard before.
pub fn exchange<L: HostLink>(
    link: &mut L,
    asks: &[u8],
    expected: &[Option<u8>],
    heard: &mut Vec<u8>,
    read: u64,
) -> Result<(), HostFault>
    requires room { length expected.now ≤ vec_capacity heard.old }
    ensures exchanges { Exchanges (duplex (L.reading link.old) (L.writing link.old))
        (duplex (L.reading link.new) (L.writing link.new)) asks.now expected.now read heard.new.items result }
    ensures room { vec_capacity heard.old ≤ vec_capacity heard.new }
    ensures other_end { L.other_end link.new ≡ L.other_end link.old }
{
    heard.clear();
    match send_all(link, asks) {
        Ok(()) => {}
        Err(WriteFault) => return Err(HostFault::LinkWrite),
    }
    match hear(link, expected, heard) {
        Heard::Whole => Ok(()),
        Heard::Bad(at) => Err(HostFault::BadReply(read.saturating_add(at as u64))),
        Heard::Ended(count) => Err(HostFault::Ended(read.saturating_add(count as u64))),
        Heard::Failed => Err(HostFault::LinkRead),
    }
}
