// One operation over a link.
ghost use Rattle.std.specs.Prelude.{◌≡◌, ◌<◌, ◌^◌, IfOk, MatchResult};
ghost use Rattle.eb_base.specs.Width.{octets};
ghost use Rattle.eb_host.specs.Exchange.{duplex};
ghost use Rattle.eb_host.specs.Opening.{Opened, NotOpened};
ghost use Rattle.eb_host.specs.View.{sent_header, host_state};
ghost use Rattle.eb_client.specs.PlainLink.{told_inside};
ghost use Rattle.eb_client.specs.Asking.{AsksOne, FitsWord, client_widths, host_ending, read_op, write_op};

use crate::fault::ClientFault;
use crate::plain_link::PlainLink;
use eb_base::{Width, Widths};
use eb_host::{Host, HostAnswer, HostFault};
use eb_io::Link;
use eb_text::Fault;
use std::alloc::Global;

// All widths of addresses.
const ADDRESSES: u8 = 15;

/// Opens a host over a link, with this width of the port.
pub fn open_for<L: Link>(
    alloc: Global,
    link: L,
    width: Width,
) -> Result<Host<PlainLink<L>>, (L, HostFault)>
    ensures opens { MatchResult result
        (λ host. Opened (client_widths width) (duplex (L.reading link) (L.writing link))
        (host_state (told_inside L.reading) (told_inside L.writing) host))
        (λ e. NotOpened (client_widths width) (duplex (L.reading link) (L.writing link))
        (duplex (L.reading e.0) (L.writing e.0)) e.1) }
    ensures port { IfOk result (λ host. (sent_header host).port ≡ width) }
{
    let widths = Widths {
        addresses: ADDRESSES,
        ports: width.bit(),
    };
    match Host::open(alloc, PlainLink::new(link), widths) {
        Ok(host) => Ok(host),
        Err((link, fault)) => Err((link.into_link(), fault)),
    }
}

/// Reads a word of this width at a place, as a cycle of its own over a link, and hands the link back.
pub fn read_word<L: Link>(
    alloc: Global,
    link: L,
    place: u64,
    width: Width,
) -> (L, Result<HostAnswer, HostFault>)
    ensures asks { AsksOne width (read_op place) (duplex (L.reading link) (L.writing link))
        (duplex (L.reading result.0) (L.writing result.0)) result.1 }
    ensures word { IfOk result.1 (FitsWord width) }
{
    let mut host = match open_for(alloc, link, width) {
        Ok(host) => host,
        Err((link, fault)) => return (link, Err(fault)),
    };
    let answer = host.read(place);
    (host.into_link().into_link(), answer)
}

/// Writes a word of this width to a place, as a cycle of its own over a link, and hands the link back.
pub fn write_word<L: Link>(
    alloc: Global,
    link: L,
    place: u64,
    width: Width,
    value: u64,
) -> (L, Result<HostAnswer, HostFault>)
    requires fits { value < 256 ^ octets width }
    ensures asks { AsksOne width (write_op place value) (duplex (L.reading link) (L.writing link))
        (duplex (L.reading result.0) (L.writing result.0)) result.1 }
{
    let mut host = match open_for(alloc, link, width) {
        Ok(host) => host,
        Err((link, fault)) => return (link, Err(fault)),
    };
    let answer = host.write(place, value);
    (host.into_link().into_link(), answer)
}

/// How a command ends by a fault of its host.
pub fn host_ending(fault: HostFault) -> ClientFault
    ensures ending { result ≡ host_ending fault }
{
    match fault {
        HostFault::LinkRead => ClientFault::Common(Fault::ReadFault),
        HostFault::LinkWrite => ClientFault::Common(Fault::WriteFault),
        HostFault::Ended(octets) => ClientFault::Ended(octets),
        HostFault::BadReply(place) => ClientFault::BadReply(place),
        HostFault::NoCommonWidth(widths) => ClientFault::NoCommonWidth(widths),
        HostFault::TooWide(adr) => ClientFault::TooWide(adr),
        HostFault::NoMemory => ClientFault::Common(Fault::NoMemory),
    }
}
