//! How a link is opened: the probe, the choice of widths, and the header.

ghost use Rattle.std.specs.Prelude.{◌≡◌, ◌≤◌, length, vec_capacity, MatchResult, Ok, Err, false};
ghost use Rattle.eb_base.specs.Width.{AreSets};
ghost use Rattle.eb_host.specs.Exchange.{duplex};
ghost use Rattle.eb_host.specs.Host.{header as header_with};
ghost use Rattle.eb_host.specs.Opening.{sets_in, greatest as greatest_in, common as common_of, Probes, Heads, Shaken, Fails};

use crate::exchange::exchange;
use crate::link::HostLink;
use crate::op::HostFault;
use eb_base::{Width, Widths};
use eb_codec::Header;
use eb_codec::flags::{MAGIC, NR, PF, PR, VERSION};
use eb_codec::sizes::unit_len;

// The id of the probe.
const PROBE_ID: u8 = 1;

// The greatest width of a set.
fn greatest(set: u8) -> Option<Width>
    ensures { result ≡ greatest_in set }
{
    if set & 8 != 0 {
        Some(Width::W64)
    } else if set & 4 != 0 {
        Some(Width::W32)
    } else if set & 2 != 0 {
        Some(Width::W16)
    } else if set & 1 != 0 {
        Some(Width::W8)
    } else {
        None
    }
}

fn common(ours: u8, theirs: u8) -> Option<Width>
    ensures { result ≡ common_of ours theirs }
{
    greatest(ours & theirs)
}

// The sets in the answer to a probe.
fn sets(heard: &[u8]) -> Widths
    requires { 4 ≤ length heard.now }
    ensures { result ≡ sets_in heard.now }
{
    Widths {
        addresses: heard[3] / 16,
        ports: heard[3] % 16,
    }
}

// Asks for the slave's widths.
#[tactic(auto, unfolding(eb_base::specs::Field::octets_of))]
fn probe<L: HostLink>(
    link: &mut L,
    widths: Widths,
    heard: &mut Vec<u8>,
) -> Result<Widths, HostFault>
    requires sets { AreSets widths }
    requires room { 8 ≤ vec_capacity heard.old }
    ensures probes { MatchResult result
        (λ w. Probes widths (duplex (L.reading link.old) (L.writing link.old))
        (duplex (L.reading link.new) (L.writing link.new)) heard.new.items (Ok tt) × (w ≡ sets_in heard.new.items))
        (λ f. Probes widths (duplex (L.reading link.old) (L.writing link.old))
        (duplex (L.reading link.new) (L.writing link.new)) heard.new.items (Err f)) }
    ensures room { vec_capacity heard.old ≤ vec_capacity heard.new }
    ensures other_end { L.other_end link.new ≡ L.other_end link.old }
{
    let asks = [
        MAGIC[0],
        MAGIC[1],
        VERSION + PF,
        16 * widths.addresses + widths.ports,
        0,
        0,
        0,
        PROBE_ID,
    ];
    let expected = [
        Some(MAGIC[0]),
        Some(MAGIC[1]),
        Some(VERSION + NR + PR),
        None,
        Some(0),
        Some(0),
        Some(0),
        Some(PROBE_ID),
    ];
    match exchange(link, &asks, &expected, heard, 0) {
        Ok(()) => Ok(sets(heard)),
        Err(fault) => Err(fault),
    }
}

// Sends the header, and reads its answer.
fn head<L: HostLink>(link: &mut L, header: Header, heard: &mut Vec<u8>) -> Result<(), HostFault>
    requires replied { header.no_reply ≡ false }
    requires room { 8 ≤ vec_capacity heard.old }
    ensures heads { Heads header (duplex (L.reading link.old) (L.writing link.old))
        (duplex (L.reading link.new) (L.writing link.new)) heard.new.items result }
    ensures room { vec_capacity heard.old ≤ vec_capacity heard.new }
    ensures other_end { L.other_end link.new ≡ L.other_end link.old }
{
    let (a, b) = (MAGIC[0], MAGIC[1]);
    let answer = VERSION + NR;
    let widths = 16 * header.address.bit() + header.port.bit();
    if unit_len(header) == 8 {
        let asks = [a, b, VERSION, widths, 0, 0, 0, 0];
        let expected = [
            Some(a),
            Some(b),
            Some(answer),
            Some(widths),
            None,
            None,
            None,
            None,
        ];
        return exchange(link, &asks, &expected, heard, 8);
    }
    let asks = [a, b, VERSION, widths];
    let expected = [Some(a), Some(b), Some(answer), Some(widths)];
    exchange(link, &asks, &expected, heard, 8)
}

// Opens a link: the header with the widths that were chosen.
pub fn shake<L: HostLink>(
    link: &mut L,
    widths: Widths,
    heard: &mut Vec<u8>,
) -> Result<Header, HostFault>
    requires sets { AreSets widths }
    requires room { 8 ≤ vec_capacity heard.old }
    ensures shakes { MatchResult result
        (λ h. (h ≡ header_with h.address h.port) × Shaken widths (duplex (L.reading link.old) (L.writing link.old))
        (duplex (L.reading link.new) (L.writing link.new)) h)
        (λ f. Fails widths (duplex (L.reading link.old) (L.writing link.old))
        (duplex (L.reading link.new) (L.writing link.new)) f) }
    ensures room { vec_capacity heard.old ≤ vec_capacity heard.new }
    ensures other_end { L.other_end link.new ≡ L.other_end link.old }
{
    let theirs = match probe(link, widths, heard) {
        Ok(theirs) => theirs,
        Err(fault) => return Err(fault),
    };
    let Some(address) = common(widths.addresses, theirs.addresses) else {
        return Err(HostFault::NoCommonWidth(theirs));
    };
    let Some(port) = common(widths.ports, theirs.ports) else {
        return Err(HostFault::NoCommonWidth(theirs));
    };
    let header = Header {
        no_reply: false,
        address,
        port,
    };
    match head(link, header, heard) {
        Ok(()) => Ok(header),
        Err(fault) => Err(fault),
    }
}
