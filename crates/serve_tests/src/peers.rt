//! Peers in memory.
ghost use Rattle.std.specs.Prelude.{All, IfOk};
ghost use Rattle.eb_net.specs.DoorLink.{IsUnused};
ghost use Rattle.eb_net.specs.MemDoor.{door_state};
ghost use Rattle.eb_net.specs.Network.{IsNewDoor};

use eb_base::NoMemory;
use eb_io::{MemLink, MemSink, MemSource};
use eb_net::MemDoor;
use std::alloc::Global;

/// A header, and a record that writes 0xDEADBEEF at 0x10 and ends its cycle.
pub const WRITES: [u8; 16] = [
    0x4E, 0x6F, 0x10, 0x44, 0x08, 0x0F, 0x01, 0x00, 0x00, 0x00, 0x00, 0x10, 0xDE, 0xAD, 0xBE, 0xEF,
];

/// A header, and a record that reads what stands at 0x10.
pub const READS: [u8; 16] = [
    0x4E, 0x6F, 0x10, 0x44, 0x88, 0x0F, 0x00, 0x01, 0x00, 0x00, 0x00, 0x00, 0x00, 0x00, 0x00, 0x10,
];

/// The replies to them.
pub const REPLIED: [u8; 16] = [
    0x4E, 0x6F, 0x14, 0x44, 0x0C, 0x0F, 0x01, 0x00, 0x00, 0x00, 0x00, 0x00, 0xDE, 0xAD, 0xBE, 0xEF,
];

/// A header, and a record that writes 1 at 0 and leaves its cycle open.
pub const OPENS: [u8; 16] = [
    0x4E, 0x6F, 0x10, 0x44, 0x00, 0x0F, 0x01, 0x00, 0x00, 0x00, 0x00, 0x00, 0x00, 0x00, 0x00, 0x01,
];

/// A peer: the octets that it sends, all in one read, and the numbers of the reads that fail.
#[derive(Clone, Copy)]
pub struct Peer<'a> {
    pub octets: &'a [u8],
    pub fails: &'a [u64],
}

// The link of a peer, on which there is room for 64 octets of replies.
fn link_of(alloc: Global, peer: Peer) -> Result<MemLink, NoMemory>
    ensures unused { IfOk result IsUnused }
{
    let octets = Vec::from_slice(alloc, peer.octets)?;
    let fails = Vec::from_slice(alloc, peer.fails)?;
    let sink = MemSink::new(alloc, 64, 64, Vec::new(alloc))?;
    Ok(MemLink::new(MemSource::new(octets, 64, fails), sink))
}

/// A door where these two peers connect, one after the other.
pub fn door_of_two(alloc: Global, first: Peer, second: Peer) -> Result<MemDoor, NoMemory>
    ensures is_new { IfOk result (λ door. IsNewDoor (door_state door)) }
{
    let mut links = Vec::new(alloc);
    links.push(link_of(alloc, first)?)?;
    links.push(link_of(alloc, second)?)?;
    MemDoor::new(alloc, links, Vec::new(alloc))
}

/// A door where this peer connects.
pub fn door_of_one(alloc: Global, peer: Peer) -> Result<MemDoor, NoMemory>
    ensures is_new { IfOk result (λ door. IsNewDoor (door_state door)) }
{
    let mut links = Vec::new(alloc);
    links.push(link_of(alloc, peer)?)?;
    MemDoor::new(alloc, links, Vec::new(alloc))
}

/// A door where nobody connects, and of which the accepts of these numbers fail.
pub fn door_of_none(alloc: Global, fails: &[u64]) -> Result<MemDoor, NoMemory>
    ensures is_new { IfOk result (λ door. IsNewDoor (door_state door)) }
{
    MemDoor::new(alloc, Vec::new(alloc), Vec::from_slice(alloc, fails)?)
}

/// Two doors, as many as SOC has masters.
pub fn two(alloc: Global, first: MemDoor, second: MemDoor) -> Result<Vec<MemDoor>, NoMemory>
    requires first { IsNewDoor (door_state first) }
    requires second { IsNewDoor (door_state second) }
    ensures new { IfOk result (λ doors. All (λ door. IsNewDoor (door_state door)) doors.items) }
{
    let mut doors = Vec::new(alloc);
    doors.push(first)?;
    doors.push(second)?;
    Ok(doors)
}

/// One door.
pub fn one(alloc: Global, door: MemDoor) -> Result<Vec<MemDoor>, NoMemory>
    requires new { IsNewDoor (door_state door) }
    ensures new { IfOk result (λ doors. All (λ door. IsNewDoor (door_state door)) doors.items) }
{
    let mut doors = Vec::new(alloc);
    doors.push(door)?;
    Ok(doors)
}
