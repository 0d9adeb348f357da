//! Two links that each give their second record only after the other's first reply.
ghost use Rattle.std.specs.Prelude.{◌≡◌, ◌+◌, ◌<◌, ◌≤◌, IfOk};
ghost use Rattle.eb_base.specs.declared.width.Width.TheVariants.{W32};
ghost use Rattle.soc_core.specs.Built.{fabric_of};
ghost use Rattle.soc_core.specs.Core.{built_core};
ghost use Rattle.eb_server.specs.Rooms.{HasRoom};
ghost use Rattle.eb_shared.specs.Lanes.{IsThere, IsFreshSession};

use crate::meet_link::{MeetLink, TO_RAM, TO_REGISTERS};
use crate::meeting::Meeting;
use eb_base::Width;
use eb_samples::SOC;
use eb_server::{Ending, Rooms};
use eb_session::{Session, Slave};
use eb_shared::{Lane, SharedBus, new_pass, serve_links};
use soc_bus::Bus;
use soc_desc::read;
use soc_journal::Journal;
use soc_turn::{Root, Turn};
use std::alloc::Global;
use std::mem::forget;
use std::sync::{Arc, Wait};
use std::test::Fail;
use std::thread::Threads;

// The turn of SOC's bus, for its two masters. What isn't handed out is kept: a test that lets a bus go proves how each
// of its parts goes.
fn turn_of(alloc: Global) -> Result<(Turn<SharedBus>, Root<SharedBus>), Fail>
    ensures of { IfOk result (λ t. t.1.turn ≡ t.0) }
    ensures none { IfOk result (λ t. t.1.made ≡ 0) }
    ensures two { IfOk result (λ t. t.1.masters ≡ 2) }
    ensures masters { IfOk result (λ t. 2 ≤ t.1.origin.description.masters) }
    ensures built { IfOk result (λ t. t.1.origin.core ≡ built_core (fabric_of t.1.origin.description)) }
{
    let Ok(description) = read(alloc, SOC.as_bytes()) else {
        return Err(Fail::from("description"));
    };
    let masters = description.masters;
    let built = Bus::build(alloc, Journal::new(alloc), &description);
    forget(description);
    let Ok(bus) = built else {
        return Err(Fail::from("bus"));
    };
    if masters < 2 {
        forget(bus);
        return Err(Fail::from("masters"));
    }
    match Turn::new(alloc, bus, 2) {
        Ok((turn, root)) => Ok((turn, root)),
        Err(bus) => {
            forget(bus);
            Err(Fail::from("turn"))
        }
    }
}

// What a lane takes of memory.
#[derive(Drop)]
struct Seat {
    link: MeetLink,
    rooms: Rooms,
    session: Session,
}

// A seat whose link gives these octets.
fn seat_of(alloc: Global, octets: &[u8], meeting: &Arc<Meeting, Global>) -> Result<Seat, Fail>
    ensures session { IfOk result (λ s. IsFreshSession s.session) }
    ensures rooms { IfOk result (λ s. HasRoom s.rooms) }
{
    let link = MeetLink::new(alloc, octets, meeting)?;
    let rooms = Rooms::new(alloc, 64).ok().ok_or("rooms")?;
    let (bus, root) = (Width::W32, 0);
    let session = Session::new(alloc, Slave { bus, root })
        .ok()
        .ok_or("session")?;
    Ok(Seat {
        link,
        rooms,
        session,
    })
}

// The lane of the next master.
fn lane_of(turn: &Turn<SharedBus>, root: &mut Root<SharedBus>, seat: Seat) -> Lane<MeetLink>
    requires of { root.old.turn ≡ turn.now }
    requires few { root.old.made < root.old.masters }
    requires masters { root.old.masters ≤ root.old.origin.description.masters }
    requires built { root.old.origin.core ≡ built_core (fabric_of root.old.origin.description) }
    ensures root { root.new ≡ record root.old { made = root.old.made + 1 } }
    ensures there { IsThere turn.now result.pass }
    ensures session { result.session ≡ seat.session }
    ensures rooms { result.rooms ≡ seat.rooms }
{
    let Seat {
        link,
        rooms,
        session,
    } = seat;
    Lane {
        link,
        session,
        pass: Some(new_pass(turn, root)),
        rooms,
        ending: Ending::NoMemory,
    }
}

// How the streams of two lanes ended.
fn endings_of(lanes: &[Lane<MeetLink>]) -> Option<(Ending, Ending)> {
    let [first, second] = lanes else {
        return None;
    };
    Some((first.ending, second.ending))
}

// Serves both links, and answers how their streams ended.
fn serve_both<R: Threads + Wait + Sync>(
    rt: &R,
    alloc: Global,
    meeting: &Arc<Meeting, Global>,
) -> Result<Option<(Ending, Ending)>, Fail> {
    let first = seat_of(alloc, &TO_RAM, meeting)?;
    let second = seat_of(alloc, &TO_REGISTERS, meeting)?;
    let (turn, mut root) = turn_of(alloc)?;
    let first = lane_of(&turn, &mut root, first);
    let second = lane_of(&turn, &mut root, second);
    let mut lanes = [first, second];
    serve_links(rt, alloc, &turn, &mut lanes);
    let endings = endings_of(&lanes);
    forget(lanes);
    forget(turn);
    forget(root);
    Ok(endings)
}

#[test]
fn two_links_meet(rt: HostRuntime) -> Result<(), Fail> {
    let alloc = rt.alloc();
    let meeting = Arc::new(alloc, Meeting::new())?;
    let endings = serve_both(&rt, alloc, &meeting)?;
    assert_eq!(rt; endings, Some((Ending::Clean, Ending::Clean)));
    assert_eq!(rt; meeting.met(), 2);
    Ok(())
}
