//! Two ports whose connections each give their second record only after the other's first reply.
ghost use Rattle.replay_tests.specs.Untold.{no_accepting};

use crate::meet_link::{MeetLink, TO_RAM, TO_REGISTERS};
use crate::meeting::Meeting;
use eb_net::{Accepted, Door};
use eb_samples::SOC;
use eb_serve::{Unclean, serve};
use soc_desc::read;
use std::alloc::Global;
use std::mem::forget;
use std::sync::{Arc, Wait};
use std::test::Fail;
use std::thread::Threads;

/// A door at which this link stands, whatever it accepts. It tells nothing of its accepts, and none fails.
#[derive(Drop)]
struct MeetDoor {
    link: MeetLink,
}

impl Door for MeetDoor {
    type Link = MeetLink;

    ghost use Rattle.std.specs.Prelude.{refl};

    ghost standing = { λ d. d.link };

    ghost with_standing = { λ d l. record d { link = l } };

    ghost accepting = { λ _. no_accepting };

    fn accept(&mut self) -> Accepted {
        Accepted::Open
    }

    fn link(&mut self) -> &mut MeetLink {
        &mut self.link
    }

    ghost stands = { λ _ _. refl };

    ghost keeps_accepts = { λ _ _. refl };
}

// The doors of both ports.
fn doors_of(alloc: Global, meeting: &Arc<Meeting, Global>) -> Result<Vec<MeetDoor>, Fail> {
    let mut doors = Vec::new(alloc);
    for octets in [&TO_RAM, &TO_REGISTERS] {
        let link = MeetLink::new(alloc, octets.as_slice(), meeting)?;
        doors.push(MeetDoor { link })?;
    }
    Ok(doors)
}

// Serves one connection of each port, and answers the first that didn't end clean.
fn serve_both<R: Threads + Wait + Sync>(
    rt: &R,
    alloc: Global,
    meeting: &Arc<Meeting, Global>,
) -> Result<Option<Unclean>, Fail> {
    let doors = doors_of(alloc, meeting)?;
    let Ok(description) = read(alloc, SOC.as_bytes()) else {
        return Err(Fail::from("description"));
    };
    if doors.is_empty() || doors.len() > usize::from(description.masters) {
        return Err(Fail::from("masters"));
    }
    let (_, result) = serve(rt, alloc, &description, doors, 1);
    let Ok(served) = result else {
        return Err(Fail::from("memory"));
    };
    let unclean = served.first_unclean();
    forget(served);
    Ok(unclean)
}

#[test]
fn two_ports_meet(rt: HostRuntime) -> Result<(), Fail> {
    let alloc = rt.alloc();
    let meeting = Arc::new(alloc, Meeting::new())?;
    let unclean = serve_both(&rt, alloc, &meeting)?;
    assert_eq!(rt; unclean, None);
    assert_eq!(rt; meeting.met(), 2);
    Ok(())
}
