//! What decides how served ports, and datagrams, are told as a whole.
ghost use Rattle.std.specs.Prelude.{◌≡◌};
ghost use Rattle.eb_serve.specs.Unclean.{unclean_port, first_unclean_port, first_unclean_of};

use crate::served::{ServedDatagrams, ServedPorts};
use eb_ports::Ends;
use eb_server::Ending;

/// What didn't end clean: a connection, by its ending, or a door, of which an accept failed.
#[derive(Clone, Copy, Debug, PartialEq, Eq)]
pub enum Unclean {
    Connection(Ending),
    Door,
}

// The first of a port that isn't clean. Its door comes behind its connections.
fn unclean_port(ends: &Ends) -> Option<Unclean>
    ensures first { result ≡ unclean_port ends.now }
{
    for i in 0..ends.count() {
        let ending = ends.ending(i);
        if ending != Ending::Clean {
            return Some(Unclean::Connection(ending));
        }
    }
    if ends.door_failed() {
        return Some(Unclean::Door);
    }
    None
}

impl ServedPorts {
    /// The first that didn't end clean, of the lowest-numbered port that has one: a connection, in their order, or
    /// behind them the door. `None` where all ended clean and no accept failed.
    pub fn first_unclean(&self) -> Option<Unclean>
        ensures first { result ≡ first_unclean_port self.now.ports }
    {
        for port in &self.ports {
            if let Some(unclean) = unclean_port(port) {
                return Some(unclean);
            }
        }
        None
    }
}

// The first of these endings that isn't clean.
fn first_unclean(ends: &Ends) -> Option<Ending>
    ensures first { result ≡ first_unclean_of ends.now.endings }
{
    for i in 0..ends.count() {
        let end = ends.ending(i);
        if end != Ending::Clean {
            return Some(end);
        }
    }
    None
}

impl ServedDatagrams {
    /// The first ending that isn't clean, in the order of the datagrams. `None` where all ended clean.
    pub fn first_unclean(&self) -> Option<Ending>
        ensures first { result ≡ first_unclean_of self.now.ends.endings }
    {
        first_unclean(&self.ends)
    }
}
