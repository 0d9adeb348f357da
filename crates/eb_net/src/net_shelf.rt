//! What a net keeps: what it was asked for, what it has of each kind, and its counts of faults.

ghost use Rattle.std.specs.Prelude.{◌≡◌, ◌<◌, ◌++◌, ◌∷◌, [], None, Some, OnOk, OnErr, vec_len, vec_capacity};
ghost use Rattle.eb_net.specs.Network.{asking, door_at, post_at, link_to, empty_network, DoorFailed, DialFailed};
ghost use Rattle.eb_net.specs.NetShelf.{network_of};

use eb_base::NoMemory;
use std::alloc::Global;
use std::mem;

/// What a net was asked for: a door or a post at a port, or a link to an address.
#[derive(Drop)]
pub enum Ask {
    Door(u16),
    Post(u16),
    Link(String),
}

/// What a net keeps.
#[derive(Drop)]
pub struct NetShelf<D, P, L> {
    asked: Vec<Ask>,
    doors: Vec<D>,
    post: Option<P>,
    link: Option<L>,
    door_faults: u64,
    dial_faults: u64,
}

impl<D: Drop, P: Drop, L: Drop> NetShelf<D, P, L> {
    /// It was asked for nothing yet.
    pub fn new(alloc: Global) -> Self
        ensures tells { network_of result ≡ empty_network }
    {
        NetShelf {
            asked: Vec::new(alloc),
            doors: Vec::new(alloc),
            post: None,
            link: None,
            door_faults: 0,
            dial_faults: 0,
        }
    }

    /// Notes that a door is asked for, and makes room for it first, so that `add_door` takes no memory.
    pub fn ask_door(&mut self, port: u16) -> Result<(), NoMemory>
        ensures ok { OnOk result (network_of self.new ≡ asking (network_of self.old) (door_at port)) }
        ensures room { OnOk result (vec_len self.new.doors < vec_capacity self.new.doors) }
        ensures err { OnErr result (network_of self.new ≡ network_of self.old) }
    {
        self.doors.reserve(1)?;
        self.asked.push(Ask::Door(port))?;
        Ok(())
    }

    /// Notes that a post is asked for.
    pub fn ask_post(&mut self, port: u16) -> Result<(), NoMemory>
        ensures ok { OnOk result (network_of self.new ≡ asking (network_of self.old) (post_at port)) }
        ensures err { OnErr result (network_of self.new ≡ network_of self.old) }
    {
        self.asked.push(Ask::Post(port))?;
        Ok(())
    }

    /// Notes that a link is asked for.
    pub fn ask_link(&mut self, alloc: Global, address: &str) -> Result<(), NoMemory>
        ensures ok { OnOk result (network_of self.new ≡ asking (network_of self.old) (link_to address.now)) }
        ensures err { OnErr result (network_of self.new ≡ network_of self.old) }
    {
        let address = String::from_str(alloc, address)?;
        self.asked.push(Ask::Link(address))?;
        Ok(())
    }

    /// Adds a door in the room that `ask_door` made.
    pub fn add_door(&mut self, door: D)
        requires room { vec_len self.old.doors < vec_capacity self.old.doors }
        ensures added { network_of self.new ≡ record (network_of self.old)
            { doors = (network_of self.old).doors ++ door ∷ [] } }
    {
        self.doors.push_reserved(door);
    }

    /// Counts a door or a post that could not be made.
    pub fn fail_door(&mut self)
        ensures counted { DoorFailed (network_of self.old) (network_of self.new) }
    {
        self.door_faults = self.door_faults.saturating_add(1);
    }

    /// Counts a failed dial.
    pub fn fail_dial(&mut self)
        ensures counted { DialFailed (network_of self.old) (network_of self.new) }
    {
        self.dial_faults = self.dial_faults.saturating_add(1);
    }

    /// Hands all doors out, and leaves none.
    pub fn doors(&mut self, alloc: Global) -> Vec<D>
        ensures handed { result.items ≡ (network_of self.old).doors }
        ensures left { network_of self.new ≡ record (network_of self.old) { doors = [] } }
    {
        mem::replace(&mut self.doors, Vec::new(alloc))
    }

    /// Takes doors back.
    pub fn put_doors(&mut self, doors: Vec<D>)
        ensures put { network_of self.new ≡ record (network_of self.old) { doors = doors.items } }
    {
        self.doors = doors;
    }

    /// Hands the post out, and leaves none.
    pub fn post(&mut self) -> Option<P>
        ensures handed { result ≡ (network_of self.old).post }
        ensures left { network_of self.new ≡ record (network_of self.old) { post = None } }
    {
        self.post.take()
    }

    /// Takes a post, in place of one that was there.
    pub fn put_post(&mut self, post: P)
        ensures put { network_of self.new ≡ record (network_of self.old) { post = Some post } }
    {
        self.post = Some(post);
    }

    /// Hands the link out, and leaves none.
    pub fn link(&mut self) -> Option<L>
        ensures handed { result ≡ (network_of self.old).link }
        ensures left { network_of self.new ≡ record (network_of self.old) { link = None } }
    {
        self.link.take()
    }

    /// Takes a link, in place of one that was there.
    pub fn put_link(&mut self, link: L)
        ensures put { network_of self.new ≡ record (network_of self.old) { link = Some link } }
    {
        self.link = Some(link);
    }
}
