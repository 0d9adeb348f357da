//! A net in memory.

ghost use Rattle.std.specs.Prelude.{◌≡◌, [], None, Some, All, IfSome};
ghost use Rattle.eb_net.specs.Network.{IsNewDoor, IsNewPost, empty_network, network_props};
ghost use Rattle.eb_net.specs.DoorLink.{IsUnused};
ghost use Rattle.eb_net.specs.MemDoor.{door_state};
ghost use Rattle.eb_net.specs.MemPost.{mem_posting};

use crate::mem_door::MemDoor;
use crate::mem_post::MemPost;
use crate::net::Net;
use crate::net_shelf::NetShelf;
use eb_io::{MemLink, Opened};
use std::alloc::Global;

/// A net in memory, which gives what it was made with.
#[derive(Drop)]
pub struct MemNet {
    // Those left, the next one first.
    doors: Vec<MemDoor>,
    post: Option<MemPost>,
    link: Option<MemLink>,
    shelf: NetShelf<MemDoor, MemPost, MemLink>,
    ghost new_doors: { All (λ door. IsNewDoor (door_state door)) doors.items } by { Prim.hlevel network_props },
    ghost new_post: { IfSome post (λ post. IsNewPost (mem_posting post)) } by { Prim.hlevel network_props },
    ghost new_link: { IfSome link IsUnused } by { Prim.hlevel network_props },
}

impl MemNet {
    ghost use Rattle.eb_net.specs.MemNet.{mem_network, stock_of, DoorTaken};

    /// Gives these doors in order, the post and the link, whatever ports and addresses are asked for. They have opened,
    /// received, given and written nothing, and nothing of them failed.
    pub fn new(
        alloc: Global,
        doors: Vec<MemDoor>,
        post: Option<MemPost>,
        link: Option<MemLink>,
    ) -> MemNet
        requires new_doors { All (λ door. IsNewDoor (door_state door)) doors.items }
        requires new_post { IfSome post (λ post. IsNewPost (mem_posting post)) }
        requires new_link { IfSome link IsUnused }
        ensures tells { mem_network result ≡ empty_network }
        ensures stock { stock_of result ≡ record { doors = doors.items; post = post; link = link } }
    {
        MemNet {
            doors,
            post,
            link,
            shelf: NetShelf::new(alloc),
        }
    }

    // Takes the next door that is left.
    fn next_door(&mut self) -> Option<MemDoor>
        ensures is_new { IfSome result (λ door. IsNewDoor (door_state door)) }
        ensures taken { DoorTaken (stock_of self.old) (stock_of self.new) result }
        ensures shelf { self.new.shelf ≡ self.old.shelf }
    {
        if self.doors.is_empty() {
            return None;
        }
        Some(self.doors.remove(0))
    }

    // Takes the post, where it is left.
    fn next_post(&mut self) -> Option<MemPost>
        ensures is_new { IfSome result (λ post. IsNewPost (mem_posting post)) }
        ensures taken { result ≡ (stock_of self.old).post }
        ensures stock { stock_of self.new ≡ record (stock_of self.old) { post = None } }
        ensures shelf { self.new.shelf ≡ self.old.shelf }
    {
        self.post.take()
    }

    // Takes the link, where it is left.
    fn next_link(&mut self) -> Option<MemLink>
        ensures is_new { IfSome result IsUnused }
        ensures taken { result ≡ (stock_of self.old).link }
        ensures stock { stock_of self.new ≡ record (stock_of self.old) { link = None } }
        ensures shelf { self.new.shelf ≡ self.old.shelf }
    {
        self.link.take()
    }
}

impl Net for MemNet {
    type Door = MemDoor;

    type Post = MemPost;

    type Link = MemLink;

    ghost use Rattle.eb_io.specs.MemLink.{reading_of, writing_of};
    ghost use Rattle.eb_net.specs.Network.{Listens, Binds, Dials};
    ghost use Rattle.eb_net.specs.MemNet.{mem_network, stock_of, DoorFrom, PostFrom, LinkFrom};

    ghost network = { mem_network };

    /// Adds the next door that it was made with. It fails exactly where none is left.
    fn listen(&mut self, port: u16) -> Opened
        ensures listens { Listens door_state (mem_network self.old) (mem_network self.new) port result }
        ensures next { DoorFrom self.old self.new result }
    {
        let Ok(()) = self.shelf.ask_door(port) else {
            return Opened::NoMemory;
        };
        let Some(door) = self.next_door() else {
            self.shelf.fail_door();
            return Opened::Failed;
        };
        self.shelf.add_door(door);
        Opened::Done
    }

    fn doors(&mut self, alloc: Global) -> Vec<MemDoor>
        ensures handed { result.items ≡ (mem_network self.old).doors }
        ensures left { mem_network self.new ≡ record (mem_network self.old) { doors = [] } }
        ensures stock { stock_of self.new ≡ stock_of self.old }
    {
        self.shelf.doors(alloc)
    }

    fn put_doors(&mut self, doors: Vec<MemDoor>)
        requires none_left { (mem_network self.old).doors ≡ [] }
        ensures put { mem_network self.new ≡ record (mem_network self.old) { doors = doors.items } }
        ensures stock { stock_of self.new ≡ stock_of self.old }
    {
        self.shelf.put_doors(doors);
    }

    /// Makes the post that it was made with its own. It fails exactly where none is left.
    fn bind(&mut self, port: u16) -> Opened
        ensures binds { Binds mem_posting (mem_network self.old) (mem_network self.new) port result }
        ensures next { PostFrom self.old self.new result }
    {
        let Ok(()) = self.shelf.ask_post(port) else {
            return Opened::NoMemory;
        };
        let Some(post) = self.next_post() else {
            self.shelf.fail_door();
            return Opened::Failed;
        };
        self.shelf.put_post(post);
        Opened::Done
    }

    fn post(&mut self) -> Option<MemPost>
        ensures handed { result ≡ (mem_network self.old).post }
        ensures left { mem_network self.new ≡ record (mem_network self.old) { post = None } }
        ensures stock { stock_of self.new ≡ stock_of self.old }
    {
        self.shelf.post()
    }

    fn put_post(&mut self, post: MemPost)
        requires none_left { (mem_network self.old).post ≡ None }
        ensures put { mem_network self.new ≡ record (mem_network self.old) { post = Some post } }
        ensures stock { stock_of self.new ≡ stock_of self.old }
    {
        self.shelf.put_post(post);
    }

    /// Makes the link that it was made with its own. It fails exactly where none is left.
    fn dial(&mut self, alloc: Global, address: &str) -> Opened
        ensures dials { Dials reading_of writing_of (mem_network self.old) (mem_network self.new) address.now result }
        ensures next { LinkFrom self.old self.new result }
    {
        let Ok(()) = self.shelf.ask_link(alloc, address) else {
            return Opened::NoMemory;
        };
        let Some(link) = self.next_link() else {
            self.shelf.fail_dial();
            return Opened::Failed;
        };
        self.shelf.put_link(link);
        Opened::Done
    }

    fn link(&mut self) -> Option<MemLink>
        ensures handed { result ≡ (mem_network self.old).link }
        ensures left { mem_network self.new ≡ record (mem_network self.old) { link = None } }
        ensures stock { stock_of self.new ≡ stock_of self.old }
    {
        self.shelf.link()
    }

    fn put_link(&mut self, link: MemLink)
        requires none_left { (mem_network self.old).link ≡ None }
        ensures put { mem_network self.new ≡ record (mem_network self.old) { link = Some link } }
        ensures stock { stock_of self.new ≡ stock_of self.old }
    {
        self.shelf.put_link(link);
    }
}
