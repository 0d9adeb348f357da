//! All that a program meets outside by port or address.

ghost use Rattle.std.specs.Prelude.{◌≡◌, [], None, Some};
ghost use Rattle.eb_net.specs.Network.{Network, Listens, Binds, Dials};

use crate::door::Door;
use crate::post::Post;
use eb_io::{Link, Opened};
use std::alloc::Global;

/// All that a program meets outside by port or address: doors, one post and one link.
pub trait Net {
    /// A port where peers connect.
    type Door: Door + Drop + Send;

    /// A port that answers datagrams.
    type Post: Post + Drop;

    /// A connection to a peer that was dialled.
    type Link: Link + Drop;

    /// What it tells: the ports and addresses that it was asked for, what it has of each kind, and how many doors and
    /// posts could not be made and how many dials failed.
    ghost network: { Self → Network Self.Door Self.Post Self.Link };

    /// Listens at the port, and adds that door at the end of the net's doors. It has opened no connection yet.
    ///
    /// `Failed` comes only where the count of doors and posts that could not be made rose: the doors are as before, and
    /// the port was asked for. After `NoMemory` all is as before.
    fn listen(&mut self, port: u16) -> Opened
        ensures listens { Listens
            (λ door. record {
              reading = Self.Door.Link.reading (Self.Door.standing door);
              writing = Self.Door.Link.writing (Self.Door.standing door);
              accepting = Self.Door.accepting door;
            })
            (network self.old) (network self.new) port result };

    /// Hands all doors out, in the order in which they were made, and leaves none. It takes no memory.
    fn doors(&mut self, alloc: Global) -> Vec<Self::Door>
        ensures handed { result.items ≡ (network self.old).doors }
        ensures left { network self.new ≡ record (network self.old) { doors = [] } };

    /// Puts doors back into a net that has none.
    fn put_doors(&mut self, doors: Vec<Self::Door>)
        requires none_left { (network self.old).doors ≡ [] }
        ensures put { network self.new ≡ record (network self.old) { doors = doors.items } };

    /// Makes the net's post, at this port, in place of one that it had. It has received and sent nothing yet.
    ///
    /// `Failed` comes only where the count of doors and posts that could not be made rose: the post is as before, and
    /// the port was asked for. After `NoMemory` all is as before.
    fn bind(&mut self, port: u16) -> Opened
        ensures binds { Binds Self.Post.posting (network self.old) (network self.new) port result };

    /// Hands the post out, and leaves none. It is `None` exactly where the net has none.
    fn post(&mut self) -> Option<Self::Post>
        ensures handed { result ≡ (network self.old).post }
        ensures left { network self.new ≡ record (network self.old) { post = None } };

    /// Puts the post back into a net that has none.
    fn put_post(&mut self, post: Self::Post)
        requires none_left { (network self.old).post ≡ None }
        ensures put { network self.new ≡ record (network self.old) { post = Some post } };

    /// Makes the net's link, to this address, in place of one that it had. It has given nothing, and nothing was
    /// written to it yet.
    ///
    /// `Failed` comes only where the count of failed dials rose: the link is as before, and the address was asked for.
    /// After `NoMemory` all is as before.
    fn dial(&mut self, alloc: Global, address: &str) -> Opened
        ensures dials { Dials Self.Link.reading Self.Link.writing (network self.old) (network self.new)
            address.now result };

    /// Hands the link out, and leaves none. It is `None` exactly where the net has none.
    fn link(&mut self) -> Option<Self::Link>
        ensures handed { result ≡ (network self.old).link }
        ensures left { network self.new ≡ record (network self.old) { link = None } };

    /// Puts the link back into a net that has none.
    fn put_link(&mut self, link: Self::Link)
        requires none_left { (network self.old).link ≡ None }
        ensures put { network self.new ≡ record (network self.old) { link = Some link } };
}
