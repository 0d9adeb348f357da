//! The edge: the real sockets, by port and address.

ghost use Rattle.std.specs.Prelude.{◌≡◌, [], None, Some};
ghost use Rattle.eb_net.specs.Network.{empty_network};

use crate::net::Net;
use crate::net_shelf::NetShelf;
use crate::sockets::{TcpDoor, TcpLink, UdpPost};
use eb_io::Opened;
use std::alloc::Global;
use std::net::{Ipv4Addr, TcpListener, TcpStream, UdpSocket};

/// The real sockets, by port and address.
#[derive(Drop)]
pub struct RealNet {
    rt: HostRuntime,
    shelf: NetShelf<TcpDoor, UdpPost, TcpLink>,
}

impl RealNet {
    ghost use Rattle.eb_net.specs.RealNet.{real_network};

    /// It has nothing yet, and nothing failed.
    pub fn new(rt: HostRuntime, alloc: Global) -> RealNet
        ensures tells { real_network result ≡ empty_network }
    {
        RealNet {
            rt,
            shelf: NetShelf::new(alloc),
        }
    }
}

impl Net for RealNet {
    type Door = TcpDoor;

    type Post = UdpPost;

    type Link = TcpLink;

    ghost use Rattle.eb_net.specs.RealNet.{real_network};

    ghost network = { real_network };

    /// Listens on all IPv4 addresses of the machine.
    fn listen(&mut self, port: u16) -> Opened {
        let Ok(()) = self.shelf.ask_door(port) else {
            return Opened::NoMemory;
        };
        match TcpListener::bind(&self.rt, (Ipv4Addr::UNSPECIFIED, port)) {
            Ok(listener) => {
                self.shelf.add_door(TcpDoor::new(listener));
                Opened::Done
            }
            Err(_) => {
                self.shelf.fail_door();
                Opened::Failed
            }
        }
    }

    fn doors(&mut self, alloc: Global) -> Vec<TcpDoor> {
        self.shelf.doors(alloc)
    }

    fn put_doors(&mut self, doors: Vec<TcpDoor>)
        requires none_left { (real_network self.old).doors ≡ [] }
        ensures put { real_network self.new ≡ record (real_network self.old) { doors = doors.items } }
    {
        self.shelf.put_doors(doors);
    }

    /// Takes datagrams on all IPv4 addresses of the machine.
    fn bind(&mut self, port: u16) -> Opened {
        let Ok(()) = self.shelf.ask_post(port) else {
            return Opened::NoMemory;
        };
        match UdpSocket::bind(&self.rt, (Ipv4Addr::UNSPECIFIED, port)) {
            Ok(socket) => {
                self.shelf.put_post(UdpPost::new(socket));
                Opened::Done
            }
            Err(_) => {
                self.shelf.fail_door();
                Opened::Failed
            }
        }
    }

    fn post(&mut self) -> Option<UdpPost> {
        self.shelf.post()
    }

    fn put_post(&mut self, post: UdpPost)
        requires none_left { (real_network self.old).post ≡ None }
        ensures put { real_network self.new ≡ record (real_network self.old) { post = Some post } }
    {
        self.shelf.put_post(post);
    }

    /// The address is a host and a port, as `localhost:60368`; a host's name goes to the resolver as it is.
    fn dial(&mut self, alloc: Global, address: &str) -> Opened {
        let Ok(()) = self.shelf.ask_link(alloc, address) else {
            return Opened::NoMemory;
        };
        match TcpStream::connect(&self.rt, address) {
            Ok(stream) => {
                self.shelf.put_link(TcpLink::new(stream));
                Opened::Done
            }
            Err(_) => {
                self.shelf.fail_dial();
                Opened::Failed
            }
        }
    }

    fn link(&mut self) -> Option<TcpLink> {
        self.shelf.link()
    }

    fn put_link(&mut self, link: TcpLink)
        requires none_left { (real_network self.old).link ≡ None }
        ensures put { real_network self.new ≡ record (real_network self.old) { link = Some link } }
    {
        self.shelf.put_link(link);
    }
}
