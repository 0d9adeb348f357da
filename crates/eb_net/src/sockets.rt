//! The edge: TCP and UDP. What a socket carries no contract can say; what is told is how often a call failed.

ghost use Rattle.std.specs.Prelude.{◌≡◌, None};
ghost use Rattle.eb_io.specs.Writing.{Nothing};

use crate::door::{Accepted, Door};
use crate::post::Post;
use eb_io::{Got, Link, Put, Sink, Source};
use std::io::{Read, Write};
use std::net::{SocketAddr, TcpListener, TcpStream, UdpSocket};

/// A TCP connection, or at a door that has opened none the lack of one.
#[derive(Drop)]
pub struct TcpLink {
    stream: Option<TcpStream>,
    read_faults: u64,
    write_faults: u64,
}

// Small pieces go out at once, where the system takes that option.
fn without_delay(stream: TcpStream) -> TcpStream {
    let _ = stream.set_nodelay(true);
    stream
}

impl TcpLink {
    ghost use Rattle.eb_net.specs.Sockets.{tcp_reading, tcp_writing};

    /// The connection of this stream, which failed in nothing yet. Small pieces go out at once, where the system takes
    /// that option.
    pub fn new(stream: TcpStream) -> TcpLink
        ensures reading { tcp_reading result ≡ record { given = None; left = None; faults = 0 } }
        ensures writing { tcp_writing result ≡ record { written = Nothing; faults = 0 } }
    {
        TcpLink {
            stream: Some(without_delay(stream)),
            read_faults: 0,
            write_faults: 0,
        }
    }
}

impl Source for TcpLink {
    ghost use Rattle.eb_net.specs.Sockets.{tcp_reading, tcp_writing};

    ghost reading = { tcp_reading };

    ghost beside_reads = { tcp_writing };

    /// Waits for octets, or for the peer to end the connection. Where there is none a read is at the end.
    fn read(&mut self, room: &mut [u8]) -> Got {
        let Some(stream) = &mut self.stream else {
            return Got::End;
        };
        match stream.read(room) {
            Ok(0) => Got::End,
            Ok(count) => Got::Some(count),
            Err(_) => {
                self.read_faults = self.read_faults.saturating_add(1);
                Got::Failed
            }
        }
    }
}

impl Sink for TcpLink {
    ghost use Rattle.eb_net.specs.Sockets.{tcp_reading, tcp_writing};

    ghost writing = { tcp_writing };

    ghost beside_writes = { tcp_reading };

    /// A write that takes no octet is a failed one, and so is one where there is no connection.
    fn write(&mut self, piece: &[u8]) -> Put {
        let written = match &mut self.stream {
            None => Ok(0),
            Some(stream) => stream.write(piece),
        };
        match written {
            Ok(count) if count > 0 => Put::Some(count),
            _ => {
                self.write_faults = self.write_faults.saturating_add(1);
                Put::Failed
            }
        }
    }
}

impl Link for TcpLink {
    ghost use Rattle.std.specs.Prelude.{refl};

    ghost tells_writes = { λ _. refl };

    ghost tells_reads = { λ _. refl };
}

/// A TCP port that accepts connections, one after another.
#[derive(Drop)]
pub struct TcpDoor {
    listener: TcpListener,
    standing: TcpLink,
    faults: u64,
}

impl TcpDoor {
    ghost use Rattle.eb_net.specs.Sockets.{tcp_reading, tcp_writing, tcp_accepting};

    /// The door of this port, which has accepted nothing yet.
    pub fn new(listener: TcpListener) -> TcpDoor
        ensures reading { tcp_reading result.standing ≡ record { given = None; left = None; faults = 0 } }
        ensures writing { tcp_writing result.standing ≡ record { written = Nothing; faults = 0 } }
        ensures accepting { tcp_accepting result ≡ record { links = None; earlier = None; began = None; faults = 0 } }
    {
        TcpDoor {
            listener,
            standing: TcpLink {
                stream: None,
                read_faults: 0,
                write_faults: 0,
            },
            faults: 0,
        }
    }
}

impl Door for TcpDoor {
    type Link = TcpLink;

    ghost use Rattle.std.specs.Prelude.{refl};
    ghost use Rattle.eb_net.specs.Sockets.{tcp_accepting, tcp_with};

    ghost standing = { λ d. d.standing };

    ghost with_standing = { tcp_with };

    ghost accepting = { tcp_accepting };

    /// The connection that stood is closed, and then it waits for a peer. Also where the accept fails none stands.
    fn accept(&mut self) -> Accepted {
        self.standing.stream = None;
        match self.listener.accept() {
            Ok((stream, _)) => {
                self.standing.stream = Some(without_delay(stream));
                Accepted::Open
            }
            Err(_) => {
                self.faults = self.faults.saturating_add(1);
                Accepted::Failed
            }
        }
    }

    fn link(&mut self) -> &mut TcpLink {
        &mut self.standing
    }

    ghost stands = { λ _ _. refl };

    ghost keeps_accepts = { λ _ _. refl };
}

/// A UDP port that receives datagrams and answers their senders.
#[derive(Drop)]
pub struct UdpPost {
    socket: UdpSocket,
    sender: Option<SocketAddr>,
    read_faults: u64,
    write_faults: u64,
}

impl UdpPost {
    ghost use Rattle.eb_net.specs.Sockets.{udp_posting};

    /// The post of this port, which has received nothing yet.
    pub fn new(socket: UdpSocket) -> UdpPost
        ensures tells { udp_posting result ≡ record {
          received = None;
          left = None;
          sent = None;
          faults = record { reads = 0; writes = 0 };
        } }
    {
        UdpPost {
            socket,
            sender: None,
            read_faults: 0,
            write_faults: 0,
        }
    }
}

impl Post for UdpPost {
    ghost use Rattle.eb_net.specs.Sockets.{udp_posting};

    ghost posting = { udp_posting };

    /// Waits for a datagram.
    fn receive(&mut self, room: &mut [u8]) -> Got {
        match self.socket.recv_from(room) {
            Ok((count, sender)) => {
                self.sender = Some(sender);
                Got::Some(count)
            }
            Err(_) => {
                self.read_faults = self.read_faults.saturating_add(1);
                Got::Failed
            }
        }
    }

    /// Before the first datagram a send fails.
    fn send(&mut self, piece: &[u8]) -> Put {
        let sent = match self.sender {
            None => Ok(0),
            Some(sender) => self.socket.send_to(piece, sender),
        };
        match sent {
            Ok(count) if count == piece.len() && self.sender.is_some() => Put::Some(count),
            _ => {
                self.write_faults = self.write_faults.saturating_add(1);
                Put::Failed
            }
        }
    }
}
