//! A post in memory that shows what was sent.

use eb_io::{Got, Put};
use eb_net::{MemPost, Post};

/// A post in memory, with the datagrams that it was asked to send, each behind a 0xAA.
#[derive(Drop)]
pub struct Heard {
    pub post: MemPost,
    pub sent: Vec<u8>,
}

impl Post for Heard {
    ghost use Rattle.eb_net.specs.MemPost.{mem_posting};

    ghost posting = { λ h. mem_posting h.post };

    fn receive(&mut self, room: &mut [u8]) -> Got {
        self.post.receive(room)
    }

    fn send(&mut self, piece: &[u8]) -> Put {
        let _ = self.sent.push(0xAA);
        let _ = self.sent.extend_from_slice(piece);
        self.post.send(piece)
    }
}
