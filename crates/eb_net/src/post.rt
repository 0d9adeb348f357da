//! Datagrams that come, and those that are sent back.

ghost use Rattle.std.specs.Prelude.{◌≡◌, length};
ghost use Rattle.eb_net.specs.Posting.{Posting, Receives, Sends, most_of_datagram};

use eb_io::{Got, Put};

/// Datagrams that come, and those that are sent back.
pub trait Post {
    /// What it tells: the datagrams received, left and sent, where it tells them, and how many receives and sends
    /// failed.
    ghost posting: { Self → Posting };

    /// Puts the next datagram, whole, at the front of the room, which has 65,507 octets, as the greatest one.
    ///
    /// `Some(0)` is an empty datagram. `End` comes exactly where the receive doesn't fail and the post tells that none
    /// is left. `Failed` comes only where the count of failed receives rose, and then nothing was received.
    fn receive(&mut self, room: &mut [u8]) -> Got
        requires room { length room.old ≡ most_of_datagram }
        ensures receives { Receives (posting self.old) (posting self.new) room.new result };

    /// Sends the piece as one datagram to the sender of the last one received.
    ///
    /// `Some` has the piece's length. `Failed` comes only where the count of failed sends rose, and then nothing was
    /// sent.
    fn send(&mut self, piece: &[u8]) -> Put
        ensures sends { Sends (posting self.old) (posting self.new) piece.now result };
}
