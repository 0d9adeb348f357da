//! Connections to peers, one after another.

ghost use Rattle.std.specs.Prelude.{◌≡◌};
ghost use Rattle.std.specs.Borrow.{sem, Lends};
ghost use Rattle.eb_net.specs.Accepting.{Accepting, Accepts};

use eb_io::Link;

/// What an accept answers.
#[derive(Clone, Copy, Debug, PartialEq, Eq)]
pub enum Accepted {
    /// The door has a new connection.
    Open,
    /// No link is left.
    Closed,
    /// The accept failed.
    Failed,
}

/// Connections to peers, one after another, of which the last one opened stands.
///
/// The counts of failed reads and writes are the door's: they go on from one connection to the next.
pub trait Door {
    /// The link of the connection that stands. Before the first it is one of which a read is at the end and a write
    /// fails.
    type Link: Link;

    /// The link of the connection that stands.
    ghost standing: { Self → Self.Link };

    /// The door where the link of the connection that stands is another.
    ghost with_standing: { Self → Self.Link → Self };

    /// What it tells of its accepts: the links left and the earlier connections, where it tells them, and how many
    /// accepts failed.
    ghost accepting: { Self → Accepting };

    /// Opens the next connection, over the first of the links left; the one that stood before is over.
    ///
    /// `Closed` comes exactly where the accept doesn't fail and the door tells that no link is left. `Failed` comes
    /// only where the count of failed accepts rose, and then what is told of the connection that stood is as before.
    fn accept(&mut self) -> Accepted
        ensures accepts { Accepts
            (record {
              reading = Self.Link.reading (standing self.old);
              writing = Self.Link.writing (standing self.old);
              accepting = accepting self.old;
            })
            (record {
              reading = Self.Link.reading (standing self.new);
              writing = Self.Link.writing (standing self.new);
              accepting = accepting self.new;
            })
            result };

    /// Lends the link of the connection that stands.
    fn link(&mut self) -> &mut Self::Link
        ensures* lends { sem 𝓛 (Lends Self.row Self.Link.row self.entry result (with_standing self.old)) }
        ensures standing { result.now ≡ standing self.old };

    /// What was read and written is what the door tells then.
    ghost stands: { (door : Self) (link : Self.Link) → standing (with_standing door link) ≡ link };

    /// Reads and writes leave what it tells of its accepts.
    ghost keeps_accepts: { (door : Self) (link : Self.Link) → accepting (with_standing door link) ≡ accepting door };
}
