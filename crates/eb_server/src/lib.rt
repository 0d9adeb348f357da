//! A whole stream served: read from a source in pieces, run by a session on a master, and answered to a sink; or over a
//! link, which is both. Its contract: what was read, which items ran, what was written for them and how the stream
//! ended, by one definition; and the laws that octets decide their ending and have one reply.
//!
//! - `serving`: a whole stream, from a source and to a sink
//! - `stream`: the whole stream of a link
//! - `piece`: a piece of a stream
//! - `rooms`: where a piece is read to, and the replies to it are gathered
//! - `ending`: how a stream ended
//! - `laws`: what holds of every stream that is served
#![tactic(auto)]

mod ending;
pub mod laws;
mod piece;
mod rooms;
mod serving;
mod stream;

pub use ending::Ending;
pub use rooms::Rooms;
pub use serving::serve;
pub use stream::serve_stream;
