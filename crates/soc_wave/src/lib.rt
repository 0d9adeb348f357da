//! The wave of a bus: the signals of its ports and the holders of its top slaves, clock by clock, and which rows are a
//! legal wave.
//!
//! A legal wave is a relation on finished rows, clause by clause: the lines that a request or an answer leaves are zero
//! where none stands; an answer stands exactly where it is due; the requests without answer never pass the depth; STALL
//! stands exactly where it must; a stalled request stands unchanged; a holder keeps what it holds while its CYC stands;
//! and ports come to hold the sets named for them in exactly the clocks that the rule of the grant gives. The first
//! clauses speak of rows alone, so that they say what a wave from elsewhere must keep, too.
//!
//! The rows that ticks add while a bus is watched from its first clock on are a legal wave for the sets that its ports
//! raise, and its journal begins with the cycles that rose and fell in them.
//!
//! - `wave`: the rows of a bus, in one flat room
//! - `view`: a row where it lies
//! - `text`: the text of a wave
//! - `laws`: what holds of every watched bus
//!
//! In `specs`: `Rows`, what is read in rows; `Requests`, the requests of a port and when each is answered;
//! `Arbitration`, how the arbiter goes on in a wave; `Legal`, the clauses; `Pairs`, the cycles that a wave shows and
//! its history; `Shown`, the row of a tick; `Laws` and `Readings`, the statements of the laws; `Tests`, the clauses as
//! tests; `WorkedWaves`, three waves that pass them.
#![tactic(auto)]

pub mod laws;
mod text;
mod view;
mod wave;

pub use view::RowView;
pub use wave::Wave;
