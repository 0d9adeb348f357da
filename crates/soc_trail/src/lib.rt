//! What becomes of a master's cycles: kept in memory, or seen by clauses alone.
//!
//! A recorder takes the pairs of an open cycle, and ends it as an entry. `Unkept` takes no memory that grows.
//!
//! - `recorder`: the trait
//! - `kept`: a journal in memory
//! - `unkept`: entries that only clauses see
//! - `trail`: a list that only clauses see
#![tactic(auto)]

mod kept;
mod recorder;
mod trail;
mod unkept;

pub use kept::Kept;
pub use recorder::Recorder;
pub use trail::Trail;
pub use unkept::Unkept;
