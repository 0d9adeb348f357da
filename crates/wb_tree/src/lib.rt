//! Trees of buses, clock by clock. A node is a device, a device behind one adapter or two, or a bus; a bus has children
//! at ranges of addresses, and one of 32 data bits may stand behind a port of 64.
//!
//! A node is a `Clocked` slave. The answer to an operation is that of the step of the tree's wiring, and is due after
//! the path wait. A device that isn't pipelined stalls while it owes an answer that isn't due; a bus stalls besides
//! while another child owes one, its miss counting as a child. A bridge adds no clock, and a miss answers ERR in the
//! next one.
//!
//! A clock asks only the children that owe an answer or get the operation, and takes no memory.
//!
//! - `node`: a node, and what makes one
//! - `part`: a child of a bus
//! - `branch`: the inside of a bus
//! - `narrow`: a bus of 32 data bits behind a port of 64
//! - `half`: one half of an operation of 64 data bits, and its answer on the way back
#![tactic(auto)]

mod branch;
mod half;
mod narrow;
mod node;
mod part;

pub use branch::Branch;
pub use node::Node;
pub use part::Part;
