//! Tests of the parts of the clocked bus through their public calls: devices, adapters, trees, ports, an arbiter and a
//! crossbar, with the clocks of their answers worked out by hand; and of the reader of scripts.
#![tactic(auto)]

#[cfg(test)]
mod clocked;
#[cfg(test)]
mod ports;
#[cfg(test)]
mod scripts;
