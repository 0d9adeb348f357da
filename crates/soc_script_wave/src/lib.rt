//! The waves of a script: which rows show a bus that runs it, and that running it clock by clock shows them.
//!
//! A script asks each master for cycles, line by line. A wave of the script is a legal wave for the sets of these
//! cycles in which CYC rises, operations are offered and CYC falls in time, which ends with the first clock in which
//! all is done, and whose history is legal. Each clause fixes a row from the rows before it.
//!
//! A watched bus that runs a script by the steps before each tick shows a wave of the script, and its journal is the
//! history of that wave. Each master's own part has the marks and operations of its cycles, in order, and the run ends
//! after a number of clocks that the script tells.
//!
//! - `laws`: what holds of every bus that runs a script
//!
//! In `specs`: `Sets`, the sets and marks of the cycles that a script asks for; `ScriptWave`, the clauses; `Runner`,
//! what is done before each tick; `Work`, the bound of a run; `ScriptLaws`, `ScriptOwn`, the statements of the laws.
#![tactic(auto)]

pub mod laws;
