//! Tests of scripts run on a watched bus: their waves and journals as texts, worked out by hand.
//!
//! - `texts`: a script's run as text
//! - `scripts`: the worked scripts
#![tactic(auto)]

#[cfg(test)]
mod scripts;
#[cfg(test)]
mod texts;
