//! Tests of descriptions, SDB records, tables, walks and listings through their public calls: values from the standard,
//! and examples that were worked out by hand.
#![tactic(auto)]

#[cfg(test)]
mod descriptions;
#[cfg(test)]
mod listings;
#[cfg(test)]
mod records;
#[cfg(test)]
mod tables;
#[cfg(test)]
mod walks;
