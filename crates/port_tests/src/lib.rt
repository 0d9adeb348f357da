//! Tests of posts: that datagrams have other endings than want of memory, which no contract says, and what is sent for
//! octets that were worked out by hand.
//!
//! - `heard`: a post in memory that shows what was sent
//! - `posts`: datagrams that are served
#![tactic(auto)]

#[cfg(test)]
mod heard;
#[cfg(test)]
mod posts;
