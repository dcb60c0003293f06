//! Tests of what stands beside the client and below its sessions: what commands come to, transports and streams,
//! signatures from outside, keys that are drawn over all processors, what is known of checked blocks, and blocks that
//! are kept.
#![tactic(auto)]

#[cfg(test)]
mod ahead;
#[cfg(test)]
mod cached_blocks;
#[cfg(test)]
mod courses;
#[cfg(test)]
mod drawn_keys;
#[cfg(test)]
mod keeping;
#[cfg(test)]
mod signatures;
#[cfg(test)]
mod streams;
#[cfg(test)]
mod table_changes;
#[cfg(test)]
mod transports;
