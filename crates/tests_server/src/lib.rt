//! Tests of stored blocks and of the server's workers, over connections in memory and over sockets, by threads; and
//! that a verification under another key counts for nothing.
#![tactic(auto)]

#[cfg(test)]
mod again;
#[cfg(test)]
mod before_lock;
#[cfg(test)]
mod blocks;
#[cfg(test)]
mod by_hand;
#[cfg(test)]
mod counted;
#[cfg(test)]
mod deadlines;
#[cfg(test)]
mod errors;
#[cfg(test)]
mod faults;
#[cfg(test)]
mod full_log;
#[cfg(test)]
mod logs;
#[cfg(test)]
mod many;
#[cfg(test)]
mod operations;
#[cfg(test)]
mod overlap;
#[cfg(test)]
mod renewed_key;
#[cfg(test)]
mod requests;
#[cfg(test)]
mod serving;
#[cfg(test)]
mod sockets;
#[cfg(test)]
mod talks;
#[cfg(test)]
mod texts;
#[cfg(test)]
mod users;
#[cfg(test)]
mod verifications;
