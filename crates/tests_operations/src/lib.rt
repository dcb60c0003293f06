//! Tests of a server, by calls made by hand, and of three clients of one over TCP; and what has to be laid out before
//! changes are declared.
#![tactic(auto)]

#[cfg(test)]
mod here;
#[cfg(test)]
mod laid_out;
#[cfg(test)]
mod served;
#[cfg(test)]
mod server;
