//! Tests of sessions. Commands by their words, over a server in memory and over TCP; what a server that lies comes to,
//! and what a client that refuses; how many exchanges a command has; a session that is stopped at each of them, or
//! whose memory runs out, its own or the server's, at each growth; several files in one operation; and users of several
//! keys.
#![tactic(auto)]

#[cfg(test)]
mod ahead;
#[cfg(test)]
mod answers_of_servers;
#[cfg(test)]
mod by_words;
#[cfg(test)]
mod costs;
#[cfg(test)]
mod cuts;
#[cfg(test)]
mod files;
#[cfg(test)]
mod growths;
#[cfg(test)]
mod here;
#[cfg(test)]
mod largest;
#[cfg(test)]
mod limits;
#[cfg(test)]
mod line;
#[cfg(test)]
mod memory;
#[cfg(test)]
mod moves_cut;
#[cfg(test)]
mod operations;
#[cfg(test)]
mod over_tcp;
#[cfg(test)]
mod refusals;
#[cfg(test)]
mod served;
#[cfg(test)]
mod several_files;
#[cfg(test)]
mod several_keys;
#[cfg(test)]
mod stopped;
#[cfg(test)]
mod town;
#[cfg(test)]
mod words;
