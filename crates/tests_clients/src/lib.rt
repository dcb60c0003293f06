//! Tests of clients by themselves and among others, with servers in memory, with hostile stores, and in replies that
//! are made by hand or that a server changes: whole operations byte for byte; what others signed, wrote and placed;
//! which blocks are asked for; clients whom a server shows different lines, before a crash and after one; and clients
//! that are opened again, in each phase and after each call of their devices that fails.
#![tactic(auto)]

#[cfg(test)]
mod acts;
#[cfg(test)]
mod cached_blocks;
#[cfg(test)]
mod changed_replies;
#[cfg(test)]
mod crashed_users;
#[cfg(test)]
mod device_faults;
#[cfg(test)]
mod files;
#[cfg(test)]
mod groups;
#[cfg(test)]
mod here;
#[cfg(test)]
mod histories;
#[cfg(test)]
mod long_table;
#[cfg(test)]
mod needed_blocks;
#[cfg(test)]
mod old_files;
#[cfg(test)]
mod operations;
#[cfg(test)]
mod other_users;
#[cfg(test)]
mod others_parts;
#[cfg(test)]
mod place_of_table;
#[cfg(test)]
mod refusals;
#[cfg(test)]
mod renewed_keys;
#[cfg(test)]
mod reopening;
#[cfg(test)]
mod restarts;
#[cfg(test)]
mod script;
#[cfg(test)]
mod several_keys;
#[cfg(test)]
mod several_users;
#[cfg(test)]
mod stolen_keys;
#[cfg(test)]
mod two_users;
#[cfg(test)]
mod words;
