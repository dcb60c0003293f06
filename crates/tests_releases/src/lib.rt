//! Tests of ledgers, of journals and of what a client releases: over devices in memory, whose calls fail in turn and
//! which crash; and of a device over a real file.
#![tactic(auto)]

#[cfg(test)]
mod crashes;
#[cfg(test)]
mod files;
#[cfg(test)]
mod here;
#[cfg(test)]
mod journals;
#[cfg(test)]
mod ledgers;
#[cfg(test)]
mod record_logs;
#[cfg(test)]
mod releases;
#[cfg(test)]
mod resigns;
#[cfg(test)]
mod signed_again;
#[cfg(test)]
mod stops;
