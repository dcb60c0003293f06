//! Tests of whole runs: what clients answer that stand alone, `fork_consistency::run` answers to the same steps, over
//! crashes, over devices that fail, and where users get further keys; a run in which the premises of fork consistency
//! hold, beside the worlds of its lines; one in which a user's key is stolen, and what is still others' own there; that
//! in two scripts no two texts share a digest, and that a server that can lie answers as the honest one where it doesn't.
//! What scripts print stands in `scripts/`.
#![tactic(auto)]

#[cfg(test)]
mod acts;
#[cfg(test)]
mod alone;
#[cfg(test)]
mod answers;
#[cfg(test)]
mod clients;
#[cfg(test)]
mod dice;
#[cfg(test)]
mod errors;
#[cfg(test)]
mod failing;
#[cfg(test)]
mod hashed;
#[cfg(test)]
mod here;
#[cfg(test)]
mod honest;
#[cfg(test)]
mod honest_devices;
#[cfg(test)]
mod honest_log;
#[cfg(test)]
mod honest_play;
#[cfg(test)]
mod honest_random;
#[cfg(test)]
mod instance;
#[cfg(test)]
mod lines;
#[cfg(test)]
mod lying;
#[cfg(test)]
mod notes;
#[cfg(test)]
mod plain_world;
#[cfg(test)]
mod planning;
#[cfg(test)]
mod premises;
#[cfg(test)]
mod refuted;
#[cfg(test)]
mod renewed_runs;
#[cfg(test)]
mod runs;
#[cfg(test)]
mod scripts;
#[cfg(test)]
mod servers;
#[cfg(test)]
mod stage;
#[cfg(test)]
mod stolen_run;
#[cfg(test)]
mod thief;
#[cfg(test)]
mod written;
