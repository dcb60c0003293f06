//! Tests of what a server keeps in files: blocks, logs that are read back, and a server over both.
#![tactic(auto)]

#[cfg(test)]
mod block_crashes;
#[cfg(test)]
mod blocks;
#[cfg(test)]
mod here;
#[cfg(test)]
mod history;
#[cfg(test)]
mod kept;
#[cfg(test)]
mod log_crashes;
#[cfg(test)]
mod logs;
#[cfg(test)]
mod refused_logs;
#[cfg(test)]
mod said;
#[cfg(test)]
mod served;
#[cfg(test)]
mod served_crashes;
#[cfg(test)]
mod signer;
#[cfg(test)]
mod storages;
