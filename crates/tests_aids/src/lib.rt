//! What tests share: texts made by hand from the description of the formats, what a crash leaves of a device, what signs
//! and is stopped at each call of one, and what a test runs in and fails by.
#![tactic(auto)]

pub mod blocks;
pub mod crashes;
mod host;
pub mod numbers;
pub mod stops;
pub mod tables;
pub mod texts;

pub use host::{Aided, Fails, Host, check, check_text, found, given};
