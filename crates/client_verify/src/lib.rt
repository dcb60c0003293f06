//! The client: it declares operations, accepts the replies that break no rule, signs what it accepted, and tells what
//! stands in the accepted view.
#![tactic(auto)]

mod client;
mod declaring;
mod judging;
mod keeping;
mod laid;
mod look;
mod looking;
mod resigning;
mod signing;
mod step;
mod structure;
mod view;

pub use client::Client;
pub use client_releases::{ClientError, Keys, Parts, Phase};
pub use client_tree::SeenKind;
pub use laid::{are_laid, laid_file_is_laid};
pub use look::Look;
pub use reply_rules::Rule;
pub use step::Step;
