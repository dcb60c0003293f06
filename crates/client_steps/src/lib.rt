//! The steps of one user's client, over any devices: what each call of it may answer and leave, and the calls, each
//! made where it may be.
#![tactic(auto)]

mod calls;

pub use calls::{
    begin, cache, close, commit, free, give, hear, kind, look, open, resign, sign, take,
    type_invariant,
};
