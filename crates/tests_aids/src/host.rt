//! What a test runs in, and fails by. A library ends no process: how a test ends that fails, each crate of tests says
//! for itself.

ghost use Rattle.std.specs.Prelude.{◌≡◌, Ok, Some};

use std::alloc::Global;
use std::fmt::{Debug, Display};
use std::process::Abort;

/// What helpers of tests run in: memory, and how a test fails.
pub trait Aided {
    /// Where memory is taken from.
    fn alloc(&self) -> Global;

    /// Ends the test, which has failed, and says why.
    fn fail<D: Display + Drop>(&self, why: D) -> !;
}

/// How the tests of a crate fail.
pub trait Fails<R> {
    /// Ends the test in this runtime, and says why.
    fn fail<D: Display + Drop>(rt: &R, why: D) -> !;
}

/// A runtime, and beside it how the tests of a crate fail.
impl<R: Alloc<A = Global>, F: Fails<R>> Aided for (R, F) {
    fn alloc(&self) -> Global {
        self.0.alloc()
    }

    fn fail<D: Display + Drop>(&self, why: D) -> ! {
        F::fail(&self.0, why)
    }
}

/// What a test runs in.
pub trait Host: Aided + Abort {}

impl<R: Aided + Abort> Host for R {}

/// What was answered, or the test fails.
pub fn given<T, E: Debug + Drop>(rt: &impl Aided, answer: Result<T, E>, what: &str) -> T
    ensures { answer ≡ Ok result }
{
    match answer {
        Ok(value) => value,
        Err(error) => rt.fail(format_args!("{what}: {error:?}")),
    }
}

/// What was found, or the test fails.
pub fn found<T>(rt: &impl Aided, answer: Option<T>, what: &str) -> T
    ensures { answer ≡ Some result }
{
    match answer {
        Some(value) => value,
        None => rt.fail(what),
    }
}

/// Fails the test, and says what doesn't hold, where it doesn't.
pub fn check(rt: &impl Aided, holds: bool, what: &str) {
    if !holds {
        rt.fail(what)
    }
}

/// Fails the test where two texts differ.
pub fn check_text(rt: &impl Aided, found: &[u8], wanted: &[u8]) {
    if found != wanted {
        rt.fail(format_args!("{found:?} is not {wanted:?}"))
    }
}
