//! What the errors of scripts and of their servers print.

use fork_theorem::PlayError;
use hostile_server::Refused;
use std::alloc::Global;
use std::fmt::Display;
use std::process::Abort;
use wire::Status;

/// Each error prints its line, and there are no more lines.
fn print_lines<E: Display>(rt: &(impl Abort + Alloc<A = Global>), errors: &[E], lines: &str) {
    let mut printed = String::new(rt.alloc());
    for error in errors {
        printed = format!(in rt.alloc(); "{printed}{error}\n").expect(rt, "memory");
    }
    assert!(rt; printed.as_str() == lines, "{printed}");
}

static PLAYING: [PlayError; 3] = [PlayError::Read, PlayError::Write, PlayError::Memory];

const LINES_OF_PLAYING: &str = "\
the script can't be read
a line can't be written
out of memory
";

#[test]
fn errors_print(rt: HostRuntime) {
    print_lines(&rt, &PLAYING, LINES_OF_PLAYING);
    let refused = [Refused(Status::Busy), Refused(Status::Form)];
    print_lines(
        &rt,
        &refused,
        "refused by status Busy\nrefused by status Form\n",
    );
}
