//! What the errors of the server's parts print.

use block_store::StoreError;
use consistency_server::LogFull;
use std::alloc::Global;
use std::fmt::Display;
use std::process::Abort;

/// Each error prints its line, and there are no more lines.
fn print_lines<E: Display>(rt: &(impl Abort + Alloc<A = Global>), errors: &[E], lines: &str) {
    let mut printed = String::new(rt.alloc());
    for error in errors {
        printed = format!(in rt.alloc(); "{printed}{error}\n").expect(rt, "memory");
    }
    assert!(rt; printed.as_str() == lines, "{printed}");
}

#[test]
fn errors_print(rt: HostRuntime) {
    print_lines(&rt, &[LogFull], "the log is full\n");
    let storing = [StoreError::TooLarge, StoreError::Full, StoreError::Memory];
    let lines = "the block is too large\nthe blocks have no room left\nout of memory\n";
    print_lines(&rt, &storing, lines);
}
