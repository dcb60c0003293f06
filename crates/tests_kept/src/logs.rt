//! Logs of a server that are read back, and what is answered then.

use crate::history::history;
use crate::kept::{add_call, answers_alike, ended, opened, records_of};
use crate::storages::{file_text, storage_of};
use layout::{let_go, put_in};

/// The log is opened again before each call of a history: each is answered as by the server that went on, with the same
/// bytes, so a certificate that is pending with its reply, and a structure that was committed with nothing. The file
/// has the calls that went to the log, and the order no others.
#[test]
fn restarts_are_not_seen(rt: HostRuntime) {
    let line = history(&rt);
    let mut records = records_of(&rt, &line.pinned, &[]);
    let mut file = Vec::new(rt.alloc());
    let mut logged: usize = 0;
    for (count, call) in line.calls.iter().enumerate() {
        let mut kept = opened(&rt, storage_of(&rt, &file), line.pinned);
        assert!(rt; kept.0.call_count() == logged);
        answers_alike(&rt, &mut kept, call);
        logged = logged.saturating_add(usize::from(call.is_logged));
        put_in(&mut file, file_text(&rt, kept.1.close()));
        add_call(&rt, &mut records, call);
        assert!(rt; file == ended(&rt, &records), "call {count}");
        let_go(kept.0);
    }
    assert!(rt; line.calls.len() == 26 && logged == 15);
}
