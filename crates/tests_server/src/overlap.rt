//! Two connections at once, the call of one of which is held up.

use crate::serving::key;
use crate::talks::{Talk, serve_talks};
use server_workers::Gate;
use std::sync::atomic::{AtomicBool, Ordering};
use std::thread;
use std::time::{Clock, Duration};

/// How many turns of one millisecond the first call is held up at most.
const TURNS: u32 = 10_000;

/// A gate that holds the first call up until some call was answered.
#[derive(Drop)]
struct Holding<'a, R: Clock> {
    rt: &'a R,
    answered: AtomicBool,
    in_time: AtomicBool,
}

impl<'a, R: Clock> Gate for Holding<'a, R> {
    fn pass(&self, call: u64) {
        if call != 1 {
            return;
        }
        for _turn in 0..TURNS {
            if self.answered.load(Ordering::SeqCst) {
                self.in_time.store(true, Ordering::SeqCst);
                return;
            }
            thread::sleep(self.rt, Duration::from_millis(1));
        }
    }
}

/// An UPDATE without a certificate, and the reply that says so.
const REQUEST: &[u8] = b"\0\0\0\x0f\x01no certificate";

const REPLY: &[u8] = b"\0\0\0\x01\x01";

/// The first call is held up in the gate until the second one is answered.
#[test]
fn two_connections_overlap(rt: HostRuntime) {
    let gate = Holding {
        rt: &rt,
        answered: AtomicBool::new(false),
        in_time: AtomicBool::new(false),
    };
    let talk = Talk {
        requests: REQUEST,
        replies: REPLY,
        answered: &gate.answered,
    };
    let served = serve_talks(&rt, &gate, 2, key(&rt), talk);
    assert_eq!(rt; served.answered, 2);
    assert!(rt; gate.in_time.load(Ordering::SeqCst), "within the turns");
}
