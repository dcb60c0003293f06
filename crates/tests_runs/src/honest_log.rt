//! An honest run in which the log gets full: 1,024 calls, each of which placed or committed an operation. What the
//! server answers then is told by hand.

use crate::answers::count_views;
use crate::here::Here;
use crate::honest::{LISTING, Rows, answers_of, goes_on, operates};
use crate::planning::keys;
use tests_aids::{Host, check, found};

/// How many operations are placed and committed: 1,022 calls. A key signs for 512 of them.
const WHOLE: u16 = 511;

/// The steps at the end, and what the server answers to each: a user, the letter of a step, and `-` for no status, `0`
/// for status 0, `b` for busy, `u` for an unknown user or `n` where it isn't taken. User 0's structure and user 1's
/// certificate are the last calls but one and the last for which the log has room. What it answers without the log it
/// still does: user 1's certificate again, and user 3's, who isn't listed. Each answer may come late, too, until
/// another text is sent.
static END: [&[u8; 3]; 21] = [
    b"0d-", b"0u-", b"0s-", b"1d-", b"1U0", b"0cb", b"0lb", b"0cb", b"2d-", b"2ub", b"3d-", b"3uu",
    b"1l-", b"1u-", b"1l-", b"1s-", b"1ln", b"1cb", b"2lb", b"3lu", b"2ub",
];

/// The steps at the end.
fn ends(rt: &impl Host, rows: &mut Rows) {
    for [digit, letter, _] in &END {
        goes_on(rt, rows, digit.wrapping_sub(b'0'), &[*letter]);
    }
}

/// All operations that the log has room for: user 0 lists users 1 and 2, user 2 operates, and then users 0 and 1 do in
/// turn.
fn fills(rt: &impl Host, rows: &mut Rows) {
    for number in 0..4 {
        goes_on(rt, rows, number, b"o");
    }
    operates(rt, rows, 0, LISTING);
    operates(rt, rows, 2, b"");
    for number in 2..WHOLE {
        let is_odd = number % 2 == 1;
        operates(rt, rows, u8::from(is_odd), b"");
    }
}

/// Whether an answer is this status, or none of the server's where a reply came.
fn is_so(told: &[u8], status: u8) -> bool {
    match told {
        b"v\x00" => status == b'0',
        b"v\x06" => status == b'b',
        b"v\x02" => status == b'u',
        b"-" => status == b'n',
        [b'b' | b't' | b's', ..] => status == b'-',
        _ => false,
    }
}

#[test]
fn a_log_gets_full(rt: HostRuntime) {
    let rt = &(rt, Here);
    let mut rows = Vec::new(rt.0.alloc());
    fills(rt, &mut rows);
    let filled = rows.len();
    ends(rt, &mut rows);
    let told = answers_of(rt, &keys(rt, 3), &rows);
    let before = found(rt, told.get(..filled), "steps");
    let end = found(rt, told.get(filled..), "steps");
    check(
        rt,
        count_views(before) == usize::from(WHOLE),
        "all are accepted",
    );
    for (place, ([_, _, status], told)) in END.iter().zip(end).enumerate() {
        assert!(rt; is_so(told, *status), "at {place}");
    }
}
