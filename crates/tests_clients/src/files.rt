//! Files of each size, from their making to a look at them in the view after it, byte for byte.

use crate::acts::Stage;
use crate::here::Here;
use crate::script::{Actors, new_actors, new_stage, play_on};
use crate::words::{put_text, words_of};
use layout::let_go;
use tests_aids::Host;
use tests_aids::texts::joined;

/// The size of a file; its i-number; the size in bytes of the digests of the blocks that the operation asks for that
/// makes it: the root of the i-table, and chunk 0 where that changed last, but of the beginning none; and that of those
/// that a look at it asks for in the end: its chunk, where no operation needed that since it changed.
static CASES: [(usize, &[u8]); 5] = [
    (0, b"3 0 0"),
    (1, b"4 64 0"),
    (4096, b"63 64 0"),
    (4097, b"64 64 32"),
    (4194304, b"4095 32 0"),
];

/// The byte of each file at a place: no two blocks that are next to each other are the same.
fn byte_at(place: usize) -> u8 {
    (place % 251) as u8
}

/// Text F is the file of a size from now on.
fn put_file(rt: &impl Host, stage: &mut Stage, size: usize) {
    let mut file = Vec::new(rt.alloc());
    for place in 0..size {
        file.push(byte_at(place)).expect(rt, "memory");
    }
    put_text(rt, &mut stage.by_hand.texts, b'F', file);
}

/// The operation makes the file that was planned: one chunk of the i-table and its root are new, and no change is lost.
static MAKES: &[u8] = b"\
    declare 0 u\n\
    update 0 u ok v\n\
    hear 0 v = 'accepted\n\
    measure Z = A\n\
    between y Y 0 1\n\
    equal y = 02\n\
    issue 0 s\n\
    commit 0 s ok\n\
    over 0\n\
    query 0 x = 'view\n";

/// The file of a case is made, and seen right after, where no block of it is asked for, since the client laid it out.
/// In the end each is seen alone. A is how much was asked for in the making, B in the look.
fn shows(rt: &impl Host, actors: &mut Actors, stage: &mut Stage, case: &[u8], is_new: bool) {
    let words = words_of(rt, case);
    let [number, making, look] = words.as_slice() else {
        panic!(rt; "not three words");
    };
    if is_new {
        let plan = joined(rt, &[b"plan make 0 ", number, b" F\ntext A :", making]);
        play_on(rt, actors, stage, &plan);
        play_on(rt, actors, stage, MAKES);
    }
    let asked: &[u8] = if is_new { b"0" } else { look };
    let look = joined(
        rt,
        &[b"look 0 0 ", number, b" = 'file F\nmeasure Z = :", asked],
    );
    play_on(rt, actors, stage, &look);
}

/// Each file is seen right after it is made, and in the end, and nothing where none was made.
#[test]
fn files_of_each_size(rt: HostRuntime) {
    let rt = &(rt, Here);
    let mut stage = new_stage(rt);
    let mut actors = new_actors(rt, &stage);
    for is_new in [true, false] {
        for (size, case) in &CASES {
            put_file(rt, &mut stage, *size);
            shows(rt, &mut actors, &mut stage, case, is_new);
        }
    }
    play_on(rt, &mut actors, &mut stage, b"look 0 0 5 = 'nothing");
    let_go((actors, stage));
}
