//! Several files of one directory, written in one operation.

use crate::here::Here;
use crate::town::{Town, town_of};
use crate::words::{all_end, is_end};
use commands::{Command, NewFile};
use layout::let_go;
use tests_aids::{Aided, check};

const A: NewFile<'static> = NewFile {
    name: "a",
    content: b"one",
};

const F: NewFile<'static> = NewFile {
    name: "f",
    content: b"again",
};

const B: NewFile<'static> = NewFile {
    name: "b",
    content: b"two",
};

/// Files, of which one is there in `/d`.
const FILES: [NewFile<'static>; 3] = [A, F, B];

/// Files of one name.
const TWICE: [NewFile<'static>; 2] = [A, A];

/// A file whose name is none.
const NO_NAME: [NewFile<'static>; 1] = [NewFile {
    name: "a/b",
    content: b"",
}];

/// More files than one operation may have.
const NINE: [NewFile<'static>; 9] = [
    NewFile {
        name: "1",
        content: b"",
    },
    NewFile {
        name: "2",
        content: b"",
    },
    NewFile {
        name: "3",
        content: b"",
    },
    NewFile {
        name: "4",
        content: b"",
    },
    NewFile {
        name: "5",
        content: b"",
    },
    NewFile {
        name: "6",
        content: b"",
    },
    NewFile {
        name: "7",
        content: b"",
    },
    NewFile {
        name: "8",
        content: b"",
    },
    NewFile {
        name: "9",
        content: b"",
    },
];

/// What is there before, and after.
const BEFORE: &str = "\
0 mkdir /d -> 0 done|
0 put /d/f FILE < hello -> 0 done|
0 mkdir /d/dir -> 0 done|
";

const AFTER: &str = "\
0 ls -l /d -> 0 f 3 0:6 a|f 3 0:7 b|d 0 0:5 dir|f 5 0:4 f|
0 cat /d/a -> 0 one
0 cat /d/b -> 0 two
0 cat /d/f -> 0 again
";

/// What is there once as many as one may have were written, too.
const LAST: &str = "\
0 ls / -> 0 1 0:8|2 0:9|3 0:10|4 0:11|5 0:12|6 0:13|7 0:14|8 0:15|d 0:3|
";

/// These files are put into a directory, and that ends so.
fn put_all(rt: &impl Aided, town: &mut Town, directory: &str, files: &[NewFile<'_>], end: &str) {
    let outcome = town.run_one(rt, &Command::PutAll { directory, files });
    is_end(rt, &outcome, directory, end);
}

/// Files that can't be written, of which nothing is sent where that is seen in the command.
fn refuse_all(rt: &impl Aided, town: &mut Town) {
    put_all(rt, town, "/d", &TWICE, "4 no path|");
    check(rt, town.sent(rt).is_empty(), "two files of one name");
    put_all(rt, town, "/d", &NO_NAME, "4 no path|");
    check(rt, town.sent(rt).is_empty(), "no name");
    put_all(rt, town, "/d", &NINE, "4 too large|");
    check(rt, town.sent(rt).is_empty(), "nine files");
    put_all(rt, town, "/none", &FILES, "4 no path|");
    put_all(rt, town, "/d/f", &FILES, "4 no path|");
    let directory = [NewFile {
        name: "dir",
        content: b"",
    }];
    put_all(rt, town, "/d", &directory, "4 no path|");
}

#[test]
fn several_files(rt: HostRuntime) {
    let rt = (rt, Here);
    let mut town = town_of(&rt, 1);
    all_end(&rt, &mut town, BEFORE);
    refuse_all(&rt, &mut town);
    put_all(&rt, &mut town, "/d", &FILES, "0 done|");
    all_end(&rt, &mut town, AFTER);
    put_all(&rt, &mut town, "/", &NINE[..8], "0 done|");
    all_end(&rt, &mut town, LAST);
    let_go(town);
}
