//! Each command by its words, each in a process of its own. A row has the user and the words of the command, the
//! content of the file that is put, and then the status and what is printed, with a bar for each end of a line.

use crate::here::Here;
use crate::words::all_end_in_town;

/// Files of user 0: i-numbers 1 and 2 are the table of principals and the root directory.
pub(crate) const FILES: &str = "\
0 ls / -> 0
0 put /empty FILE -> 0 done|
0 cat /empty -> 0
0 put /f FILE < hello -> 0 done|
0 cat /f -> 0 hello
0 ls / -> 0 empty 0:3|f 0:4|
0 put /f FILE < again -> 0 done|
0 cat /f -> 0 again
0 ls / -> 0 empty 0:3|f 0:4|
0 rm /f -> 0 done|
0 cat /f -> 4 no path|
0 ls / -> 0 empty 0:3|
0 put /new FILE < text -> 0 done|
0 ls / -> 0 empty 0:3|new 0:4|
";

/// Directories. A directory is removed once it is empty.
pub(crate) const DIRECTORIES: &str = "\
0 mkdir /d -> 0 done|
0 mkdir /d -> 4 there|
0 put /f FILE < hello -> 0 done|
0 mkdir /f -> 4 there|
0 mkdir / -> 4 there|
0 put /d/g FILE < inside -> 0 done|
0 cat /d/g -> 0 inside
0 mkdir /d/e -> 0 done|
0 ls /d -> 0 e 0:6|g 0:5|
0 rm /d -> 4 not empty|
0 rm / -> 4 not empty|
0 rm /d/g -> 0 done|
0 rm /d/e -> 0 done|
0 ls /d -> 0
0 rm /d -> 0 done|
0 rm /d -> 4 no path|
0 ls / -> 0 f 0:4|
0 ls /d -> 4 no path|
";

/// Paths that lead to nothing or to something of another kind, or are none.
const NO_PATHS: &str = "\
0 mkdir /d -> 0 done|
0 put /f FILE < hello -> 0 done|
0 cat /d -> 4 no path|
0 cat / -> 4 no path|
0 ls /f -> 4 no path|
0 cat /none -> 4 no path|
0 rm /none -> 4 no path|
0 put /d FILE < hello -> 4 no path|
0 put /f/x FILE < hello -> 4 no path|
0 put /none/x FILE < hello -> 4 no path|
0 mkdir /none/x -> 4 no path|
0 cat /f/x -> 4 no path|
0 ls @0:77 -> 4 no path|
0 link @0:77 @0:4 -> 4 no path|
0 ls // -> 4 no path|
0 ls /d/ -> 4 no path|
0 ls d -> 4 no path|
0 ls /./d -> 4 no path|
0 mkdir /. -> 4 no path|
0 mkdir /.. -> 4 no path|
0 put /d/.. FILE < hello -> 4 no path|
0 put /d//x FILE < hello -> 4 no path|
0 ls @0:2/ -> 4 no path|
0 ls @0:0 -> 4 no path|
0 ls @0:4096 -> 4 no path|
0 ls @96:2 -> 4 no path|
0 ls @0:+2 -> 4 no path|
0 link /l /f -> 4 no path|
0 link /l @96:1 -> 4 no path|
0 link /l @0:4096 -> 4 no path|
0 link /l @0:4/x -> 4 no path|
0 ls @00:02 -> 0 d 0:3|f 0:4|
";

/// More than one name for a file, and names for nothing.
const LINKS: &str = "\
0 put /f FILE < hello -> 0 done|
0 link /g @0:3 -> 0 done|
0 link /g @0:3 -> 4 there|
0 link / @0:3 -> 4 there|
0 link @0:3 @0:3 -> 4 there|
0 ls / -> 0 f 0:3|g 0:3|
0 put /g FILE < again -> 0 done|
0 cat /f -> 0 again
0 rm /f -> 0 done|
0 ls / -> 0 g 0:3|
0 cat /g -> 4 no path|
0 put /g FILE < hello -> 4 no path|
0 mkdir /g -> 4 there|
0 rm /g -> 0 done|
0 link /far @63:4095 -> 0 done|
0 ls / -> 0 far 63:4095|
0 rm /far -> 0 done|
0 ls / -> 0
";

/// Files and directories without a name.
const ENTRIES: &str = "\
0 put @0:9 FILE < loose -> 0 done|
0 cat @0:9 -> 0 loose
0 put @0:9 FILE < tight -> 0 done|
0 cat @0:9 -> 0 tight
0 mkdir @0:9 -> 4 there|
0 mkdir @0:10 -> 0 done|
0 put @0:10 FILE < loose -> 4 no path|
0 put @0:10/x FILE < deep -> 0 done|
0 cat @0:10/x -> 0 deep
0 ls @0:10 -> 0 x 0:3|
0 rm @0:10 -> 4 not empty|
0 rm @0:9 -> 0 done|
0 rm @0:9 -> 4 no path|
0 rm @0:10/x -> 0 done|
0 rm @0:10 -> 0 done|
0 ls / -> 0
0 put @0:1 FILE < table -> 1 lost 1|
0 rm @0:1 -> 1 lost 1|
0 rm / -> 1 lost 1|
";

/// Names that are moved, and directories that are told with what stands at each entry.
const MOVES: &str = "\
0 mkdir /d -> 0 done|
0 put /f FILE < hello -> 0 done|
0 mv /f /g -> 0 done|
0 ls / -> 0 d 0:3|g 0:4|
0 cat /g -> 0 hello
0 mv /g /d/f -> 0 done|
0 ls -l / -> 0 d 0 0:3 d|
0 ls -l /d -> 0 f 5 0:4 f|
0 mv /d /e -> 0 done|
0 cat /e/f -> 0 hello
0 mv /e /e/x -> 4 no path|
0 mv /e /e/f -> 4 no path|
0 mv /e /e -> 4 there|
0 mv /e/f / -> 4 there|
0 mv /e/f @0:4 -> 4 there|
0 mv /e/f @0:99 -> 4 no path|
0 mv /e/f /none/x -> 4 no path|
0 mv @0:4 /x -> 4 no path|
0 mv /none /x -> 4 no path|
0 link /far @63:4095 -> 0 done|
0 ls -l / -> 0 d 0 0:3 e|- 0 63:4095 far|
0 mv /far /x -> 4 no path|
0 ls -l /e/f -> 4 no path|
0 mkdir /e/d -> 0 done|
0 mv /e/d /d -> 4 no path|
0 mv /e /e/d/e -> 4 no path|
0 mv /e/d /e/c -> 0 done|
0 mv /e/f /e/c/f -> 0 done|
0 cat /e/c/f -> 0 hello
0 link /f @0:4 -> 0 done|
0 mv /e/c/f /f -> 0 done|
0 cat /f -> 0 hello
0 mv /e/c/f /f -> 4 no path|
0 put /g FILE < other -> 0 done|
0 mv /g /f -> 4 there|
0 cat /g -> 0 other
";

/// Users that are listed, and what belongs to another. User 1 declares an operation before it is listed.
const USERS: &str = "\
1 ls / -> 3 declined 2|
0 put /f FILE < hello -> 0 done|
0 adduser 1 KEY1 -> 0 done|
0 adduser 1 KEY1 -> 1 lost 1|
1 cat /f -> 0 resumed 1|hello
1 cat /f -> 0 hello
1 adduser 2 KEY2 -> 1 lost 1|
2 ls / -> 3 declined 2|
0 adduser 2 KEY2 -> 0 done|
2 ls / -> 0 resumed 1|f 0:3|
1 rm /f -> 1 lost 1 2|
1 put /f FILE < mine -> 1 lost 1|
1 put /g FILE < mine -> 1 lost 1 2|
1 mkdir /g -> 1 lost 1 2|
1 link /g @1:5 -> 1 lost 1|
1 put @1:5 FILE < of one -> 0 done|
0 cat @1:5 -> 0 of one
0 link /one @1:5 -> 0 done|
2 cat /one -> 0 of one
1 put /one FILE < newer -> 0 done|
0 cat /one -> 0 newer
0 put /one FILE < mine -> 1 lost 1|
0 rm @1:5 -> 1 lost 1|
0 rm /one -> 0 done|
0 ls / -> 0 f 0:3|
0 cat @1:5 -> 0 newer
1 rm @1:5 -> 0 done|
0 cat @1:5 -> 4 no path|
";

/// Groups: what a member makes there stands at one of the 64 i-numbers of its own.
const GROUPS: &str = "\
0 adduser 1 KEY1 -> 0 done|
0 addmember 64 1 -> 0 done|
0 addmember 64 1 -> 1 lost 1|
0 addmember 64 3 -> 1 lost 1|
1 addmember 65 1 -> 1 lost 1|
1 mkdir @64:200 -> 1 lost 1|
1 mkdir @64:64 -> 0 done|
0 link /team @64:64 -> 0 done|
1 put /team/a FILE < ours -> 0 done|
0 ls /team -> 0 a 64:65|
0 cat /team/a -> 0 ours
0 put /team/b FILE < too -> 1 lost 1 2|
0 addmember 64 0 -> 0 done|
0 put /team/b FILE < too -> 0 done|
1 ls /team -> 0 a 64:65|b 64:1|
0 put /team/a FILE < of both -> 0 done|
1 cat /team/a -> 0 of both
1 dropmember 64 0 -> 1 lost 1|
0 dropmember 64 1 -> 0 done|
0 dropmember 64 1 -> 1 lost 1|
0 dropmember 95 0 -> 1 lost 1|
1 put /team/a FILE < mine -> 1 lost 1|
1 put /team/c FILE < mine -> 1 lost 1 2|
1 rm /team/a -> 1 lost 1 2|
0 rm /team/a -> 0 done|
1 ls /team -> 0 b 64:1|
0 rm /team -> 4 not empty|
0 rm /team/b -> 0 done|
0 rm /team -> 0 done|
1 ls @64:64 -> 0
0 ls / -> 0
";

/// Keys that are set: of a user that is listed, by user 0. The last one counts, also where it isn't the user's own.
const KEYS: &str = "\
0 put /f FILE < hello -> 0 done|
0 setkey 1 KEY1 -> 1 lost 1|
0 adduser 1 KEY2 -> 0 done|
1 cat /f -> 3 declined 3|
1 cat /f -> 3 declined 3|
0 setkey 1 KEY1 -> 0 done|
1 cat /f -> 0 resumed 1|hello
1 cat /f -> 0 hello
1 setkey 1 KEY2 -> 1 lost 1|
0 setkey 0 KEY2 -> 1 lost 1|
0 setkey 1 KEY1 -> 0 done|
1 cat /f -> 0 hello
0 setkey 1 KEY2 -> 0 done|
1 put /f FILE < mine -> 3 declined 3|
0 setkey 1 KEY1 -> 0 done|
1 cat /f -> 0 resumed 7|hello
0 cat /f -> 0 hello
";

#[test]
fn commands_of_one(rt: HostRuntime) {
    let rt = (rt, Here);
    for table in [FILES, DIRECTORIES, NO_PATHS, LINKS, MOVES, ENTRIES] {
        all_end_in_town(&rt, 1, table);
    }
}

#[test]
fn commands_of_several(rt: HostRuntime) {
    let rt = (rt, Here);
    for table in [USERS, GROUPS, KEYS] {
        all_end_in_town(&rt, 3, table);
    }
}
