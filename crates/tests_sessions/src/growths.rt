//! Growths of a put are refused in turn, one a run: all of that of an empty file, and of that of the largest one those
//! outside of the loops over its blocks, and those of the first two blocks and of the last one. Which these are is told
//! by what was sent before and after, and by a file of few blocks.

use crate::files::blocks_of;
use crate::here::Here;
use crate::largest::{DONE, EVERY, File, Host, TOO_LARGE, Went, file_of, run};
use crate::served::{Heap, Sent, Whose};
use layout::put_in;
use lms_sign::PrivateKey;
use std::env;
use tests_aids::{Aided, check, check_text, given};
use tests_refusing::Refusing;
use wire::RequestKind;

/// So many blocks has the largest file, and so many one of few, which still has all that a loop over blocks does.
const MOST: u16 = 1024;

const FEW: u16 = 4;

/// The largest file has 256 times as many blocks as one of few. So a list that doubles its room as it grows does so at
/// most nine times more, and two lists grow before the first block is copied.
const DOUBLINGS: u64 = 18;

/// Eight blocks whose digests are computed side by side have at most so many growths, and so have two that are copied.
const OF_EIGHT: u64 = 8;

/// Growths one after another, by their numbers: from the first to the last one.
#[derive(Clone, Copy)]
struct Stretch {
    first: u64,
    last: u64,
}

impl Stretch {
    /// How many growths it has.
    fn length(self) -> u64 {
        self.last.saturating_sub(self.first).saturating_add(1)
    }
}

/// User 0's one key, and the file that is put.
#[derive(Drop)]
struct Tries<'h> {
    heap: Heap<'h>,
    keys: Vec<PrivateKey<Heap<'h>>>,
    file: File,
}

/// A put of which no growth is refused.
#[derive(Drop)]
struct Whole {
    sent: Vec<Sent>,
    growths: u64,
    /// The places, among the requests, of the first and of the last PUT of the file's texts, and of the UPDATE after them.
    first: usize,
    last: usize,
    update: usize,
}

/// A part of a put.
#[derive(Clone, Copy)]
enum Part {
    /// User 0 looks.
    Looked,
    /// The file is laid out: what comes before its blocks, and the first two of them.
    Laid,
    /// The last of them, and what comes after it.
    Listed,
    /// Its texts are stored.
    Stored,
    /// They go into the client's cache, and the operation is declared.
    Declared,
    /// It is placed and judged.
    Judged,
    /// Its own texts are stored, and it is signed and committed.
    Signed,
}

/// Which of the numbers of a part a test tries, so that each takes little time: of so many shares the one of a place.
#[derive(Clone, Copy)]
struct Share {
    place: usize,
    of: usize,
}

/// How many refused growths were told, by `memory`, by `declined 9` and by `cut`; and with how many the file was put all
/// the same: of the client, its session or its transport, and of the server.
type Told = [u32; 5];

/// What is answered where a growth is refused and that is told.
fn answer_of(whose: Whose) -> &'static [u8] {
    match whose {
        Whose::Nobodys => DONE,
        Whose::Asking => b"memory\n",
        Whose::Replying => b"declined 9\n",
        Whose::Ending => b"cut\n",
    }
}

/// Where a refused growth is counted that is told or not.
fn place_of(whose: Whose, is_told: bool) -> Option<usize> {
    match (whose, is_told) {
        (Whose::Asking, true) => Some(0),
        (Whose::Replying, true) => Some(1),
        (Whose::Ending, true) => Some(2),
        (Whose::Asking, false) => Some(3),
        (Whose::Replying, false) => Some(4),
        (Whose::Nobodys, _) | (Whose::Ending, false) => None,
    }
}

/// Counts what came of a refused growth. Where that isn't told the file is put all the same.
fn count(rt: &impl Aided, told: &mut Told, number: u64, went: &Went) {
    let is_told = went.answer.as_slice() == answer_of(went.whose);
    if !is_told {
        check_text(rt, &went.answer, DONE);
    }
    let Some(place) = place_of(went.whose, is_told) else {
        rt.fail(format_args!("growth {number}: {:?}", went.whose));
    };
    let told = &mut told[..];
    if let Some(count) = told.get_mut(place) {
        *count = count.wrapping_add(1);
    }
}

impl<'h> Tries<'h> {
    /// A file of so many blocks is put.
    fn new(rt: &impl Aided, heap: Heap<'h>, blocks: u16) -> Tries<'h> {
        let mut keys = Vec::new(rt.alloc());
        let key = PrivateKey::from_seed(heap, [0; 32], [0; 16]);
        given(rt, keys.push(given(rt, key, "memory")), "memory");
        let file = file_of(rt, blocks_of(rt, blocks));
        Tries { heap, keys, file }
    }

    /// The file has one byte more.
    fn add_byte(&mut self, rt: &impl Aided) {
        let mut bytes = blocks_of(rt, MOST);
        given(rt, bytes.push(0), "memory");
        put_in(&mut self.file, file_of(rt, bytes));
    }

    /// Puts the file while the growth of a number is refused.
    fn put<R: Host>(&mut self, rt: &R, number: u64) -> Went {
        run(rt, self.heap, &mut self.keys, &self.file, number)
    }

    /// Puts it while none is, and another one of so many blocks.
    fn put_other<R: Host>(&mut self, rt: &R, blocks: u16) -> Went {
        let host = &(rt, Here);
        let file = file_of(host, blocks_of(host, blocks));
        run(rt, self.heap, &mut self.keys, &file, 0)
    }
}

/// The places of the first and of the last PUT of the longest row of them, of equal rows the first.
fn longest_row(sent: &[Sent]) -> (usize, usize) {
    let (mut row, mut longest, mut last) = (0usize, 0usize, 0usize);
    for (place, sent) in sent.iter().enumerate() {
        if sent.kind == RequestKind::Put {
            row = row.wrapping_add(1);
        } else {
            row = 0;
        }
        if row > longest {
            (longest, last) = (row, place);
        }
    }
    (last.wrapping_add(1).wrapping_sub(longest), last)
}

impl Whole {
    /// A put of a file of so many blocks: its i-node and they are stored one after another.
    fn of(rt: &impl Aided, went: Went, blocks: u16) -> Whole {
        let Went {
            answer,
            growths,
            sent,
            ..
        } = went;
        check_text(rt, &answer, DONE);
        let (first, last) = longest_row(&sent);
        let is_row = last.wrapping_sub(first) == usize::from(blocks);
        check(rt, is_row && first > 0, "its i-node and its blocks");
        let later = sent.iter().skip(last);
        let between = later.take_while(|sent| sent.kind != RequestKind::Update);
        let update = last.wrapping_add(between.count());
        Whole {
            sent,
            growths,
            first,
            last,
            update,
        }
    }

    /// How many growths there are before the request of a place is sent, or all.
    fn before(&self, place: usize) -> u64 {
        match self.sent.get(place) {
            Some(sent) => sent.growths,
            None => self.growths,
        }
    }

    /// The growths between the request of a place and the next one.
    fn after(&self, place: usize) -> Stretch {
        Stretch {
            first: self.before(place).wrapping_add(1),
            last: self.before(place.wrapping_add(1)),
        }
    }

    /// The growths between the last request of the look and the first of the file.
    fn laying(&self) -> Stretch {
        self.after(self.first.wrapping_sub(1))
    }

    /// The growths between the request that the file's texts are synced and the certificate.
    fn declaring(&self) -> Stretch {
        self.after(self.update.wrapping_sub(1))
    }

    /// The growths between the certificate that is sent next and what is stored then.
    fn judging(&self) -> Stretch {
        let later = self.sent.iter().skip(self.update);
        let until = later.take_while(|sent| sent.kind != RequestKind::Put);
        let end = self.update.wrapping_add(until.count());
        Stretch {
            first: self.before(self.update).wrapping_add(1),
            last: self.before(end),
        }
    }
}

/// Puts the numbers of a stretch behind others.
fn push_all(rt: &impl Aided, numbers: &mut Vec<u64>, stretch: Stretch) {
    for number in stretch.first..=stretch.last {
        given(rt, numbers.push(number), "memory");
    }
}

/// Puts those in front of a stretch behind others: up to the first two blocks of its first loop over blocks. They are as
/// near to its front as where a file of few blocks has this stretch, but for lists that double more often.
fn push_front(rt: &impl Aided, numbers: &mut Vec<u64>, stretch: Stretch, few: Stretch) {
    let first = stretch.first;
    let count = few.length().saturating_add(DOUBLINGS);
    let last = first.saturating_add(count).min(stretch.last);
    push_all(rt, numbers, Stretch { first, last });
}

/// Puts those at the end of a stretch behind others: from the last block of its last loop over blocks on.
fn push_back(rt: &impl Aided, numbers: &mut Vec<u64>, stretch: Stretch, few: Stretch) {
    let last = stretch.last;
    let first = last.saturating_sub(few.length()).max(stretch.first);
    push_all(rt, numbers, Stretch { first, last });
}

/// Puts those around another one behind others.
fn push_around(rt: &impl Aided, numbers: &mut Vec<u64>, number: u64) {
    let first = number.saturating_sub(OF_EIGHT);
    let last = number.saturating_add(OF_EIGHT);
    push_all(rt, numbers, Stretch { first, last });
}

/// The growth with which the copies of the file's texts for the cache begin, found by halving. Before it their digests
/// are computed: where memory runs out for these no text is copied, which has a growth at least for each block.
fn first_copy<R: Host>(rt: &R, tries: &mut Tries<'_>, whole: &Whole, few: &Whole) -> u64 {
    let (stretch, few) = (whole.declaring(), few.declaring());
    let mut low = stretch.first;
    let mut high = stretch.last.saturating_sub(few.length());
    for _halving in 0..64u8 {
        let middle = low.saturating_add(high.saturating_sub(low) / 2);
        if middle == low {
            break;
        }
        let growths = tries.put(rt, middle).growths;
        if growths.saturating_add(u64::from(MOST)) > whole.growths {
            high = middle;
        } else {
            low = middle;
        }
    }
    let went = tries.put(rt, low);
    check_text(&(rt, Here), &went.answer, DONE);
    high
}

/// Puts those behind others of the exchanges that store the i-node, the first two blocks, and the last two. What comes
/// after it was asked that they are synced isn't among them.
fn push_stored(rt: &impl Aided, numbers: &mut Vec<u64>, whole: &Whole) {
    for place in whole.first..whole.update.saturating_sub(1) {
        let is_early = place <= whole.first.saturating_add(2);
        if is_early || place.saturating_add(1) >= whole.last {
            push_all(rt, numbers, whole.after(place));
        }
    }
}

/// The numbers that are tried of a part.
fn numbers_of<R: Host>(
    rt: &R,
    tries: &mut Tries<'_>,
    part: Part,
    whole: &Whole,
    few: &Whole,
) -> Vec<u64> {
    let host = &(rt, Here);
    let mut numbers = Vec::new(rt.alloc());
    let all = &mut numbers;
    match part {
        Part::Looked => {
            let last = whole.laying().first.saturating_sub(1);
            push_all(host, all, Stretch { first: 1, last });
        }
        Part::Laid => push_front(host, all, whole.laying(), few.laying()),
        Part::Listed => push_back(host, all, whole.laying(), few.laying()),
        Part::Stored => push_stored(host, all, whole),
        Part::Declared => {
            let (stretch, few_stretch) = (whole.declaring(), few.declaring());
            push_front(host, all, stretch, few_stretch);
            push_around(host, all, first_copy(rt, tries, whole, few));
            push_back(host, all, stretch, few_stretch);
        }
        Part::Judged => push_all(host, all, whole.judging()),
        Part::Signed => {
            let first = whole.judging().last.saturating_add(1);
            let last = whole.growths;
            push_all(host, all, Stretch { first, last });
        }
    }
    numbers
}

/// Refuses the growths of these numbers in turn.
fn sweep<R: Host>(rt: &R, tries: &mut Tries<'_>, numbers: &[u64]) -> Told {
    let mut told = [0; 5];
    for number in numbers {
        let went = tries.put(rt, *number);
        count(&(rt, Here), &mut told, *number, &went);
    }
    told
}

/// There are so many growths, of which so many are tried, and this is told of them.
fn comes_to(rt: &impl Aided, found: (u64, usize, Told), wanted: (u64, usize, Told)) {
    if found != wanted {
        rt.fail(format_args!("{found:?}"));
    }
}

/// Those of these numbers that a test tries.
fn share_of(numbers: &[u64], share: Share) -> &[u64] {
    let size = numbers.len().div_ceil(share.of.max(1)).max(1);
    numbers.chunks(size).nth(share.place).unwrap_or(&[])
}

/// Tries what is to be tried of a part of a put of the largest file, or a share of it. A put has so many growths in all.
fn tries_part<R: Host>(
    rt: &R,
    part: Part,
    (place, of): (usize, usize),
    wanted: (u64, usize, Told),
) {
    let host = &(rt, Here);
    let heap = Refusing::new(rt.alloc());
    let mut tries = Tries::new(host, &heap, MOST);
    let whole = Whole::of(host, tries.put(rt, 0), MOST);
    let few = Whole::of(host, tries.put_other(rt, FEW), FEW);
    let numbers = numbers_of(rt, &mut tries, part, &whole, &few);
    let numbers = share_of(&numbers, Share { place, of });
    let told = sweep(rt, &mut tries, numbers);
    comes_to(host, (whole.growths, numbers.len(), told), wanted);
}

/// So many growths has a put of the largest file.
const ALL: u64 = 14_483;

#[test]
fn each_growth_refused_largest_looked(rt: HostRuntime) {
    tries_part(&rt, Part::Looked, (0, 3), (ALL, 39, [21, 13, 5, 0, 0]));
}

#[test]
fn each_growth_refused_largest_looked_2(rt: HostRuntime) {
    tries_part(&rt, Part::Looked, (1, 3), (ALL, 39, [39, 0, 0, 0, 0]));
}

#[test]
fn each_growth_refused_largest_looked_3(rt: HostRuntime) {
    tries_part(&rt, Part::Looked, (2, 3), (ALL, 37, [37, 0, 0, 0, 0]));
}

#[test]
fn each_growth_refused_largest_laid(rt: HostRuntime) {
    tries_part(&rt, Part::Laid, (0, 4), (ALL, 35, [22, 9, 4, 0, 0]));
}

#[test]
fn each_growth_refused_largest_laid_2(rt: HostRuntime) {
    tries_part(&rt, Part::Laid, (1, 4), (ALL, 35, [35, 0, 0, 0, 0]));
}

#[test]
fn each_growth_refused_largest_laid_3(rt: HostRuntime) {
    tries_part(&rt, Part::Laid, (2, 4), (ALL, 35, [35, 0, 0, 0, 0]));
}

#[test]
fn each_growth_refused_largest_laid_4(rt: HostRuntime) {
    tries_part(&rt, Part::Laid, (3, 4), (ALL, 32, [32, 0, 0, 0, 0]));
}

#[test]
fn each_growth_refused_largest_listed(rt: HostRuntime) {
    tries_part(&rt, Part::Listed, (0, 5), (ALL, 24, [24, 0, 0, 0, 0]));
}

#[test]
fn each_growth_refused_largest_listed_2(rt: HostRuntime) {
    tries_part(&rt, Part::Listed, (1, 5), (ALL, 24, [24, 0, 0, 0, 0]));
}

#[test]
fn each_growth_refused_largest_listed_3(rt: HostRuntime) {
    tries_part(&rt, Part::Listed, (2, 5), (ALL, 24, [24, 0, 0, 0, 0]));
}

#[test]
fn each_growth_refused_largest_listed_4(rt: HostRuntime) {
    tries_part(&rt, Part::Listed, (3, 5), (ALL, 24, [24, 0, 0, 0, 0]));
}

#[test]
fn each_growth_refused_largest_listed_5(rt: HostRuntime) {
    tries_part(&rt, Part::Listed, (4, 5), (ALL, 23, [23, 0, 0, 0, 0]));
}

/// The numbers of the growths that are tried in a run of its own, where the environment names the first and the last.
fn asked_for(rt: &HostRuntime) -> Option<Stretch> {
    let text = env::var(rt, "GROWTHS").ok()?;
    let (first, last) = text.split_once('-')?;
    let (first, last) = (first.parse().ok()?, last.parse().ok()?);
    Some(Stretch { first, last })
}

/// Tries all growths of a stretch of a put of the largest file, and prints what comes of them.
fn tries_stretch<R: Host + Eprint>(rt: &R, stretch: Stretch) {
    let host = &(rt, Here);
    let heap = Refusing::new(rt.alloc());
    let mut tries = Tries::new(host, &heap, MOST);
    let growths = tries.put(rt, 0).growths;
    let mut numbers = Vec::new(rt.alloc());
    let last = stretch.last.min(growths);
    push_all(host, &mut numbers, Stretch { last, ..stretch });
    let told = sweep(rt, &mut tries, &numbers);
    let tried = numbers.len();
    let printed = eprintln!(rt; "{growths} growths, {tried} tried: {told:?}");
    given(host, printed, "it is printed");
}

/// Where the environment names numbers, those are tried in the place of the ones of this part.
#[test]
fn each_growth_refused_largest_stored(rt: HostRuntime) {
    match asked_for(&rt) {
        Some(stretch) => tries_stretch(&rt, stretch),
        None => tries_part(&rt, Part::Stored, (0, 1), (ALL, 53, [14, 12, 27, 0, 0])),
    }
}

#[test]
fn each_growth_refused_largest_declared(rt: HostRuntime) {
    tries_part(&rt, Part::Declared, (0, 4), (ALL, 29, [16, 0, 4, 9, 0]));
}

#[test]
fn each_growth_refused_largest_declared_2(rt: HostRuntime) {
    tries_part(&rt, Part::Declared, (1, 4), (ALL, 29, [0, 0, 0, 29, 0]));
}

#[test]
fn each_growth_refused_largest_declared_3(rt: HostRuntime) {
    tries_part(&rt, Part::Declared, (2, 4), (ALL, 29, [0, 0, 0, 29, 0]));
}

#[test]
fn each_growth_refused_largest_declared_4(rt: HostRuntime) {
    tries_part(&rt, Part::Declared, (3, 4), (ALL, 26, [2, 0, 0, 24, 0]));
}

#[test]
fn each_growth_refused_largest_judged(rt: HostRuntime) {
    tries_part(&rt, Part::Judged, (0, 6), (ALL, 26, [6, 15, 5, 0, 0]));
}

#[test]
fn each_growth_refused_largest_judged_2(rt: HostRuntime) {
    tries_part(&rt, Part::Judged, (1, 6), (ALL, 26, [26, 0, 0, 0, 0]));
}

#[test]
fn each_growth_refused_largest_judged_3(rt: HostRuntime) {
    tries_part(&rt, Part::Judged, (2, 6), (ALL, 26, [26, 0, 0, 0, 0]));
}

#[test]
fn each_growth_refused_largest_judged_4(rt: HostRuntime) {
    tries_part(&rt, Part::Judged, (3, 6), (ALL, 26, [26, 0, 0, 0, 0]));
}

#[test]
fn each_growth_refused_largest_judged_5(rt: HostRuntime) {
    tries_part(&rt, Part::Judged, (4, 6), (ALL, 26, [26, 0, 0, 0, 0]));
}

#[test]
fn each_growth_refused_largest_judged_6(rt: HostRuntime) {
    tries_part(&rt, Part::Judged, (5, 6), (ALL, 24, [24, 0, 0, 0, 0]));
}

#[test]
fn each_growth_refused_largest_signed(rt: HostRuntime) {
    tries_part(&rt, Part::Signed, (0, 2), (ALL, 38, [9, 9, 20, 0, 0]));
}

#[test]
fn each_growth_refused_largest_signed_2(rt: HostRuntime) {
    tries_part(&rt, Part::Signed, (1, 2), (ALL, 37, [21, 8, 8, 0, 0]));
}

/// Tries all growths of a put of a file without bytes.
#[test]
fn each_growth_refused_empty(rt: HostRuntime) {
    let host = &(&rt, Here);
    let heap = Refusing::new(rt.alloc());
    let mut tries = Tries::new(host, &heap, 0);
    let growths = tries.put(&rt, 0).growths;
    let mut numbers = Vec::new(rt.alloc());
    let (first, last) = (1, growths);
    push_all(host, &mut numbers, Stretch { first, last });
    let told = sweep(&rt, &mut tries, &numbers);
    let wanted = (491, 491, [376, 57, 51, 7, 0]);
    comes_to(host, (growths, numbers.len(), told), wanted);
}

/// One byte more than the largest file has: that is told at once, and takes no memory. Nothing is sent.
#[test]
fn too_large_takes_no_memory(rt: HostRuntime) {
    let host = &(&rt, Here);
    let heap = Refusing::new(rt.alloc());
    let mut tries = Tries::new(host, &heap, MOST);
    tries.add_byte(host);
    let went = tries.put(&rt, EVERY);
    check_text(host, &went.answer, TOO_LARGE);
    check(host, went.sent.is_empty(), "nothing is sent");
}
