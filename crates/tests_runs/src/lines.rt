//! Whether a run's answers tell of its accepted views what plain worlds tell of the lines that were meant: of all of a
//! view, or of one user's part.

use crate::answers::{count_views, fields_of, view_in};
use crate::plain_world::{Link, Operation, Place, ROOT, World};
use crate::premises::Ran;
use layout::put_in;
use lms_sign::PublicKey;
use tests_aids::{Host, found};

/// What is set beside plain worlds.
#[derive(Clone, Copy)]
pub(crate) enum Scope {
    /// All that is told of a view.
    View,
    /// What is told of this user's part, and of user 0's the table of principals.
    Part(u8),
}

impl Scope {
    /// Whether this place is in it.
    fn has(&self, place: Place) -> bool {
        match self {
            Scope::View => true,
            Scope::Part(owner) => place.principal == *owner,
        }
    }
}

/// The world of a line, and what its last operation lost.
fn world_of(rt: &impl Host, operations: &[Operation], line: &[u8]) -> (World, Vec<u8>) {
    let mut world = World::new(rt);
    let mut lost = Vec::new(rt.alloc());
    for letter in line {
        let place = usize::from(letter.wrapping_sub(b'A'));
        let operation = found(rt, operations.get(place), "an operation");
        put_in(&mut lost, world.operate(rt, operation));
    }
    (world, lost)
}

/// Whether a directory of these entries has this one.
fn has_link(entries: &[&[u8]], link: &Link) -> bool {
    let Place { principal, number } = link.target;
    for entry in entries {
        if let [owner, 0, at, name @ ..] = *entry
            && *owner == principal
            && *at == number
            && name == link.name.as_slice()
        {
            return true;
        }
    }
    false
}

/// Whether a directory of these entries has these, and no others.
fn has_links(rt: &impl Host, entries: &[u8], links: &[Link]) -> bool {
    let entries = fields_of(rt, entries);
    for link in links {
        if !has_link(&entries, link) {
            return false;
        }
    }
    entries.len() == links.len()
}

/// Whether what is told of a view, if it is of one, is this world, and what its last operation lost.
fn tells(
    rt: &impl Host,
    scope: &Scope,
    (world, lost): &(World, Vec<u8>),
    keys: &[PublicKey],
    told: &[u8],
) -> bool {
    let Some(view) = view_in(rt, told) else {
        return false;
    };
    let is_table = view.table == world.table_text(rt, keys).as_slice();
    match scope {
        Scope::View => is_table && view.lost == lost.as_slice(),
        Scope::Part(0) => is_table,
        Scope::Part(_) => true,
    }
}

/// Whether this is what stands in the world at a place.
fn shows(rt: &impl Host, world: &World, keys: &[PublicKey], place: Place, told: &[u8]) -> bool {
    match told {
        [b'F', bytes @ ..] => world.has_file(rt, keys, place, bytes),
        [b'D', entries @ ..] => place == ROOT && has_links(rt, entries, world.links()),
        b"0" => !world.stands(place),
        _ => false,
    }
}

/// Where the look of this row begins, if it begins one.
fn place_in(row: &[u8]) -> Option<Place> {
    match row {
        [_, _, _, b'v', principal, number] => Some(Place {
            principal: *principal,
            number: *number,
        }),
        _ => None,
    }
}

/// Where the look began that is under way in the last of these rows.
fn last_place(rows: &[Vec<u8>]) -> Place {
    let mut place = ROOT;
    for row in rows {
        place = place_in(row).unwrap_or(place);
    }
    place
}

/// The line of the last view of this user among these answers.
fn last_line(rt: &impl Host, ran: Ran<'_>, user: u8, lines: &[&'static [u8]]) -> &'static [u8] {
    let mut line: &'static [u8] = b"";
    let mut views = 0usize;
    for (row, told) in ran.rows.iter().zip(ran.told) {
        if told.first() == Some(&b's') {
            if row.first() == Some(&user) {
                let own = found(rt, lines.get(views), "a line");
                line = *own;
            }
            views = views.wrapping_add(1);
        }
    }
    line
}

/// Whether a look ended with this answer.
fn ends_look(told: &[u8]) -> bool {
    matches!(told.first(), Some(b'F' | b'D' | b'0'))
}

/// Whether the last of these answers, if it tells of a view or of a look in the scope that ended, is that of the world
/// of its line.
fn is_last_so(
    rt: &impl Host,
    ran: Ran<'_>,
    scope: &Scope,
    operations: &[Operation],
    lines: &[&'static [u8]],
) -> bool {
    let (row, told) = (
        found(rt, ran.rows.last(), "a row"),
        found(rt, ran.told.last(), "one"),
    );
    let user = *found(rt, row.first(), "a user");
    let world = world_of(rt, operations, last_line(rt, ran, user, lines));
    if told.first() == Some(&b's') {
        tells(rt, scope, &world, ran.keys, told)
    } else if ends_look(told) && scope.has(last_place(ran.rows)) {
        shows(rt, &world.0, ran.keys, last_place(ran.rows), told)
    } else {
        true
    }
}

/// The first rows and answers of the run, up to this place.
fn beginning_of<'a>(rt: &impl Host, ran: Ran<'a>, at: usize) -> Ran<'a> {
    Ran {
        rows: found(rt, ran.rows.get(..=at), "rows"),
        told: found(rt, ran.told.get(..=at), "answers"),
        keys: ran.keys,
    }
}

/// How many looks in the scope were answered, where each answer, and what is told of each view, is that of the world of
/// its line of these operations; else the place of the first answer that isn't. A line is told by letters, A for the
/// first operation, and the lines are those of the accepted views in their order.
pub(crate) fn looks_into_worlds(
    rt: &impl Host,
    ran: Ran<'_>,
    scope: &Scope,
    operations: &[Operation],
    lines: &[&'static [u8]],
) -> Result<usize, usize> {
    for (at, _) in ran.rows.iter().enumerate() {
        let so_far = beginning_of(rt, ran, at);
        if !is_last_so(rt, so_far, scope, operations, lines) {
            return Err(at);
        }
    }
    if count_views(ran.told) < lines.len() {
        return Err(ran.rows.len());
    }
    Ok(count_looks(rt, ran, scope))
}

/// How many looks in the scope ended.
fn count_looks(rt: &impl Host, ran: Ran<'_>, scope: &Scope) -> usize {
    let mut looks = 0usize;
    for (at, told) in ran.told.iter().enumerate() {
        if ends_look(told) && scope.has(last_place(beginning_of(rt, ran, at).rows)) {
            looks = looks.wrapping_add(1);
        }
    }
    looks
}
