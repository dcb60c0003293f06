//! The entries of a directory, with what stands at each.

ghost use Rattle.std.specs.Prelude.{◌≡◌, ◌∷◌, ◌++◌, [], IfOk, IsSome, Option};
ghost use Rattle.update_cert.specs.World.{Content};
ghost use Rattle.client_steps.specs.Anywhere.{on_ok};
ghost use Rattle.client_tree.specs.Questions.{IsKindOf};
ghost use Rattle.commands.specs.Asked.{at_end, kind_of, tells_rows};
ghost use Rattle.commands.specs.Paths.{path_of};
ghost use Rattle.file_session.specs.Order.{Ready, ready_or};
ghost use Rattle.file_session.specs.Parts.{Planned, RowsLooked};
ghost use Rattle.file_session.specs.Went.{point};
ghost use Rattle.file_session.specs.declared.planning.Plan.TheVariants.{Tells as TellsAnswer};

use crate::conversation::Conversation;
use crate::stop::Stop;
use client_verify::SeenKind;
use commands::{Answer, Kind, Refusal, Row};
use directory::Entry;
use layout::{Memory, let_go};
use leaf_ledger::Device;
use std::alloc::Allocator;
use transport::Transport;

/// Of what kind is what stands there, as a row tells it.
fn kind_of(seen: SeenKind) -> Kind
    ensures { (content : Option Content) → IsKindOf seen content → result ≡ kind_of content }
{
    match seen {
        SeenKind::Nothing => Kind::Nothing,
        SeenKind::File(size) => Kind::File(size),
        SeenKind::Directory(_) => Kind::Directory,
    }
}

/// An entry in memory of its own, with what stands there.
fn row<A: Allocator>(alloc: A, entry: &Entry<A>, kind: Kind) -> Result<Row<A>, Memory>
    ensures { IfOk result (λ row. row ≡ record { entry = entry.now; kind = kind }) }
{
    let copy = Entry::new(alloc, entry.name().as_str(), entry.target())?;
    Ok(Row::new(copy, kind))
}

/// These rows, and one more, with memory of its own.
fn add<A: Allocator + Copy>(
    alloc: A,
    rows: &mut Vec<Row<A>, A>,
    entry: &Entry<A>,
    kind: Kind,
) -> Result<(), Memory>
    ensures { IfOk result (λ _. rows.new.items ≡ rows.old.items ++ (record { entry = entry.now; kind = kind }) ∷ []) }
{
    rows.push(row(alloc, entry, kind)?)?;
    Ok(())
}

impl<L: Device, J: Device, T: Transport<A>, A: Allocator + Copy> Conversation<L, J, T, A> {
    /// These entries, with what stands at each.
    fn rows(&mut self, entries: &[Entry<A>]) -> Result<Vec<Row<A>, A>, Stop>
        requires { IsSome self.old.client.view }
        ensures looked { RowsLooked T.answers (point self.old.client self.old.transport (Ready []))
            (point self.new.client self.new.transport (ready_or result)) entries.now result }
        ensures phase { self.new.client.phase ≡ self.old.client.phase }
    {
        let mut rows = Vec::new(self.alloc);
        for entry in entries {
            let target = entry.target();
            match self.kind(&target) {
                Ok(kind) => {
                    if let Err(Memory) = add(self.alloc, &mut rows, entry, kind_of(kind)) {
                        let_go(rows);
                        return Err(Stop::Memory);
                    }
                }
                Err(stop) => {
                    let_go(rows);
                    return Err(stop);
                }
            }
        }
        Ok(rows)
    }

    /// The entries of the directory at the end of a path, with what stands at each.
    pub(crate) fn detail(&mut self, path: &str) -> Result<Answer<A>, Stop>
        requires { IsSome self.old.client.view }
        ensures planned { Planned T.answers (point self.old.client self.old.transport (Ready []))
            (point self.new.client self.new.transport (ready_or result))
            (λ tree. at_end tree (tells_rows tree) (path_of path.now)) (on_ok TellsAnswer result) }
        ensures phase { self.new.client.phase ≡ self.old.client.phase }
    {
        let Some(end) = self.end(path)? else {
            return Ok(Answer::Refused(Refusal::NoPath));
        };
        let Some(directory) = self.directory(&end)? else {
            return Ok(Answer::Refused(Refusal::NoPath));
        };
        let rows = self.rows(directory.entries());
        let_go(directory);
        match rows {
            Ok(rows) => Ok(Answer::Details(rows)),
            Err(stop) => Err(stop),
        }
    }
}
