//! Laws of certificates, for the proofs of callers: functions that do nothing.

ghost use Rattle.std.specs.Prelude.{◌≡◌, ◌+◌, ◌&&◌, ◌||◌, not, ℕ, Bool, List, Some, None, false, take, ◌==◌};
ghost use Rattle.std.specs.List.{list_any, slice_get};
ghost use Rattle.std.specs.Ordering.{nat_cmp};
ghost use Rattle.layout.specs.Ascending.{Ascends};
ghost use Rattle.principals.specs.Table.{Table};
ghost use Rattle.update_cert.specs.Change.{Change};
ghost use Rattle.update_cert.specs.Cert.{Cert, cert};
ghost use Rattle.update_cert.specs.World.{Actor, Content, Principals, Tree, after, has_effect, void, void_from};
ghost use Rattle.update_cert.specs.World.{void_of, void_of_table};
ghost use Rattle.update_cert.specs.Reading.{Reading, after_read};
ghost use Rattle.update_cert.specs.Tables.{may_change, table_after};

/// What a certificate's changes make of the table of principals.
pub fn table_in_trees()
    // The table after them stands at its place in each tree.
    ensures stands { (reads : Reading) (actor : Actor) (c : Cert) (tree : Tree) (t : Table) → cert.Fits c
        → tree 0 1 ≡ Some (Principals t)
        → after_read reads actor c.changes tree 0 1
        ≡ Some (Principals (table_after actor.user actor.number c.changes t)) }
    // An operation that may not change it leaves it.
    ensures stays { (c : Cert) (t : Table) → may_change c ≡ false → table_after c.user c.number c.changes t ≡ t }
{}

/// Which changes of an operation have no effect.
pub fn voids_in_turn()
    // A change's number is told among those of some changes where it is one of these and has no effect, at its turn.
    ensures at_turn { (actor : Actor) (among : Change Content → Bool) (cs : List (Change Content)) (tree : Tree) (k : ℕ)
        (c : Change Content) → slice_get cs k ≡ Some c
        → list_any (λ m. m == k + 1) (void_from 1 actor among cs tree)
        ≡ (among c && not (has_effect actor c (after actor (take k cs) tree c.principal c.i_number))) }
    // All of them are those of the table and those done in the principals' parts.
    ensures joined { (actor : Actor) (cs : List (Change Content)) (tree : Tree) (k : ℕ) (c : Change Content)
        → slice_get cs k ≡ Some c
        → list_any (λ m. m == k + 1) (void actor cs tree)
        ≡ (list_any (λ m. m == k + 1) (void_of_table actor cs tree)
        || list_any (λ m. m == k + 1) (void_of actor c.principal cs tree)) }
    // They are told in order.
    ensures ascend { (actor : Actor) (among : Change Content → Bool) (cs : List (Change Content)) (tree : Tree)
        → Ascends nat_cmp (λ n. n) None (void_from 1 actor among cs tree) }
{}
