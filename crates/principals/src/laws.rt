//! Laws of tables, for the proofs of callers: functions that do nothing.

ghost use Rattle.std.specs.Prelude.{◌≡◌, ◌<◌, ◌≤◌, ℕ, List, filter, length};
ghost use Rattle.principals.specs.Table.{Table, genesis, is_open, is_member, is_member_now, key_at};
ghost use Rattle.principals.specs.TableText.{table as table_format};
ghost use Rattle.principals.specs.Line.{Step, InOrder, after_step, after_line, up_to};

/// Membership at each version, in tables that come about by changes of one line.
pub fn membership()
    // Who is a member at a version is who was one after user 0's operations up to it.
    ensures at_version { (key : List ℕ) (line : List Step) (group user version : ℕ) → InOrder 0 line
        → is_member (after_line line (genesis key)) group user version
        ≡ is_member_now (after_line (up_to version line) (genesis key)) group user }
    // A later operation changes no membership at an earlier version.
    ensures earlier_stay { (step : Step) (table : Table) (group user version : ℕ) → version < step.number
        → is_member (after_step step table) group user version ≡ is_member table group user version }
{}

/// A user's key at each number of user 0's.
pub fn keys()
    // A later operation changes no key at an earlier number.
    ensures earlier_stay { (step : Step) (table : Table) (user version : ℕ) → version < step.number
        → key_at user version (after_step step table) ≡ key_at user version table }
{}

/// What a text of a table says of its rows.
pub fn open_rows()
    // No group and user have two open rows.
    ensures one { (table : Table) → table_format.Fits table → (group user : ℕ)
        → length (filter (is_open group user) table.rows) ≤ 1 }
{}
