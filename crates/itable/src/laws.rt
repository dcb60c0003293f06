//! Laws of i-tables, for the proofs of callers: functions that do nothing.

ghost use Rattle.std.specs.Prelude.{◌≡◌, true};
ghost use Rattle.std.specs.Option.{option_map};
ghost use Rattle.layout.specs.Hash.{hash};
ghost use Rattle.layout.specs.Types.{INumber};
ghost use Rattle.itable.specs.Chunk.{chunk_number};
ghost use Rattle.itable.specs.ITable.{ITable, IsTable, IsWhole, KeepApart, loaded, digest_at, handle_of, listing};
ghost use Rattle.itable.specs.ITable.{text_of_chunk};

/// What is said of i-numbers that are loaded.
pub fn loaded_in_tables()
    // Of a whole table all are.
    ensures whole { (t : ITable) (i : INumber) → IsWhole t → loaded t i ≡ true }
    // The root lists their chunk by its text.
    ensures listed { (t : ITable) (i : INumber) → loaded t i ≡ true → listing t (chunk_number i)
        ≡ option_map (λ text. record { number = chunk_number i; digest = hash text })
        (text_of_chunk t (chunk_number i)) }
    // Where both are, tables of one handle have the same digest, unless texts collide.
    ensures digest { (t u : ITable) → IsTable t → IsTable u → KeepApart t u → handle_of u ≡ handle_of t
        → (i : INumber) → loaded t i ≡ true → loaded u i ≡ true → digest_at u i ≡ digest_at t i }
{}
