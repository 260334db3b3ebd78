//! Laws about what a crash leaves and what a database keeps, each the contract of a function that
//! does nothing.

ghost use Rattle.std.specs.Prelude.{◌≡◌, ℕ, List, IsUtf8};
ghost use Rattle.sqlite.specs.Effect.{Database};
ghost use Rattle.store_tables.specs.Kept.{HoldsText};
ghost use Rattle.store_tables.specs.Stored.{content_of};
ghost use Rattle.store_schema.specs.Shapes.{IsVacant};
ghost use Rattle.store_opening.specs.Opened.{IsKept, IsOldDesk};
ghost use Rattle.desk_store.specs.Crash.{IsFound};
ghost use Rattle.desk_store.specs.Left.{IsFoundAs, Left as AnyLeft};

/// What a look at a database finds is what a keeper over it keeps: no part of a desk, the whole
/// desk, one of an older form, or something that is not a desk.
pub fn found_is_kept()
    ensures { (db : Database) (left : AnyLeft) → IsFound db left → IsFoundAs (IsVacant db.schema)
        (IsKept db) (IsOldDesk db) (content_of db).roster (HoldsText db) left }
{}

/// There is a database of a desk, of each roster's text: what is said of databases that keep a desk
/// is said of something.
pub fn some_desk()
    ensures { (roster : List ℕ) → IsUtf8 roster
        → (db : Database) × IsKept db × ((content_of db).roster ≡ roster) }
{}
