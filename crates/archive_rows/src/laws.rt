//! The law of a desk's rows, the contract of a function that does nothing.

ghost use Rattle.std.specs.Prelude.{ℕ, List, Contains};
ghost use Rattle.sqlite.specs.Order.{Row};
ghost use Rattle.messages.specs.declared.message.Message.{Message};
ghost use Rattle.store_tables.specs.Rows.{AreRows, IsRow};
ghost use Rattle.archive.specs.Archive.{IsCut};
ghost use Rattle.archive_rows.specs.RowsLeft.{AreLeft};

/// Whoever cuts a desk takes the archived verdicts' texts from `messages` and their rows from
/// `verdicts`, and leaves `names` and `parked` as they are: then the tables have the rows of what
/// is kept.
pub fn cut_takes_rows_of_verdicts()
    ensures { (set kept : List Message) (moment : ℕ) (names verdicts left parked : List Row)
        → IsCut set moment kept → AreRows (λ m. Contains set m)
        (IsRow names) (IsRow verdicts) (IsRow parked) → AreLeft set moment verdicts left
        → AreRows (λ m. Contains kept m) (IsRow names) (IsRow left) (IsRow parked) }
{}
