//! The tables that a desk has, or had.

ghost use Rattle.std.specs.Prelude.{◌≡◌};
ghost use Rattle.store_schema.specs.Parts.{part_name};

/// One of a desk's tables. An older desk has `Marks` where one of today has `Verdicts`.
#[derive(Clone, Copy, Debug, PartialEq, Eq)]
pub enum DeskPart {
    Desk,
    Messages,
    Names,
    Marks,
    Verdicts,
    Parked,
}

/// The table's name.
pub(crate) fn part_name(part: DeskPart) -> &'static [u8]
    ensures { result.now ≡ part_name part }
{
    match part {
        DeskPart::Desk => b"desk",
        DeskPart::Messages => b"messages",
        DeskPart::Names => b"names",
        DeskPart::Marks => b"marks",
        DeskPart::Verdicts => b"verdicts",
        DeskPart::Parked => b"parked",
    }
}
