//! Which policies may be the base of a host's file.

ghost use Rattle.std.specs.Prelude.{◌↔◌, IsTrue};
ghost use Rattle.grants.specs.Bases.{FitsBase};

use sudo_policy::Policy;

/// The most entries of a base.
const MOST_ENTRIES: usize = 4_096;

/// The most that a base weighs.
const MOST_WEIGHT: usize = 65_536;

/// The most bytes of a base's canonical text.
const MOST_BYTES: usize = 1_048_576;

/// Whether the policy may be a base: it has at most 4,096 entries, a weight of at most 65,536, and
/// a canonical text of at most 1 MiB. It takes no memory.
pub fn fits_base(base: &Policy) -> bool
    ensures { IsTrue result ↔ FitsBase base.now }
{
    base.entries().len() <= MOST_ENTRIES
        && base.weight() <= MOST_WEIGHT
        && base.text_len() <= MOST_BYTES
}
