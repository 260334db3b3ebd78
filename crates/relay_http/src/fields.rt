//! The Host fields of a head.

ghost use Rattle.std.specs.Prelude.{◌≡◌, ℕ, List};
ghost use Rattle.relay_http.specs.Fields.{is_bad_host};
ghost use Rattle.relay_http.specs.Seen.{AreValues};

use crate::values::Values;

/// Whether a head of HTTP/1.1 has no Host field, or any head has more than one.
pub fn is_bad_host(minor: u8, hosts: Values<'_>) -> bool
    ensures { (vs : List (List ℕ)) → AreValues hosts.entry vs → result ≡ is_bad_host minor vs }
{
    match hosts {
        Values::Nothing => minor == 1,
        Values::One(_) => false,
        Values::Many => true,
    }
}
