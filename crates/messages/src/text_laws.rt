//! Worked texts of JSON, each the contract of a function that does nothing.

ghost use Rattle.std.specs.Prelude.{codes};
ghost use Rattle.messages.specs.Canonical.{IsCanonicalText};

/// Worked texts that are canonical JSON: no space, each member once and in byte order, whole
/// numbers in plain digits.
pub fn worked_canonical_json()
    ensures empty { IsCanonicalText (codes "{}") }
    ensures number { IsCanonicalText (codes "7") }
    ensures members { IsCanonicalText (codes "{\"a\":[true,null],\"b\":7}") }
{}

/// Worked texts that are JSON (RFC 8259), but not canonical: a space, a fraction, `-0`, a member
/// that comes twice, members out of order, and an escape that is not needed.
pub fn worked_other_json()
    ensures space { ¬ IsCanonicalText (codes "{ }") }
    ensures fraction { ¬ IsCanonicalText (codes "7.0") }
    ensures minus_zero { ¬ IsCanonicalText (codes "-0") }
    ensures twice { ¬ IsCanonicalText (codes "{\"a\":7,\"a\":7}") }
    ensures order { ¬ IsCanonicalText (codes "{\"b\":7,\"a\":7}") }
    ensures escape { ¬ IsCanonicalText (codes "\"\\u0041\"") }
{}
