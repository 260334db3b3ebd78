//! Laws of the texts of moments, each the contract of a function that does nothing.

ghost use Rattle.std.specs.Prelude.{◌≡◌, ◌++◌, ℕ, List, codes, length};
ghost use Rattle.sudo_words.specs.Moment.{IsMoment, IsStamp, SpellsMoment, stamp};

/// No text spells two moments.
pub fn one_moment()
    ensures { (text : List ℕ) (s t : ℕ) → SpellsMoment text s → SpellsMoment text t → s ≡ t }
{}

/// What a moment prints is its canonical text, the only one, and has 15 bytes.
pub fn stamp_is_stamp()
    ensures stamp { (t : ℕ) → IsMoment t → IsStamp (stamp t) t }
    ensures only { (text : List ℕ) (t : ℕ) → IsStamp text t → text ≡ stamp t }
    ensures length { (t : ℕ) → length (stamp t) ≡ 15 }
{}

/// The canonical text spells its moment, and is the only spelling of 15 bytes that ends in `Z`.
pub fn stamp_spells()
    ensures spells { (text : List ℕ) (t : ℕ) → IsStamp text t → SpellsMoment text t }
    ensures only { (text front : List ℕ) (t : ℕ) → SpellsMoment text t
        → length text ≡ 15 → text ≡ front ++ codes "Z" → IsStamp text t }
{}

/// Times by clocks ahead of UTC and behind it. Two are 09:00:00 UTC, one is the first moment, by a
/// date before it, and two are the last. The rest spell no moment: they lie before the first or
/// past the last, or their offset is 24 hours, or is in hours alone.
pub fn worked_moments()
    ensures ahead { SpellsMoment (codes "20260105100000+0100") 1_767_603_600 }
    ensures behind { SpellsMoment (codes "2026010504-0500") 1_767_603_600 }
    ensures day_before_first { SpellsMoment (codes "19691231230000-0100") 0 }
    ensures last_with_plus { SpellsMoment (codes "20991231235959+0000") 4_102_444_799 }
    ensures last_with_minus { SpellsMoment (codes "20991231235959-0000") 4_102_444_799 }
    ensures before_first { (t : ℕ) → SpellsMoment (codes "19700101000000+0100") t → ⊥ }
    ensures past_last { (t : ℕ) → SpellsMoment (codes "20991231235959-0001") t → ⊥ }
    ensures hour_24 { (t : ℕ) → SpellsMoment (codes "20260105100000+2400") t → ⊥ }
    ensures hours_alone { (t : ℕ) → SpellsMoment (codes "20260105100000+01") t → ⊥ }
{}
