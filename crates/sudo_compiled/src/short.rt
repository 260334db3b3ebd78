//! Copies of names.

ghost use Rattle.std.specs.Prelude.{◌≡◌, ◌-◌, IfOk, length, slice_index};
ghost use Rattle.sudo_compiled.specs.private.Tags.{tag_of};

use smallvec::SmallVec;
use std::alloc::Global;
use std::marker::Model;
use sudo_words::NoMemory;

/// The byte so many places before the end, or 0 where there is none.
fn byte_before_end(text: &[u8], places: usize) -> u8
    ensures { result ≡ slice_index text.now (length text.now - places) }
{
    text.get(text.len().saturating_sub(places))
        .copied()
        .unwrap_or(0)
}

/// The last two bytes as a number, by which names that differ are mostly told apart.
pub(crate) fn tag(text: &[u8]) -> u32
    ensures { result ≡ tag_of text.now }
{
    u32::from(byte_before_end(text, 2)) * 256 + u32::from(byte_before_end(text, 1))
}

/// A copy of a name, which contracts see as its bytes. Up to 16 bytes are kept in place and take no
/// memory.
#[derive(Drop)]
pub struct Short {
    bytes: SmallVec<u8, 16>,
    tag: u32,
}

impl Model for Short {
    ghost use Rattle.std.specs.Prelude.{List, ℕ, ◌≡◌};
    ghost use Rattle.sudo_compiled.specs.private.Tags.{tag_of};

    ghost Value = { List ℕ };

    ghost view = { λ s. s.bytes.items };

    ghost invariant = { λ s. s.tag ≡ tag_of s.bytes.items };
}

impl Short {
    ghost use Rattle.sudo_compiled.specs.private.Tags.{tag_of};

    /// A copy of the text.
    pub fn of(alloc: Global, text: &str) -> Result<Short, NoMemory>
        ensures { IfOk result (λ s. s ≡ text.now) }
    {
        Ok(Short {
            bytes: SmallVec::from_slice(alloc, text.as_bytes())?,
            tag: tag(text.as_bytes()),
        })
    }

    /// A copy of the name.
    pub(crate) fn copied(&self, alloc: Global) -> Result<Short, NoMemory>
        ensures { IfOk result (λ s. s ≡ self.now) }
    {
        Ok(Short {
            bytes: SmallVec::from_slice(alloc, self.bytes.as_slice())?,
            tag: self.tag,
        })
    }

    /// The name's bytes.
    pub(crate) fn as_bytes(&self) -> &[u8]
        ensures { result.now ≡ self.now }
    {
        self.bytes.as_slice()
    }

    /// The name's tag.
    pub(crate) fn tag(&self) -> u32
        ensures { result ≡ tag_of self.now }
    {
        self.tag
    }
}
