//! Words that sudo reads as the beginning of a command, and paths that it takes for `sudoedit`.

ghost use Rattle.std.specs.Prelude.{◌≡◌};
ghost use Rattle.std.specs.List.{list_any};
ghost use Rattle.std.specs.Str.{bytes_eq};
ghost use Rattle.sudo_words.specs.Word as word;

/// The words, other than paths, that begin a command: sudo's own command, and digests.
const KEYWORDS: [&str; 5] = ["sudoedit", "sha224", "sha256", "sha384", "sha512"];

/// Whether the text is one of the words.
pub(crate) fn is_among(words: &[&str], text: &[u8]) -> bool
    ensures { result ≡ list_any (λ w. bytes_eq w.now text.now) words.now }
{
    words.iter().any(|word| word.as_bytes() == text)
}

/// Whether sudo reads the word as the beginning of a command: no user, target or host has it as a
/// name.
pub fn is_keyword(text: &[u8]) -> bool
    ensures { result ≡ word.is_keyword text.now }
{
    is_among(&KEYWORDS, text)
}

/// Whether the path's last component is `sudoedit`, which sudo takes for its own command of that
/// name.
pub fn is_sudoedit(path: &[u8]) -> bool
    ensures { result ≡ word.is_sudoedit path.now }
{
    path.ends_with(b"/sudoedit")
}
