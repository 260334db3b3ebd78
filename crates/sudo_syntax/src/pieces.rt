//! Lines of a text: what stands before a comment, and whether a line goes on in the next.

ghost use Rattle.std.specs.Prelude.{◌≡◌, ℕ, false, List, [], ◌∷◌, ◌++◌, IfOk};
ghost use Rattle.std.specs.Prelude.{IfErr, MatchOption, length, take_while};
ghost use Rattle.std.specs.List.{list_all};
ghost use Rattle.sudo_words.specs.Bytes.{backslash};
ghost use Rattle.sudo_policy.specs.Lines.{IsBody, IsContinued};
ghost use Rattle.sudo_policy.specs.Lines as lines;
ghost use Rattle.sudo_syntax.specs.private.Pieces.{IsPiece};
ghost use Rattle.sudo_policy.specs.Span.{Each};
ghost use Rattle.sudo_policy.specs.private.Cuts.{IsCut};

use crate::token::is_blank;
use sudo_policy::LineFault;

/// What a line of the text says.
#[derive(Clone, Copy)]
pub(crate) enum Piece<'a> {
    /// The line ends here: what stands before its comment.
    Ends(&'a [u8]),
    /// The line goes on in the next line: what stands before the backslash.
    GoesOn(&'a [u8]),
}

/// How many bytes stand before the first `#`.
fn body_len(line: &[u8]) -> usize
    ensures { result ≡ length (take_while lines.is_no_hash line.now) }
{
    line.iter().take_while(|b| **b != b'#').count()
}

/// Whether the bytes have no `#`. All bytes are looked at, even after a `#`, so that many are
/// tested at once.
fn lacks_hash(line: &[u8]) -> bool
    ensures { result ≡ list_all lines.is_no_hash line.now }
{
    let mut each = true;
    for byte in line {
        each &= *byte != b'#';
    }
    each
}

/// The bytes before the first `#`, and what follows them. Most lines have none.
fn cut_body(line: &[u8]) -> (&[u8], &[u8])
    ensures { IsCut lines.is_no_hash line.now result.0.now result.1.now }
{
    if lacks_hash(line) {
        return (line, &[]);
    }
    line.split_at(body_len(line))
}

fn begins_with_digit(text: &[u8]) -> bool
    ensures { result ≡ lines.begins_with_digit text.now }
{
    match text {
        [] => false,
        [first, ..] => first.is_ascii_digit(),
    }
}

fn ends_in_backslash(text: &[u8]) -> bool
    ensures { result ≡ lines.ends_in_backslash text.now }
{
    text.ends_with(b"\\")
}

/// Whether the text may follow the `#` of a comment.
fn is_comment(text: &[u8]) -> bool
    ensures { result ≡ lines.is_comment text.now }
{
    !begins_with_digit(text) && !text.starts_with(b"include") && !ends_in_backslash(text)
}

/// Whether a comment may follow these bytes: it begins a line, or comes after a blank.
fn is_before_comment(body: &[u8]) -> bool
    ensures { result ≡ lines.is_before_comment body.now }
{
    match body {
        [] => true,
        [.., last] => is_blank(*last),
    }
}

/// Whether a line may go on after these bytes.
fn may_go_on(front: &[u8]) -> bool
    ensures { result ≡ lines.last_passes lines.may_go_on front.now }
{
    match front {
        [] => false,
        [.., last] => is_blank(*last) || *last == b',' || *last == b'=' || *last == b':',
    }
}

/// What stands before the backslash that the line ends in, if it ends in one.
fn before_backslash(line: &[u8]) -> Option<&[u8]>
    ensures { MatchOption result (lines.ends_in_backslash line.now
        ≡ false) (λ front. line.now ≡ front.now ++ backslash ∷ []) }
{
    line.strip_suffix(b"\\")
}

/// What a line without a `#` says: a backslash at its end means that it goes on, if it may do so
/// there.
fn without_comment(line: &[u8]) -> Result<Piece<'_>, LineFault>
    requires { Each lines.is_no_hash line.now }
    ensures found { IfOk result (IsPiece line.now) }
    ensures body { (body : List ℕ) → IsBody line.now body → IfErr result (λ e. ⊥) }
    ensures front { (front : List ℕ) → IsContinued line.now front → IfErr result (λ e. ⊥) }
{
    match before_backslash(line) {
        None => Ok(Piece::Ends(line)),
        Some(front) if may_go_on(front) => Ok(Piece::GoesOn(front)),
        Some(_) => Err(LineFault::Unexpected),
    }
}

/// What is wrong with a `#` that does not begin a comment, by the text that follows it.
fn bad_comment(text: &[u8]) -> LineFault {
    if ends_in_backslash(text) {
        LineFault::Unexpected
    } else {
        LineFault::LeftOut
    }
}

/// What a line of the text says.
pub(crate) fn piece_of(line: &[u8]) -> Result<Piece<'_>, LineFault>
    ensures found { IfOk result (IsPiece line.now) }
    ensures body { (body : List ℕ) → IsBody line.now body → IfErr result (λ e. ⊥) }
    ensures front { (front : List ℕ) → IsContinued line.now front → IfErr result (λ e. ⊥) }
{
    let (body, rest) = cut_body(line);
    let [_, text @ ..] = rest else {
        return without_comment(body);
    };
    if is_before_comment(body) && is_comment(text) {
        Ok(Piece::Ends(body))
    } else {
        Err(bad_comment(text))
    }
}
