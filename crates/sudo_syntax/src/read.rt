//! Policies read from text.

ghost use Rattle.std.specs.Prelude.{◌≡◌, ◌+◌, ◌<◌, ◌≤◌, ◌==◌, ◌⊎◌, List, ℕ, IfOk, IfErr};
ghost use Rattle.std.specs.Prelude.{IsErrAnd, MatchResult, OnOk, length, count_by, ◌++◌, [], ◌∷◌};
ghost use Rattle.sudo_words.specs.Bytes.{newline};
ghost use Rattle.sudo_policy.specs.declared.entry.Entry.{Entry as Entered};
ghost use Rattle.sudo_policy.specs.declared.fault.FaultKind.TheVariants.{TooLong, BadByte, Line};
ghost use Rattle.sudo_policy.specs.declared.fault.LineFault.TheVariants.{NoMemory};
ghost use Rattle.sudo_policy.specs.Spelling.{Spells, SpellsLine};
ghost use Rattle.sudo_syntax.specs.private.Pending.{Leads, SpellsAfter};
ghost use Rattle.sudo_policy.specs.Lex as lex;
ghost use Rattle.sudo_policy.specs.Limits.{most_text_bytes};
ghost use Rattle.sudo_policy.specs.Reading.{HasOtherByte, IsLineOf};
ghost use Rattle.sudo_syntax.specs.private.Pending.{IsInLine, SpellsBy};
ghost use Rattle.sudo_policy.specs.Policy.{IsPolicy};
ghost use Rattle.sudo_policy.specs.private.AliasKinds.{Adds, IsDraft};
ghost use Rattle.sudo_policy.specs.Span.{Each};
ghost use Rattle.sudo_policy.specs.Lines.{lines_of};

use crate::line_entries::add_line;
use crate::pieces::{Piece, piece_of};
use crate::token::{cut_text, is_text, tokens};
use crate::tree_reading::tree_of;
use std::alloc::Global;
use sudo_policy::{Draft, FaultKind, LineFault, MOST_TEXT_BYTES, Policy, ReadFault};

/// How many newlines the bytes have.
fn newlines(bytes: &[u8]) -> usize
    ensures { result ≡ count_by (λ b. b == newline) bytes.now }
{
    bytes.iter().filter(|b| **b == b'\n').count()
}

/// A fault after these bytes of a text.
fn fault_after(front: &[u8], kind: FaultKind) -> ReadFault
    ensures kind { result.kind ≡ kind }
    ensures line { result.line ≡ 1 + count_by (λ b. b == newline) front.now }
{
    ReadFault {
        line: newlines(front) + 1,
        kind,
    }
}

/// Tests that a text has at most 16 MiB, and only bytes that a text may have.
fn check_bytes(text: &[u8]) -> Result<(), ReadFault>
    ensures ok { OnOk result
        ((length text.now ≤ most_text_bytes) × Each lex.is_text_byte text.now) }
    ensures too_long { most_text_bytes < length text.now → IsErrAnd result (λ f. f.kind ≡ TooLong) }
    ensures line { IfErr result (λ f. IsLineOf text.now f.line) }
    ensures kind { IfErr result (λ f. ((f.kind ≡ TooLong) × (most_text_bytes < length text.now))
        ⊎ ((f.kind ≡ BadByte) × HasOtherByte text.now)) }
{
    if text.len() > MOST_TEXT_BYTES {
        let (front, _) = text.split_at(MOST_TEXT_BYTES);
        return Err(fault_after(front, FaultKind::TooLong));
    }
    if is_text(text) {
        return Ok(());
    }
    let (front, rest) = cut_text(text);
    match rest {
        [] => Ok(()),
        _ => Err(fault_after(front, FaultKind::BadByte)),
    }
}

/// Adds what a line stands for, once it is joined with the lines that continue it.
fn add_joined(alloc: Global, draft: &mut Draft, line: &[u8]) -> Result<(), LineFault>
    requires { IsDraft draft.old }
    ensures found { OnOk result ((here : List Entered) × SpellsLine line.now here
        × ((es : List Entered) → SpellsLine line.now es → es ≡ here)
        × Adds draft.old draft.new here) }
    ensures only { IfErr result (λ e. (es : List Entered) → SpellsLine line.now es
        → IsPolicy (draft.old.entries.items ++ es) → e ≡ NoMemory) }
{
    let tokens = tokens(alloc, line)?;
    if tokens.is_empty() {
        return Ok(());
    }
    let line = tree_of(alloc, &tokens)?;
    add_line(alloc, draft, line)
}

/// Adds what a line of the text stands for, after the front that the lines before it left. If the
/// line goes on, it is added to that front; otherwise the front is empty afterwards.
fn add_piece(
    alloc: Global,
    draft: &mut Draft,
    pending: &mut Vec<u8>,
    line: &[u8],
) -> Result<(), LineFault>
    requires { IsDraft draft.old }
    ensures found { OnOk result
        ((here : List Entered) × Adds draft.old draft.new here × ((rest : List (List ℕ))
        → Leads pending.old.items (line.now ∷ rest) here pending.new.items rest)) }
    ensures only { IfErr result (λ e. (rest : List (List ℕ)) (es : List Entered)
        → SpellsAfter pending.old.items (line.now ∷ rest) es
        → IsPolicy (draft.old.entries.items ++ es) → e ≡ NoMemory) }
{
    match piece_of(line)? {
        Piece::GoesOn(front) => {
            pending.extend_from_slice(front)?;
            pending.push(b' ')?;
            Ok(())
        }
        Piece::Ends(body) => {
            if pending.is_empty() {
                // A line that continues no other is read in place.
                return add_joined(alloc, draft, body);
            }
            pending.extend_from_slice(body)?;
            add_joined(alloc, draft, pending)?;
            pending.clear();
            Ok(())
        }
    }
}

/// The line number of a fault that came up at a line: the number of this line, if its comment or
/// its continuation is wrong, and otherwise the number of the line where the joined line begins.
fn fault_line(line: &[u8], begins: usize, here: usize) -> usize
    ensures { (result ≡ begins) ⊎ (result ≡ here) }
{
    if piece_of(line).is_err() {
        here
    } else {
        begins
    }
}

/// Adds what the lines of a text stand for. Each line is read in place in the text: no list of
/// lines is made.
fn add_lines(alloc: Global, draft: &mut Draft, text: &[u8]) -> Result<(), ReadFault>
    requires draft { IsDraft draft.old }
    requires none { draft.old.entries.items ≡ [] }
    ensures found { OnOk result
        (IsDraft draft.new × SpellsBy (lines_of text.now) draft.new.entries.items) }
    ensures only { (es : List Entered) → SpellsBy (lines_of text.now) es → IsPolicy es
        → MatchResult result (λ _. draft.new.entries.items ≡ es) (λ f. f.kind ≡ Line NoMemory) }
    ensures line { IfErr result (λ f. IsLineOf text.now f.line) }
    ensures kind { IfErr result (λ f. IsInLine f.kind) }
{
    let mut pending = Vec::new(alloc);
    let mut begins = 0;
    let mut here = 0;
    for line in text.split(|b| *b == b'\n') {
        here += 1;
        if pending.is_empty() {
            begins = here;
        }
        if let Err(fault) = add_piece(alloc, draft, &mut pending, line) {
            return Err(ReadFault {
                line: fault_line(line, begins, here),
                kind: FaultKind::Line(fault),
            });
        }
    }
    if !pending.is_empty() {
        // The last line goes on, and nothing follows.
        return Err(ReadFault {
            line: here,
            kind: FaultKind::Line(LineFault::Unexpected),
        });
    }
    Ok(())
}

/// The policy of the lines of a text.
fn policy_of(alloc: Global, text: &[u8]) -> Result<Policy, ReadFault>
    ensures found { IfOk result (λ p. SpellsBy (lines_of text.now) p) }
    ensures only { (es : List Entered) → SpellsBy (lines_of text.now) es → IsPolicy es
        → MatchResult result (λ p. p ≡ es) (λ f. f.kind ≡ Line NoMemory) }
    ensures line { IfErr result (λ f. IsLineOf text.now f.line) }
    ensures kind { IfErr result (λ f. IsInLine f.kind) }
{
    let mut draft = Draft::new(alloc);
    add_lines(alloc, &mut draft, text)?;
    Ok(Policy::of(draft))
}

/// The policy that a text spells (sudoers(5), "SUDOERS FILE FORMAT"), as far as the desk reads it.
///
/// Faults: `TooLong` where the text is over 16 MiB, else `BadByte` where it has a byte that
/// no text may have, else the first fault of a line, with its number from 1; `NoMemory` where
/// memory runs out.
pub fn read_policy(alloc: Global, text: &[u8]) -> Result<Policy, ReadFault>
    // A policy that is read is a policy that the text spells.
    ensures found { IfOk result (λ p. Spells text.now p) }
    // The policy that a text spells is read, unless memory runs out: a text that spells a policy
    // gives no other fault.
    ensures only { (es : List Entered) → Spells text.now es
        → MatchResult result (λ p. p ≡ es) (λ f. f.kind ≡ Line NoMemory) }
    // `TooLong` comes exactly where the text is too long.
    ensures too_long { most_text_bytes < length text.now → IsErrAnd result (λ f. f.kind ≡ TooLong) }
    ensures too_long_only { IfErr result
        (λ f. f.kind ≡ TooLong → most_text_bytes < length text.now) }
    ensures bad_byte { IfErr result (λ f. f.kind ≡ BadByte → HasOtherByte text.now) }
    ensures line { IfErr result (λ f. IsLineOf text.now f.line) }
{
    check_bytes(text)?;
    policy_of(alloc, text)
}
