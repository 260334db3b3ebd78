//! Reads a roster's text.

ghost use Rattle.std.specs.Prelude.{◌≡◌, ◌≢◌, Some, None, IfOk, IfErr, MatchResult};
ghost use Rattle.toml.specs.Parse.{parse_document};
ghost use Rattle.toml.specs.View.{table_view};
ghost use Rattle.roster.specs.Faults.{IsLeastFault, IsRosterText};
ghost use Rattle.roster.specs.Fields.{in_texts};
ghost use Rattle.roster.specs.Relations.{IsOrdered};
ghost use Rattle.roster.specs.Rules.{GoodNames, IsCmndText};
ghost use Rattle.roster.specs.private.Stages.{IsDraftOf, KeepsRules};
ghost use Rattle.roster.specs.declared.fault.RosterFault.TheVariants.{NoMemory, NotToml};

use crate::content::Content;
use crate::draft::Draft;
use crate::fault::RosterFault;
use crate::keys::has_known_keys;
use crate::named::content_of;
use crate::rules::{has_self_conflict, is_in_range, knows_names};
use crate::typed::draft_of;
use std::alloc::Global;
use toml::Table;

/// The text, parsed as a TOML document.
fn document(alloc: Global, text: &str) -> Result<Table, RosterFault>
    ensures { MatchResult result (λ t. parse_document text.now ≡ Some (table_view t))
        (λ e. e ≢ NoMemory → (e ≡ NotToml) × (parse_document text.now ≡ None)) }
{
    match toml::table_from_str(alloc, text) {
        Ok(table) => Ok(table),
        Err(e) => Err(if e.is_memory() {
            RosterFault::NoMemory
        } else {
            RosterFault::NotToml
        }),
    }
}

/// Tests what the draft says, once its names and commands are good. The error is the text's least
/// fault.
#[tactic(auto, using(crate::proofs::Texts::known_of_draft))]
fn tested(text: &str, draft: &Draft, content: &Content) -> Result<(), RosterFault>
    requires draft { IsDraftOf text.now draft.now }
    requires named { GoodNames IsCmndText draft.now }
    requires content { in_texts content.now ≡ draft.now }
    ensures kept { IfOk result (λ _. KeepsRules text.now draft.now) }
    ensures least { IfErr result (λ e. e ≢ NoMemory → IsLeastFault text.now e) }
{
    let known = knows_names(content)?;
    if !known {
        return Err(RosterFault::UnknownName);
    }
    if has_self_conflict(draft) {
        return Err(RosterFault::SelfConflict);
    }
    if !is_in_range(text, draft) {
        return Err(RosterFault::OutOfRange);
    }
    Ok(())
}

/// What the draft of a text says, with names and commands, or the text's least fault.
fn content_by_draft(alloc: Global, text: &str, draft: &Draft) -> Result<Content, RosterFault>
    requires draft { IsDraftOf text.now draft.now }
    requires ordered { IsOrdered draft.now }
    ensures found { IfOk result (λ s. IsRosterText text.now s) }
    ensures ordered { IfOk result IsOrdered }
    ensures least { IfErr result (λ e. e ≢ NoMemory → IsLeastFault text.now e) }
{
    let content = content_of(alloc, draft)?;
    tested(text, draft, &content).and(Ok(content))
}

/// What the text of a roster says, from its document, or the text's least fault.
fn content_by_document(alloc: Global, text: &str, table: &Table) -> Result<Content, RosterFault>
    requires { parse_document text.now ≡ Some (table_view table.now) }
    ensures found { IfOk result (λ s. IsRosterText text.now s) }
    ensures ordered { IfOk result IsOrdered }
    ensures least { IfErr result (λ e. e ≢ NoMemory → IsLeastFault text.now e) }
{
    if !has_known_keys(table) {
        return Err(RosterFault::UnknownKey);
    }
    let draft = draft_of(alloc, table)?;
    content_by_draft(alloc, text, &draft)
}

/// What the text of a roster says, or the text's least fault.
pub(crate) fn content_by(alloc: Global, text: &str) -> Result<Content, RosterFault>
    ensures found { IfOk result (λ s. IsRosterText text.now s) }
    ensures ordered { IfOk result IsOrdered }
    ensures least { IfErr result (λ e. e ≢ NoMemory → IsLeastFault text.now e) }
{
    let table = document(alloc, text)?;
    content_by_document(alloc, text, &table)
}
