//! Beginning a desk with what stays of another one's history.

ghost use Rattle.std.specs.Prelude.{◌≡◌, ◌≢◌, IfErr, IfOk, OnOk, string_bytes};
ghost use Rattle.desk_store.specs.Left.{AddsOnly, IsDeskOf, LeavesOnly};
ghost use Rattle.store_tables.specs.Sets.{IsNothing};
ghost use Rattle.desk_cut.specs.CutOf.{IsArchiveOf, IsCountOfCut, IsCutOf};
ghost use Rattle.desk_cut.specs.declared.refusal.CutRefusal.TheVariants as refusal;

use crate::filling::fill;
use crate::refusal::CutRefusal;
use archive::cut as parts_of;
use desk_store::{Found, FoundDesk, Keeper};
use messages::Message;
use std::alloc::Global;
use sudo_words::Moment;

/// What became of a history that was cut.
#[derive(Drop)]
pub struct Cut {
    /// How many messages stay.
    pub kept: usize,
    /// The messages that do not.
    pub archived: Vec<Message>,
}

/// The text of the found desk's roster.
fn text_of(desk: FoundDesk) -> String
    ensures { result ≡ desk.roster }
{
    let FoundDesk {
        roster,
        known,
        count: _,
    } = desk;
    drop(known);
    roster
}

/// The text of the roster of the desk that is kept.
fn roster_of<K: Keeper>(keeper: &mut K) -> Result<String, CutRefusal>
    ensures up { K.is_up keeper.new → K.is_up keeper.old }
    ensures clean { K.is_clean keeper.new → K.is_clean keeper.old }
    ensures desk { K.is_up keeper.new → OnOk result (K.is_desk keeper.old) }
    ensures none { K.is_up keeper.new → IfErr result
        (λ e. e ≡ refusal.NoDesk → (¬ K.is_desk keeper.old) × (¬ K.is_old keeper.old)) }
    ensures old { K.is_up keeper.new
        → IfErr result (λ e. e ≡ refusal.OldDesk → K.is_old keeper.old) }
    ensures kind { IfErr result (λ e. e ≢ refusal.NotEmpty) }
    ensures roster { K.is_up keeper.new
        → IfOk result (λ text. string_bytes text ≡ K.roster keeper.old) }
    ensures same { K.is_up keeper.new → K.is_same keeper.old keeper.new }
    ensures leaves { K.is_clean keeper.new
        → AddsOnly (K.may_leave keeper.old) (K.may_leave keeper.new) (λ _. ⊥) }
    ensures live { K.is_clean keeper.new → OnOk result (K.is_up keeper.new) }
{
    match keeper.look()? {
        Found::Desk(desk) => Ok(text_of(desk)),
        Found::OldDesk => Err(CutRefusal::OldDesk),
        Found::Empty | Found::NotADesk => Err(CutRefusal::NoDesk),
    }
}

/// Makes a desk with this roster's text, where no part of a desk is kept.
fn make<K: Keeper>(keeper: &mut K, roster: &str) -> Result<(), CutRefusal>
    ensures up { K.is_up keeper.new → K.is_up keeper.old }
    ensures clean { K.is_clean keeper.new → K.is_clean keeper.old }
    ensures empty { K.is_up keeper.new → OnOk result (K.is_empty keeper.old) }
    ensures taken { K.is_up keeper.new
        → IfErr result (λ e. e ≡ refusal.NotEmpty → ¬ K.is_empty keeper.old) }
    ensures kind { IfErr result (λ e. (e ≢ refusal.NoDesk) × (e ≢ refusal.OldDesk)) }
    ensures desk { K.is_up keeper.new → OnOk result (K.is_desk keeper.new) }
    ensures roster { K.is_up keeper.new → OnOk result (K.roster keeper.new ≡ roster.now) }
    ensures nothing { K.is_up keeper.new → OnOk result (IsNothing (K.holds keeper.new)) }
    ensures live { K.is_clean keeper.new → OnOk result (K.is_up keeper.new) }
{
    match keeper.look()? {
        Found::Empty => {
            keeper.make(roster)?;
            Ok(())
        }
        _ => Err(CutRefusal::NotEmpty),
    }
}

/// Begins a desk where nothing is kept, with the roster's text of another one and with what stays
/// of that one's messages when they are cut at the moment. The answer has those that do not stay.
/// The other desk stays as it is.
///
/// After Ok, as long as both storages have been honest, this is done, and a crash leaves the desk
/// that was begun whole. `NoDesk` and `OldDesk` say that there is no desk of today's form to cut,
/// and `NotEmpty` that something is kept where one is to begin. After another refusal the desk that
/// was to begin may have a part of the messages: use it only after Ok.
pub fn cut_into<A: Keeper, B: Keeper>(
    alloc: Global,
    old: &mut A,
    new: &mut B,
    moment: Moment,
) -> Result<Cut, CutRefusal>
    ensures kept { A.is_up old.new → B.is_up new.new
        → OnOk result (IsCutOf (A.holds old.old) moment (B.holds new.new)) }
    ensures archived { A.is_up old.new
        → IfOk result (λ cut. IsArchiveOf (A.holds old.old) moment cut.archived.items) }
    ensures counted { A.is_up old.new
        → IfOk result (λ cut. IsCountOfCut (A.holds old.old) moment cut.kept) }
    ensures desk { A.is_up old.new → B.is_up new.new
        → OnOk result (A.is_desk old.old × B.is_empty new.old × B.is_desk new.new) }
    ensures roster { A.is_up old.new → B.is_up new.new
        → OnOk result (B.roster new.new ≡ A.roster old.old) }
    ensures no_desk { A.is_up old.new → IfErr result
        (λ e. e ≡ refusal.NoDesk → (¬ A.is_desk old.old) × (¬ A.is_old old.old)) }
    ensures old_desk { A.is_up old.new
        → IfErr result (λ e. e ≡ refusal.OldDesk → A.is_old old.old) }
    ensures not_empty { B.is_up new.new
        → IfErr result (λ e. e ≡ refusal.NotEmpty → ¬ B.is_empty new.old) }
    ensures durable { A.is_up old.new → B.is_up new.new → OnOk result (LeavesOnly
        (B.may_leave new.new) (IsDeskOf (B.roster new.new) (B.holds new.new))) }
    ensures same { A.is_up old.new → A.is_same old.old old.new }
    // A crash leaves nothing of the other desk that it might not have left before.
    ensures leaves { A.is_clean old.new
        → AddsOnly (A.may_leave old.old) (A.may_leave old.new) (λ _. ⊥) }
    ensures live { A.is_clean old.new → B.is_clean new.new
        → OnOk result (A.is_up old.new × B.is_up new.new) }
{
    let roster = roster_of(old)?;
    let messages = old.messages()?;
    let parts = parts_of(alloc, messages, moment)?;
    make(new, roster.as_str())?;
    fill(alloc, new, &parts.kept)?;
    new.lasts();
    let kept = parts.kept.len();
    Ok(Cut {
        kept,
        archived: parts.archived,
    })
}
