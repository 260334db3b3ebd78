//! Lists with each alias written out: an alias item becomes its list's items in order, each with
//! its sign turned over where the alias item is negated.

ghost use Rattle.std.specs.Prelude.{◌≡◌, ◌++◌, ◌∷◌, [], if◌then◌else◌, not, true, List};
ghost use Rattle.std.specs.Prelude.{IfOk, OnOk};
ghost use Rattle.sudo_policy.specs.declared.tree.Definition.{Definition};
ghost use Rattle.sudo_decide.specs.declared.invocation.Invocation.{Invocation};
ghost use Rattle.sudo_decide.specs.Decision.{signed_answer, list_answer};
ghost use Rattle.sudo_compiled.specs.private.Used.{is_alias_used};
ghost use Rattle.sudo_compiled.specs.private.Writing.{Adds, Stands, known_says};

use crate::few::Few;
use crate::kind::{Kind, Written};
use crate::known::Known;
use crate::used::NameSet;
use std::alloc::Global;
use sudo_policy::Signed;
use sudo_words::{AliasName, NoMemory};

/// The sign, turned over if it is under a negation.
fn turned(negated: bool, under_negation: bool) -> bool
    ensures { result ≡ (if under_negation then not negated else negated) }
{
    if under_negation { !negated } else { negated }
}

fn push_signed<P: Drop>(out: &mut Vec<Signed<P>>, negated: bool, item: P) -> Result<(), NoMemory>
    ensures { OnOk result
        (out.new.items ≡ out.old.items ++ (record { negated = negated; item = item }) ∷ []) }
{
    out.push(Signed { negated, item })?;
    Ok(())
}

/// Adds copies of the items of a list without aliases, each turned over under a negation.
fn push_copies<K: Kind>(
    alloc: Global,
    list: &[Signed<K::Plain>],
    negated: bool,
    out: &mut Vec<Signed<K::Plain>>,
) -> Result<(), NoMemory>
    ensures { OnOk result (Adds K.plain out.old.items out.new.items
        (λ i. signed_answer negated (list_answer (K.plain i) list.now))) }
{
    for x in list {
        let own = K::copied(alloc, &x.item)?;
        push_signed(out, turned(x.negated, negated), own)?;
    }
    Ok(())
}

/// Adds what an alias stands for, turned over under a negation. An alias that is not known stands
/// for nothing.
fn push_alias<K: Kind>(
    alloc: Global,
    known: &Known<K::Plain>,
    name: &AliasName,
    negated: bool,
    out: &mut Vec<Signed<K::Plain>>,
) -> Result<(), NoMemory>
    ensures { OnOk result (Adds K.plain out.old.items out.new.items
        (λ i. signed_answer negated (known_says (K.plain i) known.now name.now))) }
{
    match known.get(name) {
        Some(list) => push_copies::<K>(alloc, list.as_ref().as_slice(), negated, out),
        None => Ok(()),
    }
}

/// Adds an item, or what it stands for if it is an alias, turned over under a negation.
fn push_item<K: Kind>(
    alloc: Global,
    known: &Known<K::Plain>,
    item: &K::Item,
    negated: bool,
    out: &mut Vec<Signed<K::Plain>>,
) -> Result<(), NoMemory>
    ensures { OnOk result (Adds K.plain out.old.items out.new.items
        (λ i. signed_answer negated (K.says i (known_says (K.plain i) known.now) item.now))) }
{
    match K::written(alloc, item)? {
        Written::Own(own) => push_signed(out, negated, own),
        Written::Alias(name) => push_alias::<K>(alloc, known, name, negated, out),
    }
}

/// The list written out item by item. Room for a list without aliases is made at the start.
fn written_items<K: Kind>(
    alloc: Global,
    known: &Known<K::Plain>,
    list: &[Signed<K::Item>],
) -> Result<Vec<Signed<K::Plain>>, NoMemory>
    ensures { IfOk result (λ w. (i : Invocation) → list_answer (K.plain i) w.items
        ≡ list_answer (K.says i (known_says (K.plain i) known.now)) list.now) }
{
    let mut out = Vec::with_capacity(alloc, list.len())?;
    for x in list {
        push_item::<K>(alloc, known, &x.item, x.negated, &mut out)?;
    }
    Ok(out)
}

/// What an alias stands for, which its uses share.
fn shared<K: Kind>(
    alloc: Global,
    known: &Known<K::Plain>,
    name: &AliasName,
    negated: bool,
) -> Result<Few<K::Plain>, NoMemory>
    ensures { IfOk result (λ w. (i : Invocation) → list_answer (K.plain i) w
        ≡ signed_answer negated (known_says (K.plain i) known.now name.now)) }
{
    match known.get(name) {
        Some(list) => Ok(Few::alias(negated, list.clone()?)),
        None => Ok(Few::more(Vec::new(alloc))),
    }
}

/// A single item written out.
fn written_alone<K: Kind>(
    alloc: Global,
    known: &Known<K::Plain>,
    only: &Signed<K::Item>,
) -> Result<Few<K::Plain>, NoMemory>
    ensures { IfOk result (λ w. (i : Invocation) → list_answer (K.plain i) w ≡ signed_answer
        only.now.negated (K.says i (known_says (K.plain i) known.now) only.now.item)) }
{
    match K::written(alloc, &only.item)? {
        Written::Own(item) => Ok(Few::one(Signed {
            negated: only.negated,
            item,
        })),
        Written::Alias(name) => shared::<K>(alloc, known, name, only.negated),
    }
}

/// The list with each alias in it written out, by what the aliases stand for.
pub(crate) fn written_out<K: Kind>(
    alloc: Global,
    known: &Known<K::Plain>,
    list: &[Signed<K::Item>],
) -> Result<Few<K::Plain>, NoMemory>
    ensures { IfOk result (λ w. (i : Invocation) → list_answer (K.plain i) w
        ≡ list_answer (K.says i (known_says (K.plain i) known.now)) list.now) }
{
    match list {
        [only] => written_alone::<K>(alloc, known, only),
        _ => Ok(Few::more(written_items::<K>(alloc, known, list)?)),
    }
}

/// Adds an alias of this name and list, written out by the aliases above it, if it is used.
pub(crate) fn define<K: Kind>(
    alloc: Global,
    known: &mut Known<K::Plain>,
    used: &NameSet,
    name: &AliasName,
    list: &[Signed<K::Item>],
) -> Result<(), NoMemory>
    ensures { OnOk result ((defs : List (Definition K.Item))
        → is_alias_used K.alias_of used.now name.now list.now ≡ true
        → Stands K.plain K.says used.now defs known.old → Stands K.plain K.says used.now
        (record { name = name.now; list = list.now } ∷ defs) known.new) }
{
    if used.has(name) {
        let written = written_items::<K>(alloc, known, list)?;
        known.add(alloc, name, written)?;
    }
    Ok(())
}
