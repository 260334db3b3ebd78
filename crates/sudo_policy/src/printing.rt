//! Policies printed as their canonical text.

ghost use Rattle.std.specs.Prelude.{◌≡◌, [], List, ℕ, IfOk, OnOk};
ghost use Rattle.std.specs.Prelude.{◌++◌, codes, length, string_bytes};
ghost use Rattle.std.specs.List.{AllByRecursion};
ghost use Rattle.sudo_words.specs.Command.{IsLawful, cmnd_text};
ghost use Rattle.sudo_words.specs.Moment.{stamp};
ghost use Rattle.sudo_policy.specs.Spelling.{Spells};
ghost use Rattle.sudo_policy.specs.Policy.{IsEntry, IsRule, IsCmndItem};
ghost use Rattle.sudo_policy.specs.Printing.{alias_text, canon, cmnds_text, date_option_text};
ghost use Rattle.sudo_policy.specs.Printing.{item_text, cmnd_item_text};
ghost use Rattle.sudo_policy.specs.Printing.{entry_text, line_text, names_text, rule_text};
ghost use Rattle.sudo_policy.specs.Printing.{signed_text, tail_text, what_text, who_text};

use crate::entry::{CmndItem, Entry, Item, Rule, Signed};
use crate::policy::Policy;
use std::alloc::{AllocError, Global};
use sudo_words::{AliasName, ArgRule, Cmnd, Form, Moment, NoMemory, Word, print_cmnd};

fn push_item<F: Form>(out: &mut String, item: &Item<Word<F>>) -> Result<(), AllocError>
    ensures { OnOk result (string_bytes out.new ≡ string_bytes out.old ++ item_text item.now) }
{
    match item {
        Item::All => out.push_str("ALL"),
        Item::Name(name) => out.push_str(name.as_str()),
        Item::Alias(name) => out.push_str(name.as_str()),
    }
}

fn push_signed<F: Form>(out: &mut String, signed: &Signed<Item<Word<F>>>) -> Result<(), AllocError>
    ensures { OnOk result
        (string_bytes out.new ≡ string_bytes out.old ++ signed_text item_text signed.now) }
{
    if signed.negated {
        out.push_str("!")?;
    }
    push_item(out, &signed.item)
}

/// Adds the items after the first, with a comma and a space before each.
fn push_tail<F: Form>(out: &mut String, items: &[Signed<Item<Word<F>>>]) -> Result<(), AllocError>
    ensures { OnOk result (string_bytes out.new
        ≡ string_bytes out.old ++ tail_text (signed_text item_text) items.now) }
{
    for item in items {
        out.push_str(", ")?;
        push_signed(out, item)?;
    }
    Ok(())
}

fn push_names<F: Form>(out: &mut String, items: &[Signed<Item<Word<F>>>]) -> Result<(), AllocError>
    ensures { OnOk result (string_bytes out.new ≡ string_bytes out.old ++ names_text items.now) }
{
    match items {
        [] => Ok(()),
        [first, others @ ..] => {
            push_signed(out, first)?;
            push_tail(out, others)
        }
    }
}

/// Adds what stands before the dates and the command.
fn push_who(out: &mut String, rule: &Rule) -> Result<(), AllocError>
    ensures { OnOk result (string_bytes out.new ≡ string_bytes out.old ++ who_text rule.now) }
{
    push_names(out, rule.users.as_slice())?;
    out.push_str(" ")?;
    push_names(out, rule.hosts.as_slice())?;
    out.push_str(" = (")?;
    push_names(out, rule.runas.as_slice())?;
    out.push_str(") ")
}

/// Adds the moment's canonical text.
pub fn push_moment(out: &mut String, moment: Moment) -> Result<(), AllocError>
    ensures { OnOk result (string_bytes out.new ≡ string_bytes out.old ++ stamp moment) }
{
    write!(out, "{moment}")
}

fn push_date(out: &mut String, option: &str, date: Option<Moment>) -> Result<(), AllocError>
    ensures { OnOk result
        (string_bytes out.new ≡ string_bytes out.old ++ date_option_text option.now date) }
{
    match date {
        None => Ok(()),
        Some(moment) => {
            out.push_str(option)?;
            out.push_str("=")?;
            push_moment(out, moment)?;
            out.push_str(" ")
        }
    }
}

/// Adds a command's text. A command without a rule for its arguments is its head alone, for which
/// no string is made.
pub fn push_command(alloc: Global, out: &mut String, cmnd: &Cmnd) -> Result<(), NoMemory>
    requires { IsLawful cmnd.now }
    ensures { OnOk result (string_bytes out.new ≡ string_bytes out.old ++ cmnd_text cmnd.now) }
{
    match cmnd {
        Cmnd::All => out.push_str("ALL")?,
        Cmnd::Path(file, ArgRule::Any) => out.push_str(file.as_str())?,
        Cmnd::Path(_, _) => out.push_str(print_cmnd(alloc, cmnd)?.as_str())?,
        Cmnd::Dir(dir) => out.push_str(dir.as_str())?,
    }
    Ok(())
}

fn push_cmnd_item(alloc: Global, out: &mut String, item: &CmndItem) -> Result<(), NoMemory>
    requires { IsCmndItem item.now }
    ensures { OnOk result (string_bytes out.new ≡ string_bytes out.old ++ cmnd_item_text item.now) }
{
    match item {
        CmndItem::Alias(name) => {
            out.push_str(name.as_str())?;
            Ok(())
        }
        CmndItem::Cmnd(cmnd) => push_command(alloc, out, cmnd),
    }
}

fn push_cmnd(alloc: Global, out: &mut String, signed: &Signed<CmndItem>) -> Result<(), NoMemory>
    requires { IsCmndItem signed.now.item }
    ensures { OnOk result
        (string_bytes out.new ≡ string_bytes out.old ++ signed_text cmnd_item_text signed.now) }
{
    if signed.negated {
        out.push_str("!")?;
    }
    push_cmnd_item(alloc, out, &signed.item)
}

/// Adds the commands after the first, with a comma and a space before each.
fn push_cmnd_tail(
    alloc: Global,
    out: &mut String,
    items: &[Signed<CmndItem>],
) -> Result<(), NoMemory>
    requires { AllByRecursion (λ s. IsCmndItem s.item) items.now }
    ensures { OnOk result (string_bytes out.new
        ≡ string_bytes out.old ++ tail_text (signed_text cmnd_item_text) items.now) }
{
    for item in items {
        out.push_str(", ")?;
        push_cmnd(alloc, out, item)?;
    }
    Ok(())
}

fn push_cmnds(alloc: Global, out: &mut String, items: &[Signed<CmndItem>]) -> Result<(), NoMemory>
    requires { AllByRecursion (λ s. IsCmndItem s.item) items.now }
    ensures { OnOk result (string_bytes out.new ≡ string_bytes out.old ++ cmnds_text items.now) }
{
    match items {
        [] => Ok(()),
        [first, others @ ..] => {
            push_cmnd(alloc, out, first)?;
            push_cmnd_tail(alloc, out, others)
        }
    }
}

/// Adds what stands before an alias's list.
fn push_head(out: &mut String, kind: &str, name: &AliasName) -> Result<(), AllocError>
    ensures { OnOk result
        (string_bytes out.new ≡ string_bytes out.old ++ alias_text kind.now name.now []) }
{
    out.push_str(kind)?;
    out.push_str(" ")?;
    out.push_str(name.as_str())?;
    out.push_str(" = ")
}

fn push_alias<F: Form>(
    out: &mut String,
    kind: &str,
    name: &AliasName,
    list: &[Signed<Item<Word<F>>>],
) -> Result<(), NoMemory>
    ensures { OnOk result (string_bytes out.new
        ≡ string_bytes out.old ++ alias_text kind.now name.now (names_text list.now)) }
{
    push_head(out, kind, name)?;
    push_names(out, list)?;
    Ok(())
}

fn push_cmnd_alias(
    alloc: Global,
    out: &mut String,
    name: &AliasName,
    list: &[Signed<CmndItem>],
) -> Result<(), NoMemory>
    requires { AllByRecursion (λ s. IsCmndItem s.item) list.now }
    ensures { OnOk result (string_bytes out.new
        ≡ string_bytes out.old ++ alias_text (codes "Cmnd_Alias") name.now (cmnds_text list.now)) }
{
    push_head(out, "Cmnd_Alias", name)?;
    push_cmnds(alloc, out, list)
}

fn push_rule(alloc: Global, out: &mut String, rule: &Rule) -> Result<(), NoMemory>
    requires { IsRule rule.now }
    ensures { OnOk result (string_bytes out.new ≡ string_bytes out.old ++ rule_text rule.now) }
{
    push_who(out, rule)?;
    push_date(out, "NOTBEFORE", rule.not_before)?;
    push_date(out, "NOTAFTER", rule.not_after)?;
    rule.tags.push(out)?;
    push_cmnd(alloc, out, &rule.cmnd)
}

fn push_entry(alloc: Global, out: &mut String, entry: &Entry) -> Result<(), NoMemory>
    requires { IsEntry entry.now }
    ensures { OnOk result (string_bytes out.new ≡ string_bytes out.old ++ entry_text entry.now) }
{
    match entry {
        Entry::UserAlias(name, list) => push_alias(out, "User_Alias", name, list.as_slice()),
        Entry::RunasAlias(name, list) => push_alias(out, "Runas_Alias", name, list.as_slice()),
        Entry::HostAlias(name, list) => push_alias(out, "Host_Alias", name, list.as_slice()),
        Entry::CmndAlias(name, list) => push_cmnd_alias(alloc, out, name, list.as_slice()),
        Entry::Rule(rule) => push_rule(alloc, out, rule),
    }
}

/// Adds one entry and a newline.
fn push_line(alloc: Global, out: &mut String, entry: &Entry) -> Result<(), NoMemory>
    requires { IsEntry entry.now }
    ensures { OnOk result (string_bytes out.new ≡ string_bytes out.old ++ line_text entry.now) }
{
    push_entry(alloc, out, entry)?;
    out.push_str("\n")?;
    Ok(())
}

/// All entries, one per line, with room reserved for so many bytes at first.
fn printed(alloc: Global, entries: &[Entry], room: usize) -> Result<String, NoMemory>
    requires { AllByRecursion IsEntry entries.now }
    ensures { IfOk result (λ s. string_bytes s ≡ canon entries.now) }
{
    let mut out = String::with_capacity(alloc, room)?;
    for entry in entries {
        push_line(alloc, &mut out, entry)?;
    }
    Ok(out)
}

/// The policy's canonical text: one entry a line, without comments. `read_policy` reads it as the
/// same policy.
pub fn print_policy(alloc: Global, policy: &Policy) -> Result<String, NoMemory>
    ensures text { IfOk result (λ s. string_bytes s ≡ canon policy.now) }
    ensures read_back { IfOk result (λ s. Spells (string_bytes s) policy.now) }
{
    printed(alloc, policy.entries(), policy.text_len())
}

/// The text of the entries, one per line, which has this length. The second half of them is printed
/// by itself and freed before the first half is printed, so that the whole text is never in memory
/// beside all entries.
fn printed_in_halves(alloc: Global, entries: Vec<Entry>, len: usize) -> Result<String, NoMemory>
    requires { AllByRecursion IsEntry entries.items }
    ensures { IfOk result (λ s. string_bytes s ≡ canon entries.items) }
{
    let half = entries.len() / 2;
    let mut front = entries;
    let (_, last) = front.as_slice().split_at(half);
    let rest = printed(alloc, last, 0)?;
    front.truncate(half);
    front.shrink_to_fit();
    let mut out = printed(alloc, front.as_slice(), len)?;
    out.push_str(rest.as_str())?;
    Ok(out)
}

/// The policy's canonical text, as `print_policy` prints it. The policy is freed on the way, so
/// that less memory is used at once.
pub fn print_owned(alloc: Global, policy: Policy) -> Result<String, NoMemory>
    ensures text { IfOk result (λ s. string_bytes s ≡ canon policy) }
    ensures read_back { IfOk result (λ s. Spells (string_bytes s) policy) }
{
    let len = policy.text_len();
    printed_in_halves(alloc, policy.into_entries(), len)
}
