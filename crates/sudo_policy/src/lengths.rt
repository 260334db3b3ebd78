//! How long the lines of a policy's canonical text are, as sums of their parts.

ghost use Rattle.std.specs.Prelude.{◌≡◌, ◌≤◌, ◌+◌, ◌++◌, List, ℕ, codes, length};
ghost use Rattle.std.specs.List.{AllByRecursion};
ghost use Rattle.sudo_policy.specs.declared.entry.Entry.TheVariants as entries;
ghost use Rattle.sudo_policy.specs.private.Lengths.{stopped};
ghost use Rattle.sudo_policy.specs.Policy.{IsCmndItem, IsEntry, IsItem, IsRule};
ghost use Rattle.sudo_policy.specs.Printing.{alias_text, cmnd_item_text, date_option_text};
ghost use Rattle.sudo_policy.specs.Printing.{item_text, line_text, comma_separated};
ghost use Rattle.sudo_policy.specs.Printing.{signed_text, tail_text, who_text};

use crate::entry::{CmndItem, Entry, Item, Rule, Signed};
use sudo_words::{AliasName, Form, Moment, Word, cmnd_len};

/// The most bytes of a text, and of the canonical text of a policy: 16 MiB.
pub const MOST_TEXT_BYTES: usize = 16_777_216;

/// One more than the most bytes: a length past the limit is counted as this.
const TOO_LONG: usize = MOST_TEXT_BYTES + 1;

/// Two lengths together.
fn plus(first: usize, second: usize) -> usize
    ensures { result ≡ stopped (first + second) }
{
    first.saturating_add(second).min(TOO_LONG)
}

/// What has a text of its own in a list: an item of users, hosts or targets, or a command.
pub trait Lengthy: Sized {
    ghost text: { Self → List ℕ };

    /// What must hold of an item or a command whose length is asked.
    ghost holds: { Self → Type 0 };

    /// How long the text is.
    fn text_len(&self) -> usize
        requires { holds self.now }
        ensures { result ≡ length (text self.now) };
}

impl<F: Form> Lengthy for Item<Word<F>> {
    ghost text = { item_text };

    ghost holds = { IsItem F.has };

    fn text_len(&self) -> usize {
        match self {
            Item::All => 3,
            Item::Name(name) => name.as_str().len(),
            Item::Alias(name) => name.as_str().len(),
        }
    }
}

impl Lengthy for CmndItem {
    ghost text = { cmnd_item_text };

    ghost holds = { IsCmndItem };

    fn text_len(&self) -> usize {
        match self {
            CmndItem::Alias(name) => name.as_str().len(),
            CmndItem::Cmnd(cmnd) => cmnd_len(cmnd),
        }
    }
}

/// The length of an item, with the `!` before an item that is negated.
fn signed_len<T: Lengthy>(signed: &Signed<T>) -> usize
    requires { T.holds signed.now.item }
    ensures { result ≡ stopped (length (signed_text T.text signed.now)) }
{
    let bang = if signed.negated { 1 } else { 0 };
    plus(bang, signed.item.text_len())
}

/// The length of the items after the first, with a comma and a space before each item.
fn tail_len<T: Lengthy>(items: &[Signed<T>]) -> usize
    requires { AllByRecursion (λ s. T.holds s.item) items.now }
    ensures { result ≡ stopped (length (tail_text (signed_text T.text) items.now)) }
{
    let mut len = 0;
    for item in items {
        len = plus(plus(len, 2), signed_len(item));
    }
    len
}

fn list_len<T: Lengthy>(items: &[Signed<T>]) -> usize
    requires { AllByRecursion (λ s. T.holds s.item) items.now }
    ensures { result ≡ stopped (length (comma_separated (signed_text T.text) items.now)) }
{
    match items {
        [] => 0,
        [first, others @ ..] => plus(signed_len(first), tail_len(others)),
    }
}

/// The length of the text before the dates and the command: three lists, ` `, ` = (` and `) `.
fn who_len(rule: &Rule) -> usize
    requires { IsRule rule.now }
    ensures { result ≡ stopped (length (who_text rule.now)) }
{
    let users = list_len(rule.users.as_slice());
    let hosts = list_len(rule.hosts.as_slice());
    let runas = list_len(rule.runas.as_slice());
    plus(plus(users, hosts), plus(runas, 7))
}

/// The length of a date, with its option, `=` and the blank after it. A stamp has 15 bytes.
fn date_len(option: &str, date: Option<Moment>) -> usize
    requires { length option.now ≤ 16 }
    ensures value { result ≡ length (date_option_text option.now date) }
    ensures few { result ≤ 33 }
{
    match date {
        None => 0,
        Some(_) => option.len() + 17,
    }
}

/// The length of a rule's line, with its newline.
fn rule_line_len(rule: &Rule) -> usize
    requires { IsRule rule.now }
    ensures { result ≡ stopped (length (line_text (entries.Rule rule.now))) }
{
    let dates = date_len("NOTBEFORE", rule.not_before) + date_len("NOTAFTER", rule.not_after);
    plus(
        plus(who_len(rule), dates + rule.tags.len()),
        plus(signed_len(&rule.cmnd), 1),
    )
}

/// The length of an alias's line: after the kind a blank, after the name ` = `, and a newline.
fn alias_line_len<T: Lengthy>(kind: &str, name: &AliasName, list: &[Signed<T>]) -> usize
    requires kind { length kind.now ≤ 16 }
    requires list { AllByRecursion (λ s. T.holds s.item) list.now }
    ensures { result ≡ stopped (length
        (alias_text kind.now name.now (comma_separated (signed_text T.text) list.now)
        ++ codes "\n")) }
{
    plus(plus(kind.len() + 5, name.as_str().len()), list_len(list))
}

/// The length of an entry's line, with its newline. A length past the limit of a policy's text is
/// counted as one past the limit.
pub fn line_len(entry: &Entry) -> usize
    requires { IsEntry entry.now }
    ensures { result ≡ stopped (length (line_text entry.now)) }
{
    match entry {
        Entry::UserAlias(name, list) => alias_line_len("User_Alias", name, list.as_slice()),
        Entry::RunasAlias(name, list) => alias_line_len("Runas_Alias", name, list.as_slice()),
        Entry::HostAlias(name, list) => alias_line_len("Host_Alias", name, list.as_slice()),
        Entry::CmndAlias(name, list) => alias_line_len("Cmnd_Alias", name, list.as_slice()),
        Entry::Rule(rule) => rule_line_len(rule),
    }
}
