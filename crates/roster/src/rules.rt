//! Tests of a roster, once its texts are names: its duties and hosts, its conflicts, and its days,
//! numbers and lengths.

ghost use Rattle.std.specs.Prelude.{◌≡◌, ◌&&◌, IfOk, nat_le};
ghost use Rattle.std.specs.List.{list_all, list_any};
ghost use Rattle.std.specs.Str.{bytes_eq};
ghost use Rattle.roster.specs.private.LookupOrders.{AreTextsInOrder};
ghost use Rattle.sudo_words.specs.Lists.{IsEachOnce, text_order};
ghost use Rattle.roster.specs.Rules as rules;

use crate::ceiling::Ceiling;
use crate::content::Content;
use crate::days::Days;
use crate::draft::{Draft, DraftCeiling};
use crate::text::Text;
use std::alloc::AllocError;
use sudo_words::{Form, HostName, Items, Label, Name, Word, in_order, is_among};

/// The words, each once, in byte order; an error where memory runs out.
fn copy_in_order<F: Form + Clone>(words: &Items<Word<F>>) -> Result<Items<Word<F>>, AllocError>
    ensures { IfOk result (IsEachOnce text_order words.now) }
{
    Ok(Items::new(in_order(words.clone()?.into_vec())))
}

fn are_among<F: Form>(ordered: &[Word<F>], some: &[Word<F>]) -> bool
    requires { AreTextsInOrder ordered.now }
    ensures { result ≡ list_all (rules.is_among ordered.now) some.now }
{
    some.iter().all(|w| is_among(ordered, w))
}

fn knows_pairs(duties: &[Label], pairs: &[(Label, Label)]) -> bool
    requires { AreTextsInOrder duties.now }
    ensures { result ≡ list_all (rules.is_known_pair duties.now) pairs.now }
{
    pairs
        .iter()
        .all(|p| is_among(duties, &p.0) && is_among(duties, &p.1))
}

fn knows_entries(duties: &[Label], entries: &[(Label, Days)]) -> bool
    requires { AreTextsInOrder duties.now }
    ensures { result ≡ list_all (rules.is_known_entry duties.now) entries.now }
{
    entries.iter().all(|e| is_among(duties, &e.0))
}

fn knows_people(duties: &[Label], people: &[(Name, Items<(Label, Days)>)]) -> bool
    requires { AreTextsInOrder duties.now }
    ensures { result ≡ list_all (rules.is_known_person duties.now) people.now }
{
    people.iter().all(|p| knows_entries(duties, p.1.as_slice()))
}

fn knows_ceiling(duties: &[Label], hosts: &[HostName], ceiling: &(Label, Ceiling)) -> bool
    requires duties { AreTextsInOrder duties.now }
    requires hosts { AreTextsInOrder hosts.now }
    ensures { result ≡ rules.is_known_ceiling duties.now hosts.now ceiling.now }
{
    is_among(duties, &ceiling.1.ask)
        && is_among(duties, &ceiling.1.approve)
        && are_among(hosts, ceiling.1.hosts.as_slice())
}

fn knows_ceilings(duties: &[Label], hosts: &[HostName], ceilings: &[(Label, Ceiling)]) -> bool
    requires duties { AreTextsInOrder duties.now }
    requires hosts { AreTextsInOrder hosts.now }
    ensures { result ≡ list_all (rules.is_known_ceiling duties.now hosts.now) ceilings.now }
{
    ceilings.iter().all(|c| knows_ceiling(duties, hosts, c))
}

fn names_only(duties: &Items<Label>, hosts: &Items<HostName>, content: &Content) -> bool
    requires duties { AreTextsInOrder duties.now }
    requires hosts { AreTextsInOrder hosts.now }
    ensures { result ≡ rules.names_only duties.now hosts.now content.now }
{
    let duties = duties.as_slice();
    knows_pairs(duties, content.conflicts.as_slice())
        && knows_people(duties, content.people.as_slice())
        && knows_ceilings(duties, hosts.as_slice(), content.ceilings.as_slice())
}

/// Whether each duty that is named is one of the duties, and each host of a ceiling one of the
/// hosts; an error where memory runs out.
pub(crate) fn knows_names(content: &Content) -> Result<bool, AllocError>
    ensures { IfOk result (λ known. known ≡ rules.are_known content.now) }
{
    let duties = copy_in_order(&content.duties)?;
    let hosts = copy_in_order(&content.hosts)?;
    Ok(names_only(&duties, &hosts, content))
}

fn has_equal_pair(pairs: &[(Text, Text)]) -> bool
    ensures { result ≡ list_any (λ p. bytes_eq p.0 p.1) pairs.now }
{
    pairs.iter().any(|p| p.0.as_str() == p.1.as_str())
}

/// Whether a duty conflicts with itself.
#[tactic(auto, unfolding(crate::specs::Rules::has_self_conflict))]
pub(crate) fn has_self_conflict(draft: &Draft) -> bool
    ensures { result ≡ rules.has_self_conflict draft.now }
{
    has_equal_pair(draft.conflicts.as_slice())
}

fn is_between(least: usize, most: usize, n: usize) -> bool
    ensures { result ≡ rules.is_between least most n }
{
    least <= n && n <= most
}

fn is_up_to(most: usize, n: usize) -> bool
    ensures { result ≡ nat_le n most }
{
    n <= most
}

fn are_entries_ranged(entries: &[(Text, Days)]) -> bool
    ensures { result ≡ list_all rules.is_ranged_entry entries.now }
{
    entries.iter().all(|e| e.1.are_in_range())
}

fn is_person_ranged(person: &(Text, Items<(Text, Days)>)) -> bool
    ensures { result ≡ rules.is_ranged_person person.now }
{
    let entries = person.1.as_slice();
    is_up_to(256, entries.len()) && are_entries_ranged(entries)
}

fn are_people_ranged(people: &[(Text, Items<(Text, Days)>)]) -> bool
    ensures { result ≡ list_all rules.is_ranged_person people.now }
{
    people.iter().all(|p| is_person_ranged(p))
}

fn is_number_within(least: u64, most: u64, n: u64) -> bool
    ensures { result ≡ rules.is_between least most n }
{
    least <= n && n <= most
}

fn is_ranged(ceiling: &(Text, DraftCeiling)) -> bool
    ensures { result ≡ rules.is_ranged ceiling.now }
{
    is_number_within(1, 3, ceiling.1.needs)
        && is_between(1, 256, ceiling.1.hosts.as_slice().len())
        && is_between(1, 256, ceiling.1.runas.as_slice().len())
        && is_between(1, 256, ceiling.1.commands.as_slice().len())
        && is_number_within(1, 2_592_000, ceiling.1.longest)
}

fn are_ranged(ceilings: &[(Text, DraftCeiling)]) -> bool
    ensures { result ≡ list_all rules.is_ranged ceilings.now }
{
    ceilings.iter().all(|c| is_ranged(c))
}

fn has_list_counts(draft: &Draft) -> bool
    ensures { result ≡ rules.has_list_counts draft.now }
{
    is_between(1, 64, draft.relays.as_slice().len())
        && is_between(1, 1024, draft.hosts.as_slice().len())
        && is_up_to(256, draft.duties.as_slice().len())
        && is_up_to(4096, draft.conflicts.as_slice().len())
        && is_up_to(4096, draft.people.as_slice().len())
}

fn has_counts(draft: &Draft) -> bool
    ensures { result ≡ rules.has_counts draft.now }
{
    has_list_counts(draft) && are_people_ranged(draft.people.as_slice())
}

fn has_ceiling_counts(draft: &Draft) -> bool
    ensures { result ≡ rules.has_ceiling_counts draft.now }
{
    is_up_to(1024, draft.ceilings.as_slice().len()) && are_ranged(draft.ceilings.as_slice())
}

/// Whether each number, each entry's days, each list's length and the text's length are in range.
#[tactic(auto, unfolding(crate::specs::Rules::in_range))]
pub(crate) fn is_in_range(text: &str, draft: &Draft) -> bool
    ensures { result ≡ rules.in_range text.now draft.now }
{
    is_up_to(1_048_576, text.len()) && has_counts(draft) && has_ceiling_counts(draft)
}
