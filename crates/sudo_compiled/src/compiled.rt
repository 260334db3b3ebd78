//! Compiled policies, and what they decide.

ghost use Rattle.std.specs.Prelude.{◌≡◌, ◌++◌, ◌∷◌, [], List, IfOk, OnOk};
ghost use Rattle.std.specs.List.{AllByRecursion};
ghost use Rattle.sudo_policy.specs.declared.entry.Entry.{Entry as PolicyEntry};
ghost use Rattle.sudo_policy.specs.declared.entry.Entry.TheVariants as entries;
ghost use Rattle.sudo_decide.specs.declared.invocation.Invocation.{Invocation as Asked};
ghost use Rattle.sudo_decide.specs.Decision.{Decides, DecidesBy};
ghost use Rattle.sudo_compiled.specs.Compiled.{answer};
ghost use Rattle.sudo_compiled.specs.private.Writing.{Covers, CoversEntry, IsWritten};

use crate::aliases::Aliases;
use crate::among::decide_among;
use crate::kind::{Cmnds, Hosts, Targets, Users};
use crate::plain::PlainRule;
use crate::writing::written_out;
use std::alloc::Global;
use std::marker::Model;
use std::slice;
use sudo_decide::{Decision, Invocation};
use sudo_policy::{Entry, Policy, Rule};
use sudo_words::NoMemory;

/// A policy with its aliases written out, and with its own copies of all names and commands.
/// Contracts see a compiled policy as the list of its rules.
#[derive(Drop)]
pub struct Compiled {
    rules: Vec<PlainRule>,
}

impl Model for Compiled {
    ghost use Rattle.std.specs.Prelude.{List};
    ghost use Rattle.sudo_compiled.specs.declared.plain.PlainRule.{PlainRule as OneRule};

    ghost Value = { List OneRule };

    ghost view = { λ c. c.rules.items };
}

/// The rule with its aliases written out.
fn written_rule(alloc: Global, known: &Aliases, rule: &Rule) -> Result<PlainRule, NoMemory>
    ensures { IfOk result (λ w. (defined : List PolicyEntry)
        → Covers defined known.now rule.now → IsWritten defined rule.now w) }
{
    let users = written_out::<Users>(alloc, &known.users, rule.users.as_slice())?;
    let hosts = written_out::<Hosts>(alloc, &known.hosts, rule.hosts.as_slice())?;
    let runas = written_out::<Targets>(alloc, &known.runas, rule.runas.as_slice())?;
    let cmnds = written_out::<Cmnds>(alloc, &known.cmnds, slice::from_ref(&rule.cmnd))?;
    Ok(PlainRule {
        users,
        hosts,
        runas,
        not_before: rule.not_before,
        not_after: rule.not_after,
        tags: rule.tags,
        cmnds,
    })
}

/// Adds the entry's rule, if the entry is a rule. Rules that answered what some entries decide then
/// answer what those entries and this one decide.
fn push_rule(
    alloc: Global,
    rules: &mut Vec<PlainRule>,
    known: &Aliases,
    entry: &Entry,
) -> Result<(), NoMemory>
    ensures { OnOk result ((defined es : List PolicyEntry) (i : Asked)
        → CoversEntry defined known.now entry.now
        → DecidesBy defined es i (answer rules.old.items i)
        → DecidesBy defined (es ++ entry.now ∷ []) i (answer rules.new.items i)) }
{
    if let Entry::Rule(rule) = entry {
        rules.push(written_rule(alloc, known, rule)?)?;
    }
    Ok(())
}

/// The policy compiled: whatever is asked, it answers what the policy decides.
///
/// Every alias that a rule uses is written out, once, in the order of the entries: the items of the
/// alias's list take its place in order, each turned over where the alias is negated. So the
/// compiled rules have as many names and commands as the policy weighs: at most 131,072. Aliases
/// that no rule uses are left out, since their weight has no limit.
pub fn compile(alloc: Global, p: &Policy) -> Result<Compiled, NoMemory>
    ensures { IfOk result (λ c. (i : Asked) → Decides p.now i (answer c i)) }
{
    let known = Aliases::of(alloc, p.entries())?;
    let mut rules = Vec::with_capacity(alloc, p.entries().len())?;
    for entry in p.entries() {
        push_rule(alloc, &mut rules, &known, entry)?;
    }
    Ok(Compiled { rules })
}

/// Adds an entry's rule, as `push_rule` does, and frees the entry.
fn take_rule(
    alloc: Global,
    rules: &mut Vec<PlainRule>,
    known: &Aliases,
    entry: Entry,
) -> Result<(), NoMemory>
    ensures { OnOk result ((defined es : List PolicyEntry) (i : Asked)
        → CoversEntry defined known.now entry
        → DecidesBy defined es i (answer rules.old.items i)
        → DecidesBy defined (es ++ entry ∷ []) i (answer rules.new.items i)) }
{
    push_rule(alloc, rules, known, &entry)
}

/// Frees the room of entries that were taken out, once that room is half of the whole.
fn give_back(rest: &mut Vec<Entry>)
    ensures { rest.new.items ≡ rest.old.items }
{
    if rest.len() <= rest.capacity() / 2 {
        rest.shrink_to_fit();
    }
}

/// The rules of the entries. Each entry is freed once its rule is made.
fn rules_of(alloc: Global, known: &Aliases, entries: Vec<Entry>) -> Result<Vec<PlainRule>, NoMemory>
    ensures { IfOk result (λ rules. (defined : List PolicyEntry) (i : Asked)
        → AllByRecursion (CoversEntry defined known.now) entries.items
        → DecidesBy defined entries.items i (answer rules.items i)) }
{
    let mut rules = Vec::with_capacity(alloc, entries.len())?;
    let mut rest = entries;
    // Turned round, so that the first entry is popped first.
    rest.reverse();
    while let Some(entry) = rest.pop() {
        take_rule(alloc, &mut rules, known, entry)?;
        give_back(&mut rest);
    }
    Ok(rules)
}

/// The policy compiled, as `compile` compiles it. The policy is freed on the way, so that less
/// memory is used at once.
pub fn compile_owned(alloc: Global, p: Policy) -> Result<Compiled, NoMemory>
    ensures { IfOk result (λ c. (i : Asked) → Decides p i (answer c i)) }
{
    let known = Aliases::of(alloc, p.entries())?;
    let rules = rules_of(alloc, &known, p.into_entries())?;
    Ok(Compiled { rules })
}

impl Compiled {
    /// The rules of the compiled policy.
    pub fn rules(&self) -> &[PlainRule]
        ensures { result.now ≡ self.now }
    {
        &self.rules
    }

    /// What the compiled policy answers, as `decide_among` finds the answer in its rules. The
    /// search takes no memory.
    pub fn decide(&self, i: &Invocation) -> Decision
        ensures { result ≡ answer self.now i.now }
    {
        decide_among(&self.rules, i)
    }
}
