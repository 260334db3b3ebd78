//! Policies with further rules after them.

ghost use Rattle.std.specs.Prelude.{◌≡◌, ◌⊎◌, [], ◌++◌, IfOk, IfErr};
ghost use Rattle.std.specs.Prelude.{OnOk, MatchResult, map, reverse};
ghost use Rattle.std.specs.List.{AllByRecursion};
ghost use Rattle.sudo_policy.specs.declared.entry.Entry.TheVariants as entries;
ghost use Rattle.sudo_policy.specs.declared.fault.FaultKind.TheVariants as kind;
ghost use Rattle.sudo_policy.specs.Policy.{IsPolicy, IsRule, KnowsRule};
ghost use Rattle.sudo_policy.specs.Reading as reading;
ghost use Rattle.sudo_policy.specs.private.AliasKinds.{Adds, IsDraft};
ghost use Rattle.sudo_policy.specs.declared.fault.LineFault.TheVariants as fault;

use crate::draft::Draft;
use crate::entry::{Entry, Rule};
use crate::fault::{FaultKind, LineFault, ReadFault};
use crate::policy::Policy;
use std::alloc::Global;

/// Adds the policy's entries to a draft that has none.
fn add_base(alloc: Global, draft: &mut Draft, base: &Policy) -> Result<(), LineFault>
    requires draft { IsDraft draft.old }
    requires none { draft.old.entries.items ≡ [] }
    ensures found { OnOk result (IsDraft draft.new × (draft.new.entries.items ≡ base.now)) }
    ensures only { IfErr result (λ e. e ≡ fault.NoMemory) }
{
    for entry in base.entries() {
        draft.add(alloc, entry.clone()?)?;
    }
    Ok(())
}

/// Adds these rules.
fn add_rules(alloc: Global, draft: &mut Draft, rules: Vec<Rule>) -> Result<(), LineFault>
    requires draft { IsDraft draft.old }
    requires rules { AllByRecursion IsRule rules.items }
    ensures found { OnOk result (Adds draft.old draft.new (map entries.Rule rules.items)) }
    ensures only { IsPolicy (draft.old.entries.items ++ map entries.Rule rules.items)
        → IfErr result (λ e. e ≡ fault.NoMemory) }
{
    for rule in rules {
        draft.add(alloc, Entry::Rule(rule))?;
    }
    Ok(())
}

/// Why rules whose aliases are all known were not added.
fn limit_of(line_fault: LineFault) -> LineFault
    ensures memory { line_fault ≡ fault.NoMemory → result ≡ fault.NoMemory }
    ensures limit { (result ≡ fault.TooLarge) ⊎ (result ≡ fault.NoMemory) }
{
    match line_fault {
        LineFault::NoMemory => LineFault::NoMemory,
        _ => LineFault::TooLarge,
    }
}

/// A fault of the whole: there is no text, so the line is 0.
fn without_line(line_fault: LineFault) -> ReadFault
    ensures { result ≡ record { line = 0; kind = kind.Line line_fault } }
{
    ReadFault {
        line: 0,
        kind: FaultKind::Line(line_fault),
    }
}

/// Adds the policy's entries and these rules to a draft that has none.
fn add_both(
    alloc: Global,
    draft: &mut Draft,
    base: &Policy,
    rules: Vec<Rule>,
) -> Result<(), LineFault>
    requires draft { IsDraft draft.old }
    requires none { draft.old.entries.items ≡ [] }
    requires rules { AllByRecursion IsRule rules.items }
    ensures found { OnOk result
        (IsDraft draft.new × (draft.new.entries.items ≡ reading.with_rules base.now rules.items)) }
    ensures only { IsPolicy (reading.with_rules base.now rules.items)
        → IfErr result (λ e. e ≡ fault.NoMemory) }
{
    add_base(alloc, draft, base)?;
    add_rules(alloc, draft, rules)
}

/// The policy with these rules after its entries.
///
/// Fails with `UnknownAlias` if a rule uses an alias that the base lacks, else with `TooLarge` if
/// the whole is past a limit, and with `NoMemory` if memory runs out. There is no text, so the line
/// is 0.
pub fn extend(alloc: Global, base: &Policy, rules: Vec<Rule>) -> Result<Policy, ReadFault>
    requires { AllByRecursion IsRule rules.items }
    ensures found { IfOk result (λ p. p ≡ reading.with_rules base.now rules.items) }
    ensures only { IsPolicy (reading.with_rules base.now rules.items) → MatchResult result
        (λ p. p ≡ reading.with_rules base.now rules.items)
        (λ f. f.kind ≡ kind.Line fault.NoMemory) }
    ensures line { IfErr result (λ f. f.line ≡ 0) }
    ensures unknown { ¬ AllByRecursion (KnowsRule (reverse base.now)) rules.items
        → IfErr result (λ f. (f.kind ≡ kind.Line fault.UnknownAlias)
        ⊎ (f.kind ≡ kind.Line fault.NoMemory)) }
    ensures kind { AllByRecursion (KnowsRule (reverse base.now)) rules.items
        → IfErr result (λ f. (f.kind ≡ kind.Line fault.TooLarge)
        ⊎ (f.kind ≡ kind.Line fault.NoMemory)) }
{
    if !base.knows(&rules) {
        return Err(without_line(LineFault::UnknownAlias));
    }
    let mut draft = Draft::new(alloc);
    match add_both(alloc, &mut draft, base, rules) {
        Ok(()) => Ok(Policy::of(draft)),
        Err(fault) => Err(without_line(limit_of(fault))),
    }
}
