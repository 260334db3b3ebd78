//! The moments that are tried.

ghost use Rattle.std.specs.Prelude.{◌≡◌, ◌++◌, IfOk, OnOk};
ghost use Rattle.sudo_decide.specs.Reach.{rule_in, rules_in};
ghost use Rattle.sudo_beyond.specs.Cases.{AreMomentCases, moment_after, turns_of, turns};

use std::alloc::Global;
use sudo_policy::{Entry, Policy, Rule};
use sudo_words::{Items, Moment, NoMemory, in_order};

fn push_moment_after(moments: &mut Vec<Moment>, last: Option<Moment>) -> Result<(), NoMemory>
    ensures { OnOk result (moments.new.items ≡ moments.old.items ++ moment_after last) }
{
    let Some(last) = last else {
        return Ok(());
    };
    if let Some(next) = Moment::from_secs(last.secs() + 1) {
        moments.push(next)?;
    }
    Ok(())
}

fn push_turns_of(moments: &mut Vec<Moment>, rule: &Rule) -> Result<(), NoMemory>
    ensures { OnOk result (moments.new.items ≡ moments.old.items ++ turns_of rule.now) }
{
    if let Some(first) = rule.not_before {
        moments.push(first)?;
    }
    push_moment_after(moments, rule.not_after)
}

fn push_entry_turns(moments: &mut Vec<Moment>, entry: &Entry) -> Result<(), NoMemory>
    ensures { OnOk result (moments.new.items ≡ moments.old.items ++ turns (rule_in entry.now)) }
{
    match entry {
        Entry::Rule(rule) => push_turns_of(moments, rule),
        _ => Ok(()),
    }
}

pub fn push_turns(moments: &mut Vec<Moment>, p: &Policy) -> Result<(), NoMemory>
    ensures { OnOk result (moments.new.items ≡ moments.old.items ++ turns (rules_in p.now)) }
{
    for entry in p.entries() {
        push_entry_turns(moments, entry)?;
    }
    Ok(())
}

/// The first moment of all, each moment at which a rule begins to take part, and the moment after
/// each rule's last.
pub fn moment_cases(alloc: Global, a: &Policy, b: &Policy) -> Result<Items<Moment>, NoMemory>
    ensures { IfOk result (λ cases. AreMomentCases (rules_in a.now ++ rules_in b.now) cases) }
{
    let mut moments = Vec::new(alloc);
    let Some(first) = Moment::from_secs(0) else {
        unreachable!()
    };
    moments.push(first)?;
    push_turns(&mut moments, a)?;
    push_turns(&mut moments, b)?;
    Ok(Items::new(in_order(moments)))
}
