//! The entries of a line, added to a draft.

ghost use Rattle.std.specs.Prelude.{◌≡◌, ◌++◌, ◌∷◌, [], IfOk, IfErr, OnOk, fold, map, unwrap_or};
ghost use Rattle.std.specs.List.{AllByRecursion, flat_map};
ghost use Rattle.sudo_policy.specs.declared.entry.Entry.TheVariants as entries;
ghost use Rattle.sudo_policy.specs.declared.fault.LineFault.TheVariants as fault;
ghost use Rattle.sudo_policy.specs.Inheritance as inheritance;
ghost use Rattle.sudo_policy.specs.Policy.{IsEntry, IsPolicy};
ghost use Rattle.sudo_policy.specs.private.AliasKinds.{Adds, IsDraft};

use std::alloc::{AllocError, Global};
use sudo_policy::{
    CmndItem, CmndSpec, Definition, Draft, Entry, Item, Line, LineFault, Part, Rule, Settings,
    Signed, Tags, copy_lists, copy_names,
};
use sudo_words::{HostName, Items, Name};

/// The targets where a command gives none and inherits none: `root` alone.
fn root(alloc: Global) -> Result<Items<Signed<Item<Name>>>, LineFault>
    ensures found { IfOk result (λ x. x ≡ inheritance.root) }
    ensures only { IfErr result (λ e. e ≡ fault.NoMemory) }
{
    // `root` is a name, so if it is not read, memory ran out.
    let Ok(name) = Name::read(alloc, "root") else {
        return Err(LineFault::NoMemory);
    };
    let mut items = Vec::new(alloc);
    items.push(Signed {
        negated: false,
        item: Item::Name(name),
    })?;
    Ok(Items::new(items))
}

/// The settings before the first command of a list.
fn first_settings(alloc: Global) -> Result<Settings, LineFault>
    ensures found { IfOk result (λ x. x ≡ inheritance.first_settings) }
    ensures only { IfErr result (λ e. e ≡ fault.NoMemory) }
{
    Ok(Settings {
        runas: root(alloc)?,
        not_before: None,
        not_after: None,
        tags: Tags::none(),
    })
}

/// The settings after a command, and the command.
fn with_spec(held: Settings, spec: CmndSpec) -> (Settings, Signed<CmndItem>)
    ensures settings { result.0 ≡ inheritance.with_spec held spec }
    ensures cmnd { result.1 ≡ spec.cmnd }
{
    let settings = Settings {
        runas: spec.runas.unwrap_or(held.runas),
        not_before: spec.not_before.or(held.not_before),
        not_after: spec.not_after.or(held.not_after),
        tags: held.tags.with(spec.tags),
    };
    (settings, spec.cmnd)
}

/// The rule of a command under these settings, with copies of the lists.
fn copy_rule(
    users: &Items<Signed<Item<Name>>>,
    hosts: &Items<Signed<Item<HostName>>>,
    held: &Settings,
    cmnd: Signed<CmndItem>,
) -> Result<Rule, AllocError>
    ensures { IfOk result (λ x. x ≡ inheritance.rule_with users.now hosts.now held.now cmnd) }
{
    let (users, hosts, runas) = copy_lists(users, hosts, &held.runas)?;
    Ok(Rule {
        users,
        hosts,
        runas,
        not_before: held.not_before,
        not_after: held.not_after,
        tags: held.tags,
        cmnd,
    })
}

/// The rule of a command under these settings, which takes the lists.
fn rule_with(
    users: Items<Signed<Item<Name>>>,
    hosts: Items<Signed<Item<HostName>>>,
    held: Settings,
    cmnd: Signed<CmndItem>,
) -> Rule
    ensures { result ≡ inheritance.rule_with users hosts held cmnd }
{
    Rule {
        users,
        hosts,
        runas: held.runas,
        not_before: held.not_before,
        not_after: held.not_after,
        tags: held.tags,
        cmnd,
    }
}

/// The targets that a command gives, or `root` where it gives none.
fn targets_of(
    alloc: Global,
    given: Option<Items<Signed<Item<Name>>>>,
) -> Result<Items<Signed<Item<Name>>>, LineFault>
    ensures found { IfOk result (λ x. x ≡ unwrap_or given inheritance.root) }
    ensures only { IfErr result (λ e. e ≡ fault.NoMemory) }
{
    match given {
        Some(runas) => Ok(runas),
        None => root(alloc),
    }
}

/// The settings after the first command of a list, and the command. `root` is made only if the
/// command gives no target.
fn first_spec(alloc: Global, spec: CmndSpec) -> Result<(Settings, Signed<CmndItem>), LineFault>
    ensures found { IfOk result
        (λ x. (x.0 ≡ inheritance.with_spec inheritance.first_settings spec) × (x.1 ≡ spec.cmnd)) }
    ensures only { IfErr result (λ e. e ≡ fault.NoMemory) }
{
    let CmndSpec {
        runas,
        not_before,
        not_after,
        tags,
        cmnd,
    } = spec;
    let settings = Settings {
        runas: targets_of(alloc, runas)?,
        not_before,
        not_after,
        tags: Tags::none().with(tags),
    };
    Ok((settings, cmnd))
}

/// Adds the rule of a command that is alone in its list.
fn add_only(
    alloc: Global,
    draft: &mut Draft,
    users: Items<Signed<Item<Name>>>,
    hosts: Items<Signed<Item<HostName>>>,
    spec: CmndSpec,
) -> Result<(), LineFault>
    requires draft { IsDraft draft.old }
    requires entries { AllByRecursion IsEntry
        (inheritance.rules_of users hosts inheritance.first_settings (spec ∷ [])) }
    ensures found { OnOk result (Adds draft.old draft.new
        (inheritance.rules_of users hosts inheritance.first_settings (spec ∷ []))) }
    ensures only { IsPolicy (draft.old.entries.items ++ inheritance.rules_of users hosts
        inheritance.first_settings (spec ∷ [])) → IfErr result (λ e. e ≡ fault.NoMemory) }
{
    let (settings, cmnd) = first_spec(alloc, spec)?;
    draft.add(alloc, Entry::Rule(rule_with(users, hosts, settings, cmnd)))
}

/// Adds the rule of a command, with copies of the lists, where these settings hold before it, and
/// returns the settings after it.
fn add_copy(
    alloc: Global,
    draft: &mut Draft,
    users: &Items<Signed<Item<Name>>>,
    hosts: &Items<Signed<Item<HostName>>>,
    held: Settings,
    spec: CmndSpec,
) -> Result<Settings, LineFault>
    requires draft { IsDraft draft.old }
    requires entries { AllByRecursion IsEntry
        (inheritance.rules_of users.now hosts.now held (spec ∷ [])) }
    ensures found { OnOk result
        (Adds draft.old draft.new (inheritance.rules_of users.now hosts.now held (spec ∷ []))) }
    ensures after { IfOk result (λ x. x ≡ inheritance.with_spec held spec) }
    ensures only { IsPolicy (draft.old.entries.items ++ inheritance.rules_of users.now
        hosts.now held (spec ∷ [])) → IfErr result (λ e. e ≡ fault.NoMemory) }
{
    let (settings, cmnd) = with_spec(held, spec);
    let rule = copy_rule(users, hosts, &settings, cmnd)?;
    draft.add(alloc, Entry::Rule(rule))?;
    Ok(settings)
}

/// Adds one rule for each command before the last, and returns the settings after them. Each rule
/// is added before the next is made, so that the limits of a policy bound what is copied.
fn add_front(
    alloc: Global,
    draft: &mut Draft,
    users: &Items<Signed<Item<Name>>>,
    hosts: &Items<Signed<Item<HostName>>>,
    front: Vec<CmndSpec>,
) -> Result<Settings, LineFault>
    requires draft { IsDraft draft.old }
    requires entries { AllByRecursion IsEntry
        (inheritance.rules_of users.now hosts.now inheritance.first_settings front.items) }
    ensures found { OnOk result (Adds draft.old draft.new
        (inheritance.rules_of users.now hosts.now inheritance.first_settings front.items)) }
    ensures after { IfOk result
        (λ x. x ≡ fold inheritance.with_spec inheritance.first_settings front.items) }
    ensures only { IsPolicy (draft.old.entries.items ++ inheritance.rules_of users.now hosts.now
        inheritance.first_settings front.items) → IfErr result (λ e. e ≡ fault.NoMemory) }
{
    let mut held = first_settings(alloc)?;
    for spec in front {
        held = add_copy(alloc, draft, users, hosts, held, spec)?;
    }
    Ok(held)
}

/// Adds the rule of the last command of a list, where these settings hold before the command. The
/// rule takes the lists.
fn add_last(
    alloc: Global,
    draft: &mut Draft,
    users: Items<Signed<Item<Name>>>,
    hosts: Items<Signed<Item<HostName>>>,
    held: Settings,
    spec: CmndSpec,
) -> Result<(), LineFault>
    requires draft { IsDraft draft.old }
    requires entries { AllByRecursion IsEntry (inheritance.rules_of users hosts held (spec ∷ [])) }
    ensures found { OnOk result
        (Adds draft.old draft.new (inheritance.rules_of users hosts held (spec ∷ []))) }
    ensures only { IsPolicy (draft.old.entries.items ++ inheritance.rules_of users hosts held
        (spec ∷ [])) → IfErr result (λ e. e ≡ fault.NoMemory) }
{
    let (settings, cmnd) = with_spec(held, spec);
    draft.add(alloc, Entry::Rule(rule_with(users, hosts, settings, cmnd)))
}

/// Adds one rule for each command, the last of which takes the lists.
fn add_specs(
    alloc: Global,
    draft: &mut Draft,
    users: Items<Signed<Item<Name>>>,
    hosts: Items<Signed<Item<HostName>>>,
    specs: Vec<CmndSpec>,
) -> Result<(), LineFault>
    requires draft { IsDraft draft.old }
    requires entries { AllByRecursion IsEntry
        (inheritance.rules_of users hosts inheritance.first_settings specs.items) }
    ensures found { OnOk result (Adds draft.old draft.new
        (inheritance.rules_of users hosts inheritance.first_settings specs.items)) }
    ensures only { IsPolicy (draft.old.entries.items ++ inheritance.rules_of users hosts
        inheritance.first_settings specs.items) → IfErr result (λ e. e ≡ fault.NoMemory) }
{
    let mut front = specs;
    let Some(last) = front.pop() else {
        return Ok(());
    };
    if front.is_empty() {
        return add_only(alloc, draft, users, hosts, last);
    }
    let held = add_front(alloc, draft, &users, &hosts, front)?;
    add_last(alloc, draft, users, hosts, held, last)
}

/// Adds the rules of a part, with a copy of the users.
fn add_part(
    alloc: Global,
    draft: &mut Draft,
    users: &Items<Signed<Item<Name>>>,
    part: Part,
) -> Result<(), LineFault>
    requires draft { IsDraft draft.old }
    requires entries { AllByRecursion IsEntry (inheritance.part_rules users.now part) }
    ensures found { OnOk result (Adds draft.old draft.new (inheritance.part_rules users.now part)) }
    ensures only { IsPolicy (draft.old.entries.items ++ inheritance.part_rules users.now part)
        → IfErr result (λ e. e ≡ fault.NoMemory) }
{
    let users = copy_names(users)?;
    let Part { hosts, specs } = part;
    add_specs(alloc, draft, users, hosts, specs.into_vec())
}

/// Adds the rules of each part before the last, with copies of the users.
fn add_front_parts(
    alloc: Global,
    draft: &mut Draft,
    users: &Items<Signed<Item<Name>>>,
    front: Vec<Part>,
) -> Result<(), LineFault>
    requires draft { IsDraft draft.old }
    requires entries { AllByRecursion IsEntry
        (flat_map (inheritance.part_rules users.now) front.items) }
    ensures found { OnOk result
        (Adds draft.old draft.new (flat_map (inheritance.part_rules users.now) front.items)) }
    ensures only { IsPolicy (draft.old.entries.items ++ flat_map (inheritance.part_rules users.now)
        front.items) → IfErr result (λ e. e ≡ fault.NoMemory) }
{
    for part in front {
        add_part(alloc, draft, users, part)?;
    }
    Ok(())
}

/// Adds the rules of each part, the last of which takes the users.
fn add_parts(
    alloc: Global,
    draft: &mut Draft,
    users: Items<Signed<Item<Name>>>,
    parts: Vec<Part>,
) -> Result<(), LineFault>
    requires draft { IsDraft draft.old }
    requires entries { AllByRecursion IsEntry
        (flat_map (inheritance.part_rules users) parts.items) }
    ensures found { OnOk result
        (Adds draft.old draft.new (flat_map (inheritance.part_rules users) parts.items)) }
    ensures only { IsPolicy (draft.old.entries.items ++ flat_map (inheritance.part_rules users)
        parts.items) → IfErr result (λ e. e ≡ fault.NoMemory) }
{
    let mut front = parts;
    let Some(last) = front.pop() else {
        return Ok(());
    };
    add_front_parts(alloc, draft, &users, front)?;
    let Part { hosts, specs } = last;
    add_specs(alloc, draft, users, hosts, specs.into_vec())
}

/// Adds the definitions of users' aliases.
fn add_users(
    alloc: Global,
    draft: &mut Draft,
    defs: Vec<Definition<Item<Name>>>,
) -> Result<(), LineFault>
    requires draft { IsDraft draft.old }
    requires entries { AllByRecursion IsEntry
        (map (λ d. entries.UserAlias d.name d.list) defs.items) }
    ensures found { OnOk result
        (Adds draft.old draft.new (map (λ d. entries.UserAlias d.name d.list) defs.items)) }
    ensures only { IsPolicy (draft.old.entries.items ++ map (λ d. entries.UserAlias d.name d.list)
        defs.items) → IfErr result (λ e. e ≡ fault.NoMemory) }
{
    for def in defs {
        draft.add(alloc, Entry::UserAlias(def.name, def.list))?;
    }
    Ok(())
}

/// Adds the definitions of targets' aliases.
fn add_runas(
    alloc: Global,
    draft: &mut Draft,
    defs: Vec<Definition<Item<Name>>>,
) -> Result<(), LineFault>
    requires draft { IsDraft draft.old }
    requires entries { AllByRecursion IsEntry
        (map (λ d. entries.RunasAlias d.name d.list) defs.items) }
    ensures found { OnOk result
        (Adds draft.old draft.new (map (λ d. entries.RunasAlias d.name d.list) defs.items)) }
    ensures only { IsPolicy (draft.old.entries.items ++ map (λ d. entries.RunasAlias d.name d.list)
        defs.items) → IfErr result (λ e. e ≡ fault.NoMemory) }
{
    for def in defs {
        draft.add(alloc, Entry::RunasAlias(def.name, def.list))?;
    }
    Ok(())
}

/// Adds the definitions of hosts' aliases.
fn add_hosts(
    alloc: Global,
    draft: &mut Draft,
    defs: Vec<Definition<Item<HostName>>>,
) -> Result<(), LineFault>
    requires draft { IsDraft draft.old }
    requires entries { AllByRecursion IsEntry
        (map (λ d. entries.HostAlias d.name d.list) defs.items) }
    ensures found { OnOk result
        (Adds draft.old draft.new (map (λ d. entries.HostAlias d.name d.list) defs.items)) }
    ensures only { IsPolicy (draft.old.entries.items ++ map (λ d. entries.HostAlias d.name d.list)
        defs.items) → IfErr result (λ e. e ≡ fault.NoMemory) }
{
    for def in defs {
        draft.add(alloc, Entry::HostAlias(def.name, def.list))?;
    }
    Ok(())
}

/// Adds the definitions of commands' aliases.
fn add_cmnds(
    alloc: Global,
    draft: &mut Draft,
    defs: Vec<Definition<CmndItem>>,
) -> Result<(), LineFault>
    requires draft { IsDraft draft.old }
    requires entries { AllByRecursion IsEntry
        (map (λ d. entries.CmndAlias d.name d.list) defs.items) }
    ensures found { OnOk result
        (Adds draft.old draft.new (map (λ d. entries.CmndAlias d.name d.list) defs.items)) }
    ensures only { IsPolicy (draft.old.entries.items ++ map (λ d. entries.CmndAlias d.name d.list)
        defs.items) → IfErr result (λ e. e ≡ fault.NoMemory) }
{
    for def in defs {
        draft.add(alloc, Entry::CmndAlias(def.name, def.list))?;
    }
    Ok(())
}

/// Adds a line's entries.
pub(crate) fn add_line(alloc: Global, draft: &mut Draft, line: Line) -> Result<(), LineFault>
    requires draft { IsDraft draft.old }
    requires entries { AllByRecursion IsEntry (inheritance.entries_of line) }
    ensures found { OnOk result (Adds draft.old draft.new (inheritance.entries_of line)) }
    ensures only { IsPolicy (draft.old.entries.items ++ inheritance.entries_of line)
        → IfErr result (λ e. e ≡ fault.NoMemory) }
{
    match line {
        Line::Users(defs) => add_users(alloc, draft, defs.into_vec()),
        Line::Runas(defs) => add_runas(alloc, draft, defs.into_vec()),
        Line::Hosts(defs) => add_hosts(alloc, draft, defs.into_vec()),
        Line::Cmnds(defs) => add_cmnds(alloc, draft, defs.into_vec()),
        Line::UserSpec(users, parts) => add_parts(alloc, draft, users, parts.into_vec()),
    }
}
