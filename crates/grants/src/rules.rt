//! The rules that a request gives a host.

ghost use Rattle.std.specs.Prelude.{◌≡◌, IfOk, List, map, false};
ghost use Rattle.std.specs.List.{AllByRecursion};
ghost use Rattle.sudo_policy.specs.declared.entry.Item.TheVariants as items;
ghost use Rattle.sudo_policy.specs.declared.entry.CmndItem.TheVariants as cmnds;
ghost use Rattle.messages.specs.declared.message.Message.{Message as AnyMessage};
ghost use Rattle.grants.specs.private.Given.{EndsInTime};
ghost use Rattle.grants.specs.GrantRules as given;
ghost use Rattle.grants.specs.GrantRules.{AreGiven, AreRules, IsGrantRule, grant_rule, one};
ghost use Rattle.grants.specs.Summaries.{StandsFor};

use crate::outcome::{Status, Window};
use crate::request_status::status;
use crate::summary::Summary;
use messages::Request;
use roster::Roster;
use std::alloc::Global;
use sudo_policy::{CmndItem, Item, Rule, Signed, Tags};
use sudo_words::{Cmnd, HostName, Items, Name, NoMemory};

fn one_name(alloc: Global, name: &Name) -> Result<Items<Signed<Item<Name>>>, NoMemory>
    ensures { IfOk result (λ x. x ≡ one (items.Name name.now)) }
{
    let mut list = Vec::new(alloc);
    list.push(Signed {
        negated: false,
        item: Item::Name(name.clone()?),
    })?;
    Ok(Items::new(list))
}

fn one_host(alloc: Global, host: &HostName) -> Result<Items<Signed<Item<HostName>>>, NoMemory>
    ensures { IfOk result (λ x. x ≡ one (items.Name host.now)) }
{
    let mut list = Vec::new(alloc);
    list.push(Signed {
        negated: false,
        item: Item::Name(host.clone()?),
    })?;
    Ok(Items::new(list))
}

fn granted_cmnd(cmnd: &Cmnd) -> Result<Signed<CmndItem>, NoMemory>
    ensures { IfOk result (λ x. x ≡ record { negated = false; item = cmnds.Cmnd cmnd.now }) }
{
    Ok(Signed {
        negated: false,
        item: CmndItem::Cmnd(cmnd.clone()?),
    })
}

/// The rule of one command of a request.
fn rule_of(
    alloc: Global,
    host: &HostName,
    request: &Request,
    window: Window,
    cmnd: &Cmnd,
) -> Result<Rule, NoMemory>
    ensures { IfOk result
        (λ r. r ≡ grant_rule host.now request.now window.start window.end cmnd.now) }
{
    Ok(Rule {
        users: one_name(alloc, request.by())?,
        hosts: one_host(alloc, host)?,
        runas: one_name(alloc, request.runas())?,
        not_before: Some(window.start),
        not_after: Some(window.end),
        tags: Tags::none(),
        cmnd: granted_cmnd(cmnd)?,
    })
}

/// The rules that a request gives a host while it is in force within the window: one for each of
/// its commands, in order.
pub fn grant_rules(
    alloc: Global,
    host: &HostName,
    request: &Request,
    window: Window,
) -> Result<Vec<Rule>, NoMemory>
    ensures { IfOk result (λ v.
        v.items ≡ map (grant_rule host.now request.now window.start window.end) request.now.cmnds) }
{
    let mut rules = Vec::new(alloc);
    for cmnd in request.cmnds() {
        rules.push(rule_of(alloc, host, request, window, cmnd)?)?;
    }
    Ok(rules)
}

/// The rules of `grant_rules` if the request names the host and is granted, and none otherwise.
fn rules_for(
    alloc: Global,
    host: &HostName,
    request: &Request,
    status: Status,
) -> Result<Vec<Rule>, NoMemory>
    ensures rules { IfOk result (λ v. v.items ≡ given.rules_for host.now request.now status) }
    ensures grants { EndsInTime request.now status
        → IfOk result (λ v. AllByRecursion IsGrantRule v.items) }
{
    match status {
        Status::Granted(window) if request.hosts().contains(host) => {
            grant_rules(alloc, host, request, window)
        }
        _ => Ok(Vec::new(alloc)),
    }
}

/// The rules that the request gives the host under this roster: one for each of its commands, in
/// its order, if it names the host and is granted, and none otherwise.
pub fn rules_of(
    alloc: Global,
    roster: &Roster,
    s: &Summary,
    host: &HostName,
) -> Result<Vec<Rule>, NoMemory>
    // The rules are those of each set that the summary stands for.
    ensures rules { (set : List AnyMessage) → StandsFor set s.now
        → IfOk result (λ v. AreRules roster.now.says set s.now.request host.now v.items) }
    // The rules follow from the status that each such set gives the request.
    ensures given { (set : List AnyMessage) → StandsFor set s.now
        → IfOk result (λ v. AreGiven roster.now.says set s.now.request host.now v.items) }
    // The rules may stand after a base.
    ensures grants { (set : List AnyMessage) → StandsFor set s.now
        → IfOk result (λ v. AllByRecursion IsGrantRule v.items) }
{
    rules_for(alloc, host, &s.request, status(roster, s))
}
