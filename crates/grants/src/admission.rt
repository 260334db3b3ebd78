//! Admission: what the roster lets a message ask for.

ghost use Rattle.std.specs.Prelude.{◌≡◌, false, ◌↔◌, ◌+◌, ◌<◌, ◌⊎◌, IsOk, IsTrue, MatchResult, All};
ghost use Rattle.std.specs.List.{list_all, list_any};
ghost use Rattle.sudo_words.specs.Command.{IsLawful};
ghost use Rattle.sudo_words.specs.declared.cmnd.Cmnd.TheVariants as cmnds;
ghost use Rattle.messages.specs.declared.message.Message.TheVariants as message_of;
ghost use Rattle.roster.specs.Rules.{is_among};
ghost use Rattle.grants.specs.Admission.{Admits, AdmitsRequest, AdmitsVerdict};
ghost use Rattle.grants.specs.Admission.{IsDenial, MayAskUnder};
ghost use Rattle.grants.specs.private.Forms as forms;
ghost use Rattle.grants.specs.declared.denial.Denial.{Denial as AnyDenial};

use crate::denial::Denial;
use crate::within::dir_of;
use messages::{Message, Request, Verdict};
use roster::{Ceiling, Roster};
use sudo_words::{ArgRule, Cmnd, FilePath};

/// The ceiling that the request names, if the asker is listed and may ask under it at the request's
/// own moment; otherwise the first denial that applies.
fn ceiling_for<'r>(roster: &'r Roster, request: &Request) -> Result<&'r Ceiling, Denial>
    ensures { MatchResult result
        (λ c. MayAskUnder roster.now.says request.now c.now)
        (IsDenial roster.now.says (message_of.Request request.now)) }
{
    if !roster.has_person(request.by()) {
        return Err(Denial::UnknownPerson);
    }
    let Some(ceiling) = roster.ceiling(request.ceiling()) else {
        return Err(Denial::UnknownCeiling);
    };
    if !roster.holds(request.by(), ceiling.ask(), request.at()) {
        return Err(Denial::NotAsker);
    }
    Ok(ceiling)
}

/// Whether each host is among the ceiling's hosts.
fn hosts_inside(request: &Request, ceiling: &Ceiling) -> bool
    ensures { result ≡ list_all (is_among ceiling.now.hosts) request.now.hosts }
{
    request
        .hosts()
        .iter()
        .all(|host| ceiling.hosts().contains(host))
}

/// Whether the target is among the ceiling's targets.
fn target_inside(request: &Request, ceiling: &Ceiling) -> bool
    ensures { result ≡ is_among ceiling.now.runas request.now.runas }
{
    ceiling.runas().contains(request.runas())
}

fn is_all(cmnd: &Cmnd) -> bool
    ensures { result ≡ forms.is_all cmnd.now }
{
    match cmnd {
        Cmnd::All => true,
        _ => false,
    }
}

/// Whether `ALL` is one of the ceiling's commands.
fn holds_all(ceiling: &Ceiling) -> bool
    ensures value { result ≡ list_any forms.is_all ceiling.now.commands }
    ensures lawful { All IsLawful ceiling.now.commands }
{
    ceiling.commands().iter().any(|c| is_all(c))
}

/// Whether the file with the rule lies inside one of the ceiling's commands: the file's directory,
/// or the file itself with any arguments or with the same rule.
fn holds_file(file: &FilePath, rule: &ArgRule, ceiling: &Ceiling) -> bool
    requires lawful { All IsLawful ceiling.now.commands }
    requires no_all { list_any forms.is_all ceiling.now.commands ≡ false }
    ensures { result
        ≡ list_any (forms.is_inside (cmnds.Path file.now rule.now)) ceiling.now.commands }
{
    let dir = dir_of(file.as_str().as_bytes());
    if ceiling.has_dir(dir) {
        return true;
    }
    if ceiling.has_file(file, &ArgRule::Any) {
        return true;
    }
    ceiling.has_file(file, rule)
}

/// Whether the command lies inside one of the ceiling's. Each command that it can lie inside is
/// looked up.
fn lies_inside_one(cmnd: &Cmnd, ceiling: &Ceiling) -> bool
    requires lawful { All IsLawful ceiling.now.commands }
    requires no_all { list_any forms.is_all ceiling.now.commands ≡ false }
    ensures { result ≡ list_any (forms.is_inside cmnd.now) ceiling.now.commands }
{
    match cmnd {
        Cmnd::All => false,
        Cmnd::Dir(dir) => ceiling.has_dir(dir.as_str().as_bytes()),
        Cmnd::Path(file, rule) => holds_file(file, rule, ceiling),
    }
}

/// Whether each command lies inside one of the ceiling's.
fn commands_inside(request: &Request, ceiling: &Ceiling) -> bool
    ensures value { result
        ≡ list_all (λ k. list_any (forms.is_inside k) ceiling.now.commands) request.now.cmnds }
    ensures lawful { All IsLawful request.now.cmnds }
    ensures lawful_ceiling { All IsLawful ceiling.now.commands }
{
    let cmnds = request.cmnds();
    if holds_all(ceiling) {
        return true;
    }
    cmnds.iter().all(|cmnd| lies_inside_one(cmnd, ceiling))
}

/// Whether the window is longer than the ceiling's longest.
fn is_too_long(request: &Request, ceiling: &Ceiling) -> bool
    ensures { IsTrue result ↔ (request.now.from + ceiling.now.longest < request.now.until) }
{
    let length = request.until().secs().saturating_sub(request.from().secs());
    length > ceiling.longest()
}

/// Whether the window begins before the request was made, or ends before it begins.
fn is_backwards(request: &Request) -> bool
    ensures { IsTrue result
        ↔ ((request.now.from < request.now.at) ⊎ (request.now.until < request.now.from)) }
{
    request.from() < request.at() || request.until() < request.from()
}

/// Admits the request, or answers the first denial that applies to it. It takes no memory.
pub(crate) fn admit_request(roster: &Roster, request: &Request) -> Result<(), Denial>
    ensures { MatchResult result
        (λ _. AdmitsRequest roster.now.says request.now)
        (IsDenial roster.now.says (message_of.Request request.now)) }
{
    let ceiling = ceiling_for(roster, request)?;
    if !hosts_inside(request, ceiling) {
        return Err(Denial::HostOutside);
    }
    if !target_inside(request, ceiling) {
        return Err(Denial::RunasOutside);
    }
    if !commands_inside(request, ceiling) {
        return Err(Denial::CommandOutside);
    }
    if is_too_long(request, ceiling) {
        return Err(Denial::WindowTooLong);
    }
    if is_backwards(request) {
        return Err(Denial::WindowBackwards);
    }
    Ok(())
}

/// Admits the verdict, if the roster lists the person who gives it and the person who asked.
fn admit_verdict(roster: &Roster, verdict: &Verdict) -> Result<(), Denial>
    ensures { MatchResult result
        (λ _. AdmitsVerdict roster.now.says verdict.now)
        (IsDenial roster.now.says (message_of.Verdict verdict.now)) }
{
    if roster.has_person(verdict.by()) && roster.has_person(verdict.of()) {
        Ok(())
    } else {
        Err(Denial::UnknownPerson)
    }
}

/// Admits the message, or answers the first denial that applies to it. It takes no memory.
pub fn admit(roster: &Roster, message: &Message) -> Result<(), Denial>
    // The answer is `Ok` exactly if the roster admits the message.
    ensures admitted { IsOk result ↔ Admits roster.now.says message.now }
    // A denial is answered exactly if it is the first that applies.
    ensures denied { (d : AnyDenial) → ((result ≡ Err d) ↔ IsDenial roster.now.says message.now d) }
{
    match message {
        Message::Request(request) => admit_request(roster, request),
        Message::Verdict(verdict) => admit_verdict(roster, verdict),
    }
}
