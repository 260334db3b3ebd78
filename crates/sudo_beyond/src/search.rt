//! The first of the cases that one policy allows and another refuses.

ghost use Rattle.std.specs.Prelude.{◌≡◌, if◌then◌else◌, Some, None, IfOk, OnOk};
ghost use Rattle.sudo_beyond.specs.Beyond.{IsGap};
ghost use Rattle.sudo_beyond.specs.Cases as specs;
ghost use Rattle.sudo_beyond.specs.Answer.{FirstOf};
ghost use Rattle.sudo_beyond.specs.private.Compared.{IsAnsweredGap};

use crate::cases::Cases;
use crate::decided::is_gap;
use crate::run::{Args, Run};
use std::alloc::Global;
use sudo_compiled::{Compiled, PlainRule, bearing_on, compile};
use sudo_decide::Invocation;
use sudo_policy::Policy;
use sudo_words::{FilePath, HostName, Items, Moment, Name, NoMemory};

fn copied_name(name: &Name) -> Result<Name, NoMemory>
    ensures { IfOk result (λ x. x ≡ name.now) }
{
    Ok(name.clone()?)
}

fn copied_host(host: &HostName) -> Result<HostName, NoMemory>
    ensures { IfOk result (λ x. x ≡ host.now) }
{
    Ok(host.clone()?)
}

fn copied_path(path: &FilePath) -> Result<FilePath, NoMemory>
    ensures { IfOk result (λ x. x ≡ path.now) }
{
    Ok(path.clone()?)
}

fn copied_args(args: &Args) -> Result<Args, NoMemory>
    ensures { IfOk result (λ x. x ≡ args.now) }
{
    Ok(args.clone()?)
}

fn invocation_of(
    user: &Name,
    host: &HostName,
    runas: &Name,
    run: &Run,
    at: Moment,
) -> Result<Invocation, NoMemory>
    ensures { IfOk result (λ i. i ≡ specs.invocation_of user.now host.now runas.now run.now at) }
{
    Ok(Invocation {
        user: copied_name(user)?,
        host: copied_host(host)?,
        runas: copied_name(runas)?,
        path: copied_path(&run.path)?,
        args: Items::new(copied_args(&run.args)?.into_vec()),
        at,
    })
}

/// Sets the invocation's path and arguments, and keeps its user, host and target.
fn set_run(i: &mut Invocation, run: &Run) -> Result<(), NoMemory>
    ensures user { i.new.user ≡ i.old.user }
    ensures host { i.new.host ≡ i.old.host }
    ensures runas { i.new.runas ≡ i.old.runas }
    ensures run { OnOk result ((i.new.path ≡ run.now.path) × (i.new.args ≡ run.now.args)) }
{
    i.path = copied_path(&run.path)?;
    i.args = Items::new(copied_args(&run.args)?.into_vec());
    Ok(())
}

/// Tries each moment of a path with its arguments. The search stops at the first case that is a
/// gap, and the invocation is then that case.
fn try_run(
    a: &[PlainRule],
    b: &[PlainRule],
    cases: &Cases,
    run: &Run,
    i: &mut Invocation,
) -> Result<bool, NoMemory>
    ensures user { i.new.user ≡ i.old.user }
    ensures host { i.new.host ≡ i.old.host }
    ensures runas { i.new.runas ≡ i.old.runas }
    ensures found { IfOk result (λ found. FirstOf (IsAnsweredGap a.now b.now) (specs.of_run
        cases.now i.old.user i.old.host i.old.runas run.now) (if found then Some i.new else None)) }
{
    set_run(i, run)?;
    for at in cases.moments.as_slice() {
        i.at = *at;
        if is_gap(a, b, i) {
            return Ok(true);
        }
    }
    Ok(false)
}

/// Tries each path with its arguments. One invocation serves all cases of a user, a host and a
/// target.
fn try_runs(
    a: &[PlainRule],
    b: &[PlainRule],
    cases: &Cases,
    first: Invocation,
) -> Result<Option<Invocation>, NoMemory>
    ensures { IfOk result (FirstOf (IsAnsweredGap a.now b.now)
        (specs.of_target cases.now first.user first.host first.runas)) }
{
    let mut i = first;
    for run in cases.runs.as_slice() {
        if try_run(a, b, cases, run, &mut i)? {
            return Ok(Some(i));
        }
    }
    Ok(None)
}

/// Searches the cases of one user, host and target. The search asks, in each policy, only the rules
/// from the first to the last that are about these three.
fn of_target(
    a: &Compiled,
    b: &Compiled,
    cases: &Cases,
    user: &Name,
    host: &HostName,
    runas: &Name,
) -> Result<Option<Invocation>, NoMemory>
    ensures { IfOk result (FirstOf (IsAnsweredGap a.now b.now)
        (specs.of_target cases.now user.now host.now runas.now)) }
{
    let Some(first) = cases.runs.as_slice().first() else {
        return Ok(None);
    };
    let Some(at) = cases.moments.as_slice().first() else {
        return Ok(None);
    };
    let i = invocation_of(user, host, runas, first, *at)?;
    let allowing = bearing_on(a.rules(), &i);
    let refusing = bearing_on(b.rules(), &i);
    try_runs(allowing, refusing, cases, i)
}

fn of_host(
    a: &Compiled,
    b: &Compiled,
    cases: &Cases,
    user: &Name,
    host: &HostName,
) -> Result<Option<Invocation>, NoMemory>
    ensures { IfOk result
        (FirstOf (IsAnsweredGap a.now b.now) (specs.of_host cases.now user.now host.now)) }
{
    for runas in cases.targets.as_slice() {
        match of_target(a, b, cases, user, host, runas)? {
            Some(i) => return Ok(Some(i)),
            None => {}
        }
    }
    Ok(None)
}

fn of_user(
    a: &Compiled,
    b: &Compiled,
    cases: &Cases,
    user: &Name,
) -> Result<Option<Invocation>, NoMemory>
    ensures { IfOk result (FirstOf (IsAnsweredGap a.now b.now) (specs.of_user cases.now user.now)) }
{
    for host in cases.hosts.as_slice() {
        match of_host(a, b, cases, user, host)? {
            Some(i) => return Ok(Some(i)),
            None => {}
        }
    }
    Ok(None)
}

fn first_of_compiled(
    a: &Compiled,
    b: &Compiled,
    cases: &Cases,
) -> Result<Option<Invocation>, NoMemory>
    ensures { IfOk result (FirstOf (IsAnsweredGap a.now b.now) (specs.invocations cases.now)) }
{
    for user in cases.users.as_slice() {
        match of_user(a, b, cases, user)? {
            Some(i) => return Ok(Some(i)),
            None => {}
        }
    }
    Ok(None)
}

/// The first case that the first policy allows and the second refuses, or `None` if there is no
/// such case. Each policy is compiled once.
pub fn first_gap(
    alloc: Global,
    a: &Policy,
    b: &Policy,
    cases: &Cases,
) -> Result<Option<Invocation>, NoMemory>
    ensures { IfOk result (FirstOf (IsGap a.now b.now) (specs.invocations cases.now)) }
{
    let a = compile(alloc, a)?;
    let b = compile(alloc, b)?;
    first_of_compiled(&a, &b, cases)
}
