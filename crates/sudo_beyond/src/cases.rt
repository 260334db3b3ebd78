//! The cases that are tried.

ghost use Rattle.std.specs.Prelude.{◌≡◌, ◌++◌, ◌*◌, ◌-◌, ◌^◌, min, true, IfOk, IfSome, OnOk};
ghost use Rattle.sudo_words.specs.Word.{is_name, is_host_name};
ghost use Rattle.sudo_policy.specs.Policy.{IsPolicy};
ghost use Rattle.sudo_beyond.specs.Beyond.{IsScope};
ghost use Rattle.sudo_beyond.specs.Standing as standing;
ghost use Rattle.sudo_beyond.specs.Cases as specs;

use crate::commands::push_commands;
use crate::moments::moment_cases;
use crate::names::name_cases;
use crate::run::Run;
use crate::runs::run_cases;
use crate::standing::{push_hosts, push_targets, push_users};
use std::alloc::Global;
use sudo_decide::Scope;
use sudo_policy::Policy;
use sudo_words::{HostName, Items, Moment, Name, NoMemory};

/// A list of each part of an invocation; the cases are all combinations.
#[derive(Drop)]
pub struct Cases {
    /// The users.
    pub users: Items<Name>,
    /// The hosts.
    pub hosts: Items<HostName>,
    /// The targets.
    pub targets: Items<Name>,
    /// The paths with their arguments.
    pub runs: Items<Run>,
    /// The moments.
    pub moments: Items<Moment>,
}

fn user_cases(
    alloc: Global,
    fixed: &Option<Name>,
    a: &Policy,
    b: &Policy,
) -> Result<Items<Name>, NoMemory>
    ensures form { OnOk result (IfSome fixed.now (λ name. is_name name ≡ true)) }
    ensures cases { IfOk result
        (specs.AreNameCases fixed.now (standing.users a.now ++ standing.users b.now)) }
{
    let mut standing = Vec::new(alloc);
    push_users(&mut standing, a)?;
    push_users(&mut standing, b)?;
    name_cases(alloc, fixed, standing)
}

fn host_cases(
    alloc: Global,
    fixed: &Option<HostName>,
    a: &Policy,
    b: &Policy,
) -> Result<Items<HostName>, NoMemory>
    ensures form { OnOk result (IfSome fixed.now (λ name. is_host_name name ≡ true)) }
    ensures cases { IfOk result
        (specs.AreNameCases fixed.now (standing.hosts a.now ++ standing.hosts b.now)) }
{
    let mut standing = Vec::new(alloc);
    push_hosts(&mut standing, a)?;
    push_hosts(&mut standing, b)?;
    name_cases(alloc, fixed, standing)
}

fn target_cases(
    alloc: Global,
    fixed: &Option<Name>,
    a: &Policy,
    b: &Policy,
) -> Result<Items<Name>, NoMemory>
    ensures form { OnOk result (IfSome fixed.now (λ name. is_name name ≡ true)) }
    ensures cases { IfOk result
        (specs.AreNameCases fixed.now (standing.runas a.now ++ standing.runas b.now)) }
{
    let mut standing = Vec::new(alloc);
    push_targets(&mut standing, a)?;
    push_targets(&mut standing, b)?;
    name_cases(alloc, fixed, standing)
}

fn command_cases(alloc: Global, a: &Policy, b: &Policy) -> Result<Items<Run>, NoMemory>
    ensures policies { OnOk result (IsPolicy a.now × IsPolicy b.now) }
    ensures cases { IfOk result
        (specs.AreCommandCases (standing.commands a.now ++ standing.commands b.now)) }
{
    let mut cmnds = Vec::new(alloc);
    push_commands(&mut cmnds, a)?;
    push_commands(&mut cmnds, b)?;
    run_cases(alloc, &cmnds)
}

/// The product, or the greatest `usize` if the product is past that.
fn times(count: usize, more: usize) -> usize
    ensures { result ≡ min (count * more) (2 ^ 64 - 1) }
{
    count.saturating_mul(more)
}

impl Cases {
    /// The cases of two policies.
    pub fn of(alloc: Global, scope: &Scope, a: &Policy, b: &Policy) -> Result<Cases, NoMemory>
        ensures policies { OnOk result (IsPolicy a.now × IsPolicy b.now) }
        ensures scope { OnOk result (IsScope scope.now) }
        ensures cases { IfOk result (specs.AreCases scope.now a.now b.now) }
    {
        let users = user_cases(alloc, &scope.user, a, b)?;
        let hosts = host_cases(alloc, &scope.host, a, b)?;
        let targets = target_cases(alloc, &scope.runas, a, b)?;
        let runs = command_cases(alloc, a, b)?;
        let moments = moment_cases(alloc, a, b)?;
        Ok(Cases {
            users,
            hosts,
            targets,
            runs,
            moments,
        })
    }

    /// How many combinations there are, or the greatest `usize` if there are more.
    pub fn count(&self) -> usize
        ensures { result ≡ min (specs.product self.now) (2 ^ 64 - 1) }
    {
        let users = self.users.as_slice().len();
        let hosts = times(users, self.hosts.as_slice().len());
        let targets = times(hosts, self.targets.as_slice().len());
        let runs = times(targets, self.runs.as_slice().len());
        times(runs, self.moments.as_slice().len())
    }
}
