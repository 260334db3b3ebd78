//! How many parts of a policy make cases.

ghost use Rattle.std.specs.Prelude.{◌≡◌, ◌+◌, ◌≤◌, IfOk, IfSome, true};
ghost use Rattle.sudo_policy.specs.Policy.{IsPolicy};
ghost use Rattle.sudo_beyond.specs.Answer.{most_cases};
ghost use Rattle.sudo_beyond.specs.private.Baselines.{IsSize, most_of};

use crate::commands::push_commands;
use crate::compare::MOST_CASES;
use crate::moments::push_turns;
use crate::runs::listings;
use std::alloc::Global;
use sudo_policy::Policy;
use sudo_words::NoMemory;

/// How many parts of a policy make cases of commands and of moments.
#[derive(Clone, Copy)]
pub struct Size {
    /// The policy's commands.
    pub commands: usize,
    /// The lists of arguments among the commands.
    pub listings: usize,
    /// The moments at which the policy's rules begin and cease to take part.
    pub turns: usize,
}

impl Size {
    /// The counts of this policy.
    pub fn of(alloc: Global, p: &Policy) -> Result<Size, NoMemory>
        ensures policy { IsPolicy p.now }
        ensures size { IfOk result (IsSize p.now) }
    {
        let mut cmnds = Vec::new(alloc);
        push_commands(&mut cmnds, p)?;
        let listed = listings(alloc, &cmnds)?;
        let mut moments = Vec::new(alloc);
        push_turns(&mut moments, p)?;
        Ok(Size {
            commands: cmnds.as_slice().len(),
            listings: listed.as_slice().len(),
            turns: moments.as_slice().len(),
        })
    }

    /// The most cases that both policies make together for one user, host and target, or `None` if
    /// the count overflows.
    fn most_cases(&self, other: &Size) -> Option<usize>
        ensures { IfSome result (λ most. most ≡ most_of (self.now.commands + other.now.commands)
            (self.now.listings + other.now.listings) (self.now.turns + other.now.turns)) }
    {
        let commands = self.commands.checked_add(other.commands)?;
        let listings = self.listings.checked_add(other.listings)?;
        let turns = self.turns.checked_add(other.turns)?;
        let runs = commands
            .checked_mul(listings.checked_add(2)?)?
            .checked_add(1)?;
        runs.checked_mul(turns.checked_add(1)?)
    }

    /// Whether both policies make so few cases for one user, host and target that all are tried.
    pub fn makes_few_with(&self, other: &Size) -> bool
        ensures { result ≡ true
            → most_of (self.now.commands + other.now.commands) (self.now.listings
            + other.now.listings) (self.now.turns + other.now.turns) ≤ most_cases }
    {
        match self.most_cases(other) {
            Some(most) => most <= MOST_CASES,
            None => false,
        }
    }
}
