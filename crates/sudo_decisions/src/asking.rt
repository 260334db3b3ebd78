//! Policies as they are read, and the decisions of both functions by each policy.

use crate::trouble::Trouble;
use std::alloc::Global;
use std::fmt::Write as _;
use sudo_compiled::{Compiled, compile};
use sudo_decide::{Decision, Invocation, decide};
use sudo_policy::{Policy, print_owned, print_policy};
use sudo_syntax::read_policy;
use sudo_words::{Arg, FilePath, HostName, Items, Moment, Name};

/// A policy, and the same policy compiled.
#[derive(Drop)]
struct Both {
    policy: Policy,
    compiled: Compiled,
}

/// The text of a policy as far as it was read, the policy once a question was asked about it, how
/// many questions were asked, and how many times two functions decided or printed differently.
#[derive(Drop)]
pub struct Asking {
    text: String,
    both: Option<Both>,
    pub asked: u64,
    pub otherwise: u64,
}

/// The policy that the text spells, and the same policy compiled.
fn both_of(alloc: Global, text: &str) -> Result<Both, Trouble> {
    let Ok(policy) = read_policy(alloc, text.as_bytes()) else {
        return Err(Trouble::BadInput);
    };
    let compiled = compile(alloc, &policy)?;
    Ok(Both { policy, compiled })
}

/// Whether both functions that print a policy print the same text of this one. The second function
/// frees the policy.
fn is_one_text(alloc: Global, policy: Policy) -> Result<bool, Trouble> {
    let lent = print_policy(alloc, &policy)?;
    let owned = print_owned(alloc, policy)?;
    Ok(lent == owned)
}

/// The arguments of an invocation.
fn args_of(alloc: Global, words: &[&str]) -> Result<Items<Arg>, Trouble> {
    let mut args = Vec::new(alloc);
    for word in words {
        let Ok(arg) = Arg::read(alloc, word) else {
            return Err(Trouble::BadInput);
        };
        args.push(arg)?;
    }
    Ok(Items::new(args))
}

/// The invocation that a question's words describe.
fn invocation_of(alloc: Global, words: &[&str]) -> Result<Invocation, Trouble> {
    let [user, host, runas, at, path, rest @ ..] = words else {
        return Err(Trouble::BadInput);
    };
    let Some(at) = Moment::read_stamp(at) else {
        return Err(Trouble::BadInput);
    };
    let Ok(user) = Name::read(alloc, user) else {
        return Err(Trouble::BadInput);
    };
    let Ok(host) = HostName::read(alloc, host) else {
        return Err(Trouble::BadInput);
    };
    let Ok(runas) = Name::read(alloc, runas) else {
        return Err(Trouble::BadInput);
    };
    let Ok(path) = FilePath::read(alloc, path) else {
        return Err(Trouble::BadInput);
    };
    let args = args_of(alloc, rest)?;
    Ok(Invocation {
        user,
        host,
        runas,
        path,
        args,
        at,
    })
}

/// Adds one line: the decision, or both decisions if they differ.
fn say(said: &mut String, followed: Decision, compiled: Decision) -> Result<(), Trouble> {
    if followed == compiled {
        write!(said, "{followed}\n")?;
    } else {
        write!(said, "OTHERWISE {followed}, and compiled {compiled}\n")?;
    }
    Ok(())
}

impl Asking {
    /// The state before any line.
    pub fn new(alloc: Global) -> Asking {
        Asking {
            text: String::new(alloc),
            both: None,
            asked: 0,
            otherwise: 0,
        }
    }

    /// Asks both functions about the invocation of these words, and adds their answer.
    fn ask(&mut self, alloc: Global, said: &mut String, words: &str) -> Result<(), Trouble> {
        if self.both.is_none() {
            self.both = Some(both_of(alloc, self.text.as_str())?);
        }
        let Some(both) = &self.both else {
            return Err(Trouble::BadInput);
        };
        let words: Vec<&str> = words.split(' ').collect(alloc)?;
        let invocation = invocation_of(alloc, &words)?;
        let followed = decide(&both.policy, &invocation);
        let compiled = both.compiled.decide(&invocation);
        self.asked = self.asked.saturating_add(1);
        if followed != compiled {
            self.otherwise = self.otherwise.saturating_add(1);
        }
        say(said, followed, compiled)
    }

    /// Ends a policy. If the policy was asked about and is printed in two ways, adds a line.
    pub fn end(&mut self, alloc: Global, said: &mut String) -> Result<(), Trouble> {
        self.text = String::new(alloc);
        let Some(both) = self.both.take() else {
            return Ok(());
        };
        if !is_one_text(alloc, both.policy)? {
            self.otherwise = self.otherwise.saturating_add(1);
            said.push_str("OTHERWISE printed\n")?;
        }
        Ok(())
    }

    /// Takes a line of the input. If the line is a question, adds the answer of both functions.
    pub fn take(&mut self, alloc: Global, said: &mut String, line: &str) -> Result<(), Trouble> {
        if line == "%%" {
            return self.end(alloc, said);
        }
        if let Some(words) = line.strip_prefix("? ") {
            return self.ask(alloc, said, words);
        }
        self.text.push_str(line)?;
        self.text.push_str("\n")?;
        Ok(())
    }
}
