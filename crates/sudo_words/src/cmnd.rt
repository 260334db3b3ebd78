//! Commands, and what they match.

ghost use Rattle.std.specs.Prelude.{◌≡◌};
ghost use Rattle.std.specs.Str.{bytes_eq};
ghost use Rattle.std.specs.Cmp.Lexicographic.{pointwise};
ghost use Rattle.sudo_words.specs.Command as command;

use crate::arg::Arg;
use crate::items::Items;
use crate::path::{DirPath, FilePath, is_component};

/// Which arguments a path's rule allows (sudoers(5), "Command arguments").
#[derive(Clone, Debug, Drop)]
pub enum ArgRule {
    /// Any arguments are allowed.
    Any,
    /// No argument is allowed.
    Empty,
    /// Exactly these are allowed, in this order.
    Exactly(Items<Arg>),
}

/// A command of a policy.
#[derive(Clone, Debug, Drop)]
pub enum Cmnd {
    /// `ALL`: every path, with any arguments.
    All,
    /// One file, with the arguments that its rule allows.
    Path(FilePath, ArgRule),
    /// Each file directly within a directory, with any arguments.
    Dir(DirPath),
}

fn same_args(args: &[Arg], wanted: &[Arg]) -> bool
    ensures { result ≡ pointwise bytes_eq args.now wanted.now }
{
    args == wanted
}

fn allows(rule: &ArgRule, args: &[Arg]) -> bool
    ensures { result ≡ command.allows rule.now args.now }
{
    match rule {
        ArgRule::Any => true,
        ArgRule::Empty => args.len() == 0,
        ArgRule::Exactly(wanted) => same_args(args, wanted.as_slice()),
    }
}

fn is_directly_in(dir: &[u8], path: &[u8]) -> bool
    ensures { result ≡ command.is_directly_in dir.now path.now }
{
    match path.split_at_checked(dir.len()) {
        None => false,
        Some((front, name)) => front == dir && is_component(name),
    }
}

impl Cmnd {
    /// Whether the command matches a path that is run with these arguments. It takes no memory.
    pub fn matches(&self, path: &FilePath, args: &[Arg]) -> bool
        ensures { result ≡ command.matches self.now path.now args.now }
    {
        match self {
            Cmnd::All => true,
            Cmnd::Path(file, rule) => path == file && allows(rule, args),
            Cmnd::Dir(dir) => is_directly_in(dir.as_str().as_bytes(), path.as_str().as_bytes()),
        }
    }
}
