//! Whether two requests are the same.

ghost use Rattle.std.specs.Prelude.{◌≡◌, ◌↔◌, IsTrue};

use crate::request::Request;
use sudo_words::{Arg, ArgRule, Cmnd, HostName};

fn same_args(a: &[Arg], b: &[Arg]) -> bool
    ensures { IsTrue result ↔ (a.now ≡ b.now) }
{
    a == b
}

fn same_rule(a: &ArgRule, b: &ArgRule) -> bool
    ensures { IsTrue result ↔ (a.now ≡ b.now) }
{
    match (a, b) {
        (ArgRule::Any, ArgRule::Any) | (ArgRule::Empty, ArgRule::Empty) => true,
        (ArgRule::Exactly(args), ArgRule::Exactly(other)) => {
            same_args(args.as_slice(), other.as_slice())
        }
        _ => false,
    }
}

fn same_cmnd(a: &Cmnd, b: &Cmnd) -> bool
    ensures { IsTrue result ↔ (a.now ≡ b.now) }
{
    match (a, b) {
        (Cmnd::All, Cmnd::All) => true,
        (Cmnd::Path(file, rule), Cmnd::Path(other, wanted)) => {
            file == other && same_rule(rule, wanted)
        }
        (Cmnd::Dir(dir), Cmnd::Dir(other)) => dir == other,
        _ => false,
    }
}

fn same_hosts(a: &[HostName], b: &[HostName]) -> bool
    ensures { IsTrue result ↔ (a.now ≡ b.now) }
{
    a == b
}

fn same_times(a: &Request, b: &Request) -> bool
    ensures { IsTrue result
        ↔ ((a.now.at ≡ b.now.at) × (a.now.from ≡ b.now.from) × (a.now.until ≡ b.now.until)) }
{
    a.at() == b.at() && a.from() == b.from() && a.until() == b.until()
}

fn same_words(a: &Request, b: &Request) -> bool
    ensures { IsTrue result
        ↔ ((a.now.by ≡ b.now.by) × (a.now.ceiling ≡ b.now.ceiling) × (a.now.runas ≡ b.now.runas)) }
{
    a.by() == b.by() && a.ceiling() == b.ceiling() && a.runas() == b.runas()
}

fn same_cmnds(a: &[Cmnd], b: &[Cmnd]) -> bool
    ensures { IsTrue result ↔ (a.now ≡ b.now) }
{
    match a {
        [] => b.is_empty(),
        [cmnd, more @ ..] => match b {
            [] => false,
            [other, rest @ ..] => same_cmnd(cmnd, other) && same_cmnds(more, rest),
        },
    }
}

fn same_lists(a: &Request, b: &Request) -> bool
    ensures { IsTrue result ↔ ((a.now.cmnds ≡ b.now.cmnds) × (a.now.hosts ≡ b.now.hosts)) }
{
    same_cmnds(a.cmnds(), b.cmnds()) && same_hosts(a.hosts(), b.hosts())
}

impl Request {
    /// Whether the other request says the same. It takes no memory.
    pub fn is_same(&self, other: &Request) -> bool
        ensures { IsTrue result ↔ (self.now ≡ other.now) }
    {
        self.no() == other.no()
            && same_times(self, other)
            && same_words(self, other)
            && same_lists(self, other)
    }
}
