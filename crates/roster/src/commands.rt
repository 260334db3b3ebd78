//! Commands in order, looked up by binary search.

ghost use Rattle.std.specs.Prelude.{◌≡◌, IfOk};
ghost use Rattle.std.specs.List.{list_any};
ghost use Rattle.sudo_words.specs.declared.cmnd.Cmnd.TheVariants as cmnd_of;
ghost use Rattle.roster.specs.private.LookupOrders as orders;

use std::alloc::AllocError;
use std::cmp::Ordering;
use std::marker::Model;
use sudo_words::{Arg, ArgRule, Cmnd, FilePath, Items};

/// The kinds of commands, in their order.
#[derive(Clone, Copy)]
pub(crate) enum Kind {
    Everything,
    Directory,
    AnyArgs,
    NoArgs,
    TheseArgs,
}

impl Kind {
    fn rank(self) -> u8
        ensures { result ≡ orders.rank self }
    {
        match self {
            Kind::Everything => 0,
            Kind::Directory => 1,
            Kind::AnyArgs => 2,
            Kind::NoArgs => 3,
            Kind::TheseArgs => 4,
        }
    }
}

/// The key that a command is looked up by. A command without a path or without arguments has an
/// empty one here.
#[derive(Drop)]
pub(crate) struct Place<'p> {
    pub(crate) kind: Kind,
    pub(crate) path: &'p [u8],
    pub(crate) args: &'p [Arg],
}

impl<'p> Model for Place<'p> {
    ghost use Rattle.roster.specs.private.LookupOrders as orders;

    ghost Value = { orders.Place };

    ghost view = { λ p. record { kind = p.kind; path = p.path.now; args = p.args.now } };
}

/// The place of the file with the rule.
pub(crate) fn place_of_file<'p>(file: &'p FilePath, rule: &'p ArgRule) -> Place<'p>
    ensures { result ≡ orders.place (cmnd_of.Path file.now rule.now) }
{
    let path = file.as_str().as_bytes();
    match rule {
        ArgRule::Any => Place {
            kind: Kind::AnyArgs,
            path,
            args: &[],
        },
        ArgRule::Empty => Place {
            kind: Kind::NoArgs,
            path,
            args: &[],
        },
        ArgRule::Exactly(args) => Place {
            kind: Kind::TheseArgs,
            path,
            args: args.as_slice(),
        },
    }
}

/// The place of the directory with this path.
pub(crate) fn place_of_dir<'p>(path: &'p [u8]) -> Place<'p>
    ensures { result ≡ orders.place (cmnd_of.Dir path.now) }
{
    Place {
        kind: Kind::Directory,
        path,
        args: &[],
    }
}

fn place_of<'p>(cmnd: &'p Cmnd) -> Place<'p>
    ensures { result ≡ orders.place cmnd.now }
{
    match cmnd {
        Cmnd::All => Place {
            kind: Kind::Everything,
            path: &[],
            args: &[],
        },
        Cmnd::Dir(dir) => place_of_dir(dir.as_str().as_bytes()),
        Cmnd::Path(file, rule) => place_of_file(file, rule),
    }
}

fn compare(one: &Place<'_>, other: &Place<'_>) -> Ordering
    ensures { result ≡ orders.place_order one.now other.now }
{
    match one.kind.rank().cmp(&other.kind.rank()) {
        Ordering::Equal => match one.path.cmp(&other.path) {
            Ordering::Equal => one.args.cmp(&other.args),
            unequal => unequal,
        },
        unequal => unequal,
    }
}

fn copy_cmnds(cmnds: &Items<Cmnd>) -> Result<Items<Cmnd>, AllocError>
    ensures { IfOk result (λ copy. copy ≡ cmnds.now) }
{
    cmnds.clone()
}

/// The same commands in their order; an error where memory runs out.
pub(crate) fn in_order(cmnds: &Items<Cmnd>) -> Result<Items<Cmnd>, AllocError>
    ensures { IfOk result (orders.IsInOrder orders.cmnd_order cmnds.now) }
{
    let mut ordered = copy_cmnds(cmnds)?.into_vec();
    ordered.sort_unstable_by(|c, d| compare(&place_of(c), &place_of(d)));
    Ok(Items::new(ordered))
}

/// Whether one of the commands has this place.
pub(crate) fn has(ordered: &[Cmnd], wanted: &Place<'_>) -> bool
    requires { orders.AreCmndsInOrder ordered.now }
    ensures { result ≡ list_any (orders.is_at wanted.now) ordered.now }
{
    let mut low = 0;
    let mut high = ordered.len();
    'halves: while low < high {
        let middle = low + (high - low) / 2;
        let cmnd = &ordered[middle];
        match compare(&place_of(cmnd), wanted) {
            Ordering::Less => low = middle + 1,
            Ordering::Equal => return true,
            Ordering::Greater => high = middle,
        }
    }
    false
}
