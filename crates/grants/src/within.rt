//! Which commands reach no further than another.

ghost use Rattle.std.specs.Prelude.{◌≡◌, ◌↔◌, IsTrue, false};
ghost use Rattle.std.specs.Str.{bytes_eq};
ghost use Rattle.std.specs.Cmp.Lexicographic.{pointwise};
ghost use Rattle.sudo_words.specs.Command.{IsLawful};
ghost use Rattle.grants.specs.private.Forms as forms;
ghost use Rattle.grants.specs.Reach.{LiesInside, ReachesBeyond};

use sudo_words::{Arg, ArgRule, Cmnd};

/// Whether the arguments are the wanted ones. The last ones are compared first: commands of one
/// file mostly differ there.
fn same_args(args: &[Arg], wanted: &[Arg]) -> bool
    ensures { result ≡ pointwise bytes_eq args.now wanted.now }
{
    match (args, wanted) {
        ([.., last], [.., other]) if last != other => false,
        _ => args == wanted,
    }
}

fn rule_inside(inner: &ArgRule, outer: &ArgRule) -> bool
    ensures { result ≡ forms.rule_inside inner.now outer.now }
{
    match (inner, outer) {
        (_, ArgRule::Any) => true,
        (ArgRule::Empty, ArgRule::Empty) => true,
        (ArgRule::Exactly(args), ArgRule::Exactly(wanted)) => {
            same_args(args.as_slice(), wanted.as_slice())
        }
        _ => false,
    }
}

/// Whether the inner command lies inside the outer, by cases on their forms.
pub(crate) fn form_inside(inner: &Cmnd, outer: &Cmnd) -> bool
    ensures { result ≡ forms.is_inside inner.now outer.now }
{
    match (inner, outer) {
        (_, Cmnd::All) => true,
        (Cmnd::Path(file, rule), Cmnd::Path(other, wanted)) => {
            file == other && rule_inside(rule, wanted)
        }
        (Cmnd::Path(file, _), Cmnd::Dir(_)) => outer.matches(file, &[]),
        (Cmnd::Dir(dir), Cmnd::Dir(other)) => dir == other,
        _ => false,
    }
}

/// The path up to and including its last slash; empty if it has none.
pub(crate) fn dir_of(path: &[u8]) -> &[u8]
    ensures { forms.IsDirOf path.now result.now }
{
    let mut end = path.len();
    'name: while 0 < end {
        if path[end - 1] == b'/' {
            return &path[..end];
        }
        end -= 1;
    }
    &path[..0]
}

/// Whether the outer command reaches all that the inner one reaches. It takes no memory.
#[tactic(auto, using(crate::proofs::Inclusion::exact, crate::proofs::Inclusion::beyond))]
pub fn is_inside(inner: &Cmnd, outer: &Cmnd) -> bool
    // For the commands that policies hold, this is inclusion of what they reach.
    ensures exact { IsLawful inner.now → IsLawful outer.now
        → (IsTrue result ↔ LiesInside inner.now outer.now) }
    // If the answer is no, the inner command reaches something that the outer does not match.
    ensures beyond { IsLawful inner.now → IsLawful outer.now
        → result ≡ false → ReachesBeyond inner.now outer.now }
{
    form_inside(inner, outer)
}
