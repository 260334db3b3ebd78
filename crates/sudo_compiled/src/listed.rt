//! What lists without aliases say. Each list is read from its last item back, and the first answer
//! is the list's answer.

ghost use Rattle.std.specs.Prelude.{◌≡◌, Some, None, true, if◌then◌else◌};
ghost use Rattle.sudo_decide.specs.Decision as answers;
ghost use Rattle.sudo_compiled.specs.Compiled as compiled;
ghost use Rattle.sudo_compiled.specs.private.Tags.{tag_of};

use crate::plain::Plain;
use crate::short::tag;
use sudo_policy::Signed;
use sudo_words::{Arg, Cmnd, FilePath};

/// An item's yes, turned over where it is negated.
fn yes(negated: bool) -> Option<bool>
    ensures { result ≡ answers.signed_answer negated (Some true) }
{
    Some(!negated)
}

/// What the list says about this name.
pub(crate) fn plains_say(list: &[Signed<Plain>], asked: &[u8]) -> Option<bool>
    ensures { result ≡ compiled.plains_say asked.now list.now }
{
    let asked_tag = tag(asked);
    let mut rest = list;
    while let Some((last, others)) = rest.split_last() {
        if is_meant(&last.item, asked, asked_tag) {
            return yes(last.negated);
        }
        rest = others;
    }
    None
}

/// Whether the item is about the name asked for, which has this tag. The tags are compared first.
fn is_meant(item: &Plain, asked: &[u8], asked_tag: u32) -> bool
    requires { asked_tag ≡ tag_of asked.now }
    ensures { (if result then Some true else None) ≡ compiled.plain_answer asked.now item.now }
{
    match item {
        Plain::All => true,
        Plain::Name(name) => name.tag() == asked_tag && name.as_bytes() == asked,
    }
}

/// What the list says about the path with these arguments.
pub(crate) fn cmnds_say(list: &[Signed<Cmnd>], path: &FilePath, args: &[Arg]) -> Option<bool>
    ensures { result ≡ compiled.cmnds_say path.now args.now list.now }
{
    let mut rest = list;
    while let Some((last, others)) = rest.split_last() {
        if last.item.matches(path, args) {
            return yes(last.negated);
        }
        rest = others;
    }
    None
}
