//! A walk over summaries, by names that come in their order.

ghost use Rattle.std.specs.Prelude.{◌≡◌, option_copied};
ghost use Rattle.outcomes.specs.private.ByName.{at_name};
ghost use Rattle.outcomes.specs.private.Walk.{AreEntriesOf};

use grants::Summary;
use messages::RequestName;
use std::collections::BTreeMap;
use std::collections::btree_map::Range;

/// The summary of a name, or none where nobody asks under the name, found by a search. The rest of
/// the walk then begins behind the name.
fn sought<'a>(
    summaries: &'a BTreeMap<RequestName, Summary>,
    rest: &mut Range<'a, RequestName, Summary>,
    name: &RequestName,
) -> Option<&'a Summary>
    ensures value { option_copied result ≡ at_name summaries.now name.now }
    ensures rest { AreEntriesOf summaries.now rest.new }
{
    *rest = summaries.range(name..);
    match rest.next() {
        Some((next, summary)) if next == name => Some(summary),
        _ => None,
    }
}

/// The same summary, without a search where the name is the next of the walk, as at a host that
/// most requests list.
pub(crate) fn summary_at<'a>(
    summaries: &'a BTreeMap<RequestName, Summary>,
    rest: &mut Range<'a, RequestName, Summary>,
    name: &RequestName,
) -> Option<&'a Summary>
    requires { AreEntriesOf summaries.now rest.old }
    ensures value { option_copied result ≡ at_name summaries.now name.now }
    ensures rest { AreEntriesOf summaries.now rest.new }
{
    match rest.next() {
        Some((next, summary)) if next == name => Some(summary),
        _ => sought(summaries, rest, name),
    }
}
