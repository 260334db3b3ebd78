//! Verdicts that wait for their request.

ghost use Rattle.std.specs.Prelude.{◌≡◌, ◌++◌, List, IfOk, OnOk, map, string_bytes};
ghost use Rattle.std.specs.BTreeMap.{values};
ghost use Rattle.messages.specs.Wire as wires;
ghost use Rattle.messages.specs.declared.message.Message.{Message as AnyMessage};
ghost use Rattle.outcomes.specs.Gathered.{AreGathered};
ghost use Rattle.outcomes.specs.Parked.{AreParked};
ghost use Rattle.outcomes.specs.private.ByName.{in_turn};

use crate::gathering::Gathered;
use messages::{RequestName, Verdict, verdict_text};
use std::alloc::Global;
use std::collections::BTreeMap;
use sudo_words::NoMemory;

/// Adds the texts of the verdicts.
fn push_texts(alloc: Global, texts: &mut Vec<String>, verdicts: &[Verdict]) -> Result<(), NoMemory>
    ensures { OnOk result (map string_bytes texts.new.items
        ≡ map string_bytes texts.old.items ++ map wires.verdict_text verdicts.now) }
{
    for verdict in verdicts {
        texts.push(verdict_text(alloc, verdict)?)?;
    }
    Ok(())
}

/// The texts of the verdicts that wait, in the order of the names that they are about.
fn texts_of(
    alloc: Global,
    waiting: &BTreeMap<RequestName, Vec<Verdict>>,
) -> Result<Vec<String>, NoMemory>
    ensures { IfOk result (λ texts.
        map string_bytes texts.items ≡ map wires.verdict_text (in_turn (values waiting.now))) }
{
    let mut texts = Vec::new(alloc);
    for verdicts in waiting.values() {
        push_texts(alloc, &mut texts, verdicts)?;
    }
    Ok(texts)
}

/// The texts of the set's verdicts whose request has not come, each once, in byte order.
pub fn parked_in(alloc: Global, gathered: &Gathered) -> Result<Vec<String>, NoMemory>
    ensures { (set : List AnyMessage) → AreGathered set gathered.now
        → IfOk result (λ texts. AreParked set (map string_bytes texts.items)) }
{
    let mut texts = texts_of(alloc, &gathered.waiting)?;
    texts.sort_unstable();
    texts.dedup();
    Ok(texts)
}
