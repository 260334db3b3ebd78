//! Reads a draft's texts as names and commands.

ghost use Rattle.std.specs.Prelude.{◌≡◌, All, map};
ghost use Rattle.std.specs.List.{list_all};
ghost use Rattle.sudo_words.specs.Command.{IsLawful, cmnd_text};
ghost use Rattle.roster.specs.private.LookupOrders.{cmnd_order};
ghost use Rattle.roster.specs.Fields.{entry_in_texts, in_texts};
ghost use Rattle.roster.specs.private.LookupOrders.{IsInOrder};
ghost use Rattle.roster.specs.Rules.{GoodNames, IsCmndText, IsNamedCeiling};
ghost use Rattle.roster.specs.Rules.{is_named_entry, is_named_pair, is_named_person};
ghost use Rattle.roster.specs.private.Stages.{Checks, Meets};
ghost use Rattle.roster.specs.declared.fault.RosterFault.TheVariants.{BadName};

use crate::ceiling::Ceiling;
use crate::commands::in_order;
use crate::conflicts::Conflicts;
use crate::content::Content;
use crate::days::Days;
use crate::draft::{Draft, DraftCeiling};
use crate::fault::RosterFault;
use crate::text::Text;
use std::alloc::Global;
use sudo_words::{Cmnd, CmndFault, Form, Items, Label, Name, Word, WordFault, read_cmnd};

fn word<F: Form>(alloc: Global, text: &Text) -> Result<Word<F>, RosterFault>
    ensures { Checks BadName (F.has text.now) text.now result }
{
    match Word::read(alloc, text.as_str()) {
        Ok(word) => Ok(word),
        Err(WordFault::BadWord) => Err(RosterFault::BadName),
        Err(WordFault::NoMemory) => Err(RosterFault::NoMemory),
    }
}

fn words<F: Form>(alloc: Global, texts: &[Text]) -> Result<Items<Word<F>>, RosterFault>
    ensures { Checks BadName (list_all F.has texts.now) texts.now result }
{
    let mut words = Vec::new(alloc);
    for text in texts {
        let word = word(alloc, text)?;
        words.push(word)?;
    }
    Ok(Items::new(words))
}

fn pair(alloc: Global, first: &Text, second: &Text) -> Result<(Label, Label), RosterFault>
    ensures { Checks BadName (is_named_pair (first.now, second.now))
        (first.now, second.now) result }
{
    let first = word(alloc, first)?;
    let second = word(alloc, second)?;
    Ok((first, second))
}

fn pairs(alloc: Global, texts: &[(Text, Text)]) -> Result<Items<(Label, Label)>, RosterFault>
    ensures { Checks BadName (list_all is_named_pair texts.now) texts.now result }
{
    let mut pairs = Vec::new(alloc);
    for text in texts {
        let pair = pair(alloc, &text.0, &text.1)?;
        pairs.push(pair)?;
    }
    Ok(Items::new(pairs))
}

fn conflicts(alloc: Global, texts: &[(Text, Text)]) -> Result<Conflicts, RosterFault>
    ensures { Checks BadName (list_all is_named_pair texts.now) texts.now result }
{
    Ok(Conflicts::of(pairs(alloc, texts)?)?)
}

fn entry(alloc: Global, text: &(Text, Days)) -> Result<(Label, Days), RosterFault>
    ensures { Checks BadName (is_named_entry text.now) text.now result }
{
    Ok((word(alloc, &text.0)?, text.1))
}

fn entries(alloc: Global, texts: &[(Text, Days)]) -> Result<Items<(Label, Days)>, RosterFault>
    ensures { Checks BadName (list_all is_named_entry texts.now) texts.now result }
{
    let mut entries = Vec::new(alloc);
    for text in texts {
        let entry = entry(alloc, text)?;
        entries.push(entry)?;
    }
    Ok(Items::new(entries))
}

fn person(
    alloc: Global,
    person: &(Text, Items<(Text, Days)>),
) -> Result<(Name, Items<(Label, Days)>), RosterFault>
    ensures { Checks BadName (is_named_person person.now) person.now result }
{
    let name = word(alloc, &person.0)?;
    let entries = entries(alloc, person.1.as_slice())?;
    Ok((name, entries))
}

fn people(
    alloc: Global,
    texts: &[(Text, Items<(Text, Days)>)],
) -> Result<Items<(Name, Items<(Label, Days)>)>, RosterFault>
    ensures { Checks BadName (list_all is_named_person texts.now) texts.now result }
{
    let mut people = Vec::new(alloc);
    for text in texts {
        let person = person(alloc, text)?;
        people.push(person)?;
    }
    Ok(Items::new(people))
}

fn command(alloc: Global, text: &Text) -> Result<Cmnd, RosterFault>
    ensures { Meets BadName (IsCmndText text.now)
        (λ c. IsLawful c × (text.now ≡ cmnd_text c)) result }
{
    match read_cmnd(alloc, text.as_str()) {
        Ok(cmnd) => Ok(cmnd),
        Err(CmndFault::BadCmnd) => Err(RosterFault::BadName),
        Err(CmndFault::NoMemory) => Err(RosterFault::NoMemory),
    }
}

/// The commands as they are listed, and once more in the order in which they are looked up.
fn commands(alloc: Global, texts: &[Text]) -> Result<(Items<Cmnd>, Items<Cmnd>), RosterFault>
    ensures { Meets BadName (All IsCmndText texts.now) (λ cs. All IsLawful cs.0
        × (map cmnd_text cs.0 ≡ texts.now) × IsInOrder cmnd_order cs.0 cs.1) result }
{
    let mut commands = Vec::new(alloc);
    for text in texts {
        let command = command(alloc, text)?;
        commands.push(command)?;
    }
    let commands = Items::new(commands);
    let ordered = in_order(&commands)?;
    Ok((commands, ordered))
}

fn ceiling(alloc: Global, draft: &(Text, DraftCeiling)) -> Result<(Label, Ceiling), RosterFault>
    ensures { Meets BadName (IsNamedCeiling IsCmndText draft.now)
        (λ c. IsNamedCeiling IsLawful c × (entry_in_texts c ≡ draft.now)) result }
{
    let label = word(alloc, &draft.0)?;
    let hosts = words(alloc, draft.1.hosts.as_slice())?;
    let runas = words(alloc, draft.1.runas.as_slice())?;
    let (ask, approve) = pair(alloc, &draft.1.ask, &draft.1.approve)?;
    let (commands, ordered) = commands(alloc, draft.1.commands.as_slice())?;
    Ok((
        label,
        Ceiling {
            ask,
            approve,
            needs: draft.1.needs,
            hosts,
            runas,
            commands,
            longest: draft.1.longest,
            ordered,
        },
    ))
}

fn ceilings(
    alloc: Global,
    texts: &[(Text, DraftCeiling)],
) -> Result<Items<(Label, Ceiling)>, RosterFault>
    ensures { Meets BadName (All (IsNamedCeiling IsCmndText) texts.now)
        (λ cs. All (IsNamedCeiling IsLawful) cs × (map entry_in_texts cs ≡ texts.now)) result }
{
    let mut ceilings = Vec::new(alloc);
    for text in texts {
        let ceiling = ceiling(alloc, text)?;
        ceilings.push(ceiling)?;
    }
    Ok(Items::new(ceilings))
}

/// What the draft says, with names and commands; `BadName` if a text that should be a name is not
/// such a name, or one that should be a command is not a command.
#[tactic(auto, unfolding(crate::specs::Rules::good_names))]
pub(crate) fn content_of(alloc: Global, draft: &Draft) -> Result<Content, RosterFault>
    ensures { Meets BadName (GoodNames IsCmndText draft.now)
        (λ s. GoodNames IsLawful s × (in_texts s ≡ draft.now)) result }
{
    let relays = words(alloc, draft.relays.as_slice())?;
    let hosts = words(alloc, draft.hosts.as_slice())?;
    let duties = words(alloc, draft.duties.as_slice())?;
    let people = people(alloc, draft.people.as_slice())?;
    let conflicts = conflicts(alloc, draft.conflicts.as_slice())?;
    let ceilings = ceilings(alloc, draft.ceilings.as_slice())?;
    Ok(Content {
        relays,
        hosts,
        duties,
        conflicts,
        people,
        ceilings,
    })
}
