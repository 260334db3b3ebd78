//! Reads a document as a draft: each value must have its type.

ghost use Rattle.std.specs.Prelude.{◌≡◌, Some, None, IfOk, MatchResult};
ghost use Rattle.toml.specs.Data.{as_str, get_member, table as data_table};
ghost use Rattle.toml.specs.View.{view, items_view, table_view};
ghost use Rattle.roster.specs.Document as document;
ghost use Rattle.roster.specs.Document.{each_item, each_member, as_pair, texts_of, pair_of};
ghost use Rattle.roster.specs.Document.{pairs_of, day_in, duty_entry, duty_entries, people_of};
ghost use Rattle.roster.specs.Document.{number_of, ceiling_of, ceilings_of, member_of, fields_of};
ghost use Rattle.roster.specs.Relations.{AreRising, IsOrdered};
ghost use Rattle.roster.specs.private.Stages.{Reads};
ghost use Rattle.roster.specs.declared.fault.RosterFault.TheVariants.{WrongType};

use crate::days::Days;
use crate::draft::{Draft, DraftCeiling};
use crate::fault::RosterFault;
use crate::text::Text;
use std::alloc::Global;
use sudo_words::{Day, Items};
use toml::{Table, Value};

fn text(alloc: Global, value: &Value) -> Result<Text, RosterFault>
    ensures { Reads WrongType (as_str (view value.now)) result }
{
    match value.as_str() {
        Some(text) => Ok(Text::of(alloc, text)?),
        None => Err(RosterFault::WrongType),
    }
}

fn each_text(alloc: Global, values: &[Value]) -> Result<Items<Text>, RosterFault>
    ensures { Reads WrongType (each_item as_str (items_view values.now)) result }
{
    let mut texts = Vec::new(alloc);
    for value in values {
        let text = text(alloc, value)?;
        texts.push(text)?;
    }
    Ok(Items::new(texts))
}

fn texts(alloc: Global, value: &Value) -> Result<Items<Text>, RosterFault>
    ensures { Reads WrongType (texts_of (view value.now)) result }
{
    match value {
        Value::Array(values) => each_text(alloc, values),
        _ => Err(RosterFault::WrongType),
    }
}

/// The two texts of a list of two.
fn as_pair_of(texts: Items<Text>) -> Result<(Text, Text), RosterFault>
    ensures { Reads WrongType (as_pair texts) result }
{
    let mut texts = texts.into_vec();
    if texts.len() != 2 {
        return Err(RosterFault::WrongType);
    }
    let second = texts.remove(1);
    let first = texts.remove(0);
    Ok((first, second))
}

fn pair(alloc: Global, value: &Value) -> Result<(Text, Text), RosterFault>
    ensures { Reads WrongType (pair_of (view value.now)) result }
{
    as_pair_of(texts(alloc, value)?)
}

fn each_pair(alloc: Global, values: &[Value]) -> Result<Items<(Text, Text)>, RosterFault>
    ensures { Reads WrongType (each_item pair_of (items_view values.now)) result }
{
    let mut pairs = Vec::new(alloc);
    for value in values {
        let pair = pair(alloc, value)?;
        pairs.push(pair)?;
    }
    Ok(Items::new(pairs))
}

pub(crate) fn value_at<'t>(table: &'t Table, key: &str) -> Result<&'t Value, RosterFault>
    ensures { MatchResult result (λ v. get_member key.now (table_view table.now) ≡ Some
        (view v.now)) (λ e. (e ≡ WrongType) × (get_member key.now (table_view table.now) ≡ None)) }
{
    match table.get(key) {
        Some(value) => Ok(value),
        None => Err(RosterFault::WrongType),
    }
}

/// The number, or 0 where it is below 0.
fn at_least_zero(n: i64) -> u64
    ensures { result ≡ document.at_least_zero n }
{
    if n < 0 { 0 } else { n as u64 }
}

fn number(value: &Value) -> Result<u64, RosterFault>
    ensures { Reads WrongType (number_of (view value.now)) result }
{
    match value.as_integer() {
        Some(n) => Ok(at_least_zero(n)),
        None => Err(RosterFault::WrongType),
    }
}

fn text_at(alloc: Global, table: &Table, key: &str) -> Result<Text, RosterFault>
    ensures { Reads WrongType (member_of as_str key.now (table_view table.now)) result }
{
    text(alloc, value_at(table, key)?)
}

fn texts_at(alloc: Global, table: &Table, key: &str) -> Result<Items<Text>, RosterFault>
    ensures { Reads WrongType (member_of texts_of key.now (table_view table.now)) result }
{
    texts(alloc, value_at(table, key)?)
}

fn number_at(table: &Table, key: &str) -> Result<u64, RosterFault>
    ensures { Reads WrongType (member_of number_of key.now (table_view table.now)) result }
{
    number(value_at(table, key)?)
}

/// The day whose date the text is, or the day after 2099-12-31, if the text is not the date of a
/// day from 1970-01-01 to 2099-12-31.
fn day_spelled(text: &str) -> Day
    ensures { result ≡ document.day_spelled text.now }
{
    match Day::read(text) {
        Some(day) => day,
        None => Day::from_number(47_482),
    }
}

fn day(value: &Value) -> Result<Day, RosterFault>
    ensures { Reads WrongType (day_in (view value.now)) result }
{
    match value.as_str() {
        Some(text) => Ok(day_spelled(text)),
        None => Err(RosterFault::WrongType),
    }
}

fn day_at(table: &Table, key: &str) -> Result<Day, RosterFault>
    ensures { Reads WrongType (member_of day_in key.now (table_view table.now)) result }
{
    day(value_at(table, key)?)
}

#[tactic(auto, unfolding(crate::specs::Document::duty_entry))]
fn entry_in(alloc: Global, table: &Table) -> Result<(Text, Days), RosterFault>
    ensures { Reads WrongType (duty_entry (data_table (table_view table.now))) result }
{
    let from = day_at(table, "from")?;
    let until = day_at(table, "until")?;
    let duty = text_at(alloc, table, "duty")?;
    Ok((duty, Days::Between(from, until)))
}

/// A duty's label, or a table of a duty and its days.
#[tactic(auto, unfolding(crate::specs::Document::duty_entry))]
fn entry(alloc: Global, value: &Value) -> Result<(Text, Days), RosterFault>
    ensures { Reads WrongType (duty_entry (view value.now)) result }
{
    match value {
        Value::Table(table) => entry_in(alloc, table),
        _ => Ok((text(alloc, value)?, Days::Always)),
    }
}

fn each_entry(alloc: Global, values: &[Value]) -> Result<Items<(Text, Days)>, RosterFault>
    ensures { Reads WrongType (each_item duty_entry (items_view values.now)) result }
{
    let mut entries = Vec::new(alloc);
    for value in values {
        let entry = entry(alloc, value)?;
        entries.push(entry)?;
    }
    Ok(Items::new(entries))
}

fn entries(alloc: Global, value: &Value) -> Result<Items<(Text, Days)>, RosterFault>
    ensures { Reads WrongType (duty_entries (view value.now)) result }
{
    match value {
        Value::Array(values) => each_entry(alloc, values),
        _ => Err(RosterFault::WrongType),
    }
}

fn each_person(
    alloc: Global,
    table: &Table,
) -> Result<Items<(Text, Items<(Text, Days)>)>, RosterFault>
    ensures reads { Reads WrongType (each_member duty_entries (table_view table.now)) result }
    ensures rising { IfOk result AreRising }
{
    let mut people = Vec::new(alloc);
    for (key, value) in table.iter() {
        let entries = entries(alloc, value)?;
        let name = Text::of(alloc, key.as_str())?;
        people.push((name, entries))?;
    }
    Ok(Items::new(people))
}

#[tactic(auto, unfolding(crate::specs::Document::ceiling_of))]
fn ceiling_in(alloc: Global, table: &Table) -> Result<DraftCeiling, RosterFault>
    ensures { Reads WrongType (ceiling_of (data_table (table_view table.now))) result }
{
    let needs = number_at(table, "needs")?;
    let longest = number_at(table, "longest")?;
    let ask = text_at(alloc, table, "ask")?;
    let approve = text_at(alloc, table, "approve")?;
    let hosts = texts_at(alloc, table, "hosts")?;
    let runas = texts_at(alloc, table, "runas")?;
    let commands = texts_at(alloc, table, "commands")?;
    Ok(DraftCeiling {
        ask,
        approve,
        needs,
        hosts,
        runas,
        commands,
        longest,
    })
}

#[tactic(auto, unfolding(crate::specs::Document::ceiling_of))]
fn ceiling(alloc: Global, value: &Value) -> Result<DraftCeiling, RosterFault>
    ensures { Reads WrongType (ceiling_of (view value.now)) result }
{
    match value {
        Value::Table(table) => ceiling_in(alloc, table),
        _ => Err(RosterFault::WrongType),
    }
}

fn each_ceiling(alloc: Global, table: &Table) -> Result<Items<(Text, DraftCeiling)>, RosterFault>
    ensures reads { Reads WrongType (each_member ceiling_of (table_view table.now)) result }
    ensures rising { IfOk result AreRising }
{
    let mut ceilings = Vec::new(alloc);
    for (key, value) in table.iter() {
        let name = Text::of(alloc, key.as_str())?;
        let ceiling = ceiling(alloc, value)?;
        ceilings.push((name, ceiling))?;
    }
    Ok(Items::new(ceilings))
}

fn pairs_at(alloc: Global, table: &Table, key: &str) -> Result<Items<(Text, Text)>, RosterFault>
    ensures { Reads WrongType (member_of pairs_of key.now (table_view table.now)) result }
{
    match value_at(table, key)? {
        Value::Array(values) => each_pair(alloc, values),
        _ => Err(RosterFault::WrongType),
    }
}

fn people_at(
    alloc: Global,
    table: &Table,
    key: &str,
) -> Result<Items<(Text, Items<(Text, Days)>)>, RosterFault>
    ensures reads { Reads WrongType (member_of people_of key.now (table_view table.now)) result }
    ensures rising { IfOk result AreRising }
{
    match value_at(table, key)? {
        Value::Table(table) => each_person(alloc, table),
        _ => Err(RosterFault::WrongType),
    }
}

fn ceilings_at(
    alloc: Global,
    table: &Table,
    key: &str,
) -> Result<Items<(Text, DraftCeiling)>, RosterFault>
    ensures reads { Reads WrongType (member_of ceilings_of key.now (table_view table.now)) result }
    ensures rising { IfOk result AreRising }
{
    match value_at(table, key)? {
        Value::Table(table) => each_ceiling(alloc, table),
        _ => Err(RosterFault::WrongType),
    }
}

/// What the document says; `WrongType` if a key is missing or a value does not have its type.
#[tactic(auto, unfolding(crate::specs::Document::fields_of))]
pub(crate) fn draft_of(alloc: Global, table: &Table) -> Result<Draft, RosterFault>
    ensures reads { Reads WrongType (fields_of (table_view table.now)) result }
    ensures ordered { IfOk result IsOrdered }
{
    let relays = texts_at(alloc, table, "relays")?;
    let hosts = texts_at(alloc, table, "hosts")?;
    let duties = texts_at(alloc, table, "duties")?;
    let conflicts = pairs_at(alloc, table, "conflicts")?;
    let people = people_at(alloc, table, "people")?;
    let ceilings = ceilings_at(alloc, table, "ceilings")?;
    Ok(Draft {
        relays,
        hosts,
        duties,
        conflicts,
        people,
        ceilings,
    })
}
