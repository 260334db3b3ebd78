//! The keys that a roster's document may have.

ghost use Rattle.std.specs.Prelude.{◌≡◌, Some, codes};
ghost use Rattle.std.specs.List.{list_all, list_any};
ghost use Rattle.std.specs.Str.{bytes_eq};
ghost use Rattle.toml.specs.Data.{get_member};
ghost use Rattle.toml.specs.View.{table_view, view};
ghost use Rattle.roster.specs.Document.{each_key, each_value, has_entry_keys as has_inner};
ghost use Rattle.roster.specs.Document.{have_entry_keys as have_inner, is_entry_key};
ghost use Rattle.roster.specs.Document.{people_have_entry_keys as people_have};
ghost use Rattle.roster.specs.Document.{has_ceiling_keys as has_keys};
ghost use Rattle.roster.specs.Document.{have_ceiling_keys as have_keys, has_known_keys as known};
ghost use Rattle.roster.specs.Document.{is_ceiling_key as is_inner_key, is_roster_key as is_key};

use crate::typed::value_at;
use toml::{Table, Value};

/// Whether each key of the table is one of these.
fn has_only(keys: &[&str], table: &Table) -> bool
    ensures { result
        ≡ each_key (λ k. list_any (λ w. bytes_eq w.now k) keys.now) (table_view table.now) }
{
    for (key, _value) in table.iter() {
        if !(&*keys).contains(&key.as_str()) {
            return false;
        }
    }
    true
}

fn has_roster_keys(table: &Table) -> bool
    ensures { result ≡ each_key is_key (table_view table.now) }
{
    has_only(
        &[
            "relays",
            "hosts",
            "duties",
            "conflicts",
            "people",
            "ceilings",
        ],
        table,
    )
}

fn has_only_ceiling_keys(table: &Table) -> bool
    ensures { result ≡ each_key is_inner_key (table_view table.now) }
{
    has_only(
        &[
            "ask", "approve", "needs", "hosts", "runas", "commands", "longest",
        ],
        table,
    )
}

fn has_ceiling_keys(value: &Value) -> bool
    ensures { result ≡ has_keys (view value.now) }
{
    match value {
        Value::Table(table) => has_only_ceiling_keys(table),
        _ => true,
    }
}

fn each_has_ceiling_keys(table: &Table) -> bool
    ensures { result ≡ each_value has_keys (table_view table.now) }
{
    for (_key, value) in table.iter() {
        if !has_ceiling_keys(value) {
            return false;
        }
    }
    true
}

fn have_ceiling_keys(value: &Value) -> bool
    ensures { result ≡ have_keys (Some (view value.now)) }
{
    match value {
        Value::Table(table) => each_has_ceiling_keys(table),
        _ => true,
    }
}

fn has_only_entry_keys(table: &Table) -> bool
    ensures { result ≡ each_key is_entry_key (table_view table.now) }
{
    has_only(&["duty", "from", "until"], table)
}

fn has_entry_keys(value: &Value) -> bool
    ensures { result ≡ has_inner (view value.now) }
{
    match value {
        Value::Table(table) => has_only_entry_keys(table),
        _ => true,
    }
}

fn each_entry_has_keys(values: &[Value]) -> bool
    ensures { result ≡ list_all (λ v. has_inner (view v)) values.now }
{
    values.iter().all(|v| has_entry_keys(v))
}

fn have_entry_keys(value: &Value) -> bool
    ensures { result ≡ have_inner (view value.now) }
{
    match value {
        Value::Array(values) => each_entry_has_keys(values),
        _ => true,
    }
}

fn each_person_has_keys(table: &Table) -> bool
    ensures { result ≡ each_value have_inner (table_view table.now) }
{
    for (_key, value) in table.iter() {
        if !have_entry_keys(value) {
            return false;
        }
    }
    true
}

fn people_have_keys(value: &Value) -> bool
    ensures { result ≡ people_have (Some (view value.now)) }
{
    match value {
        Value::Table(table) => each_person_has_keys(table),
        _ => true,
    }
}

fn ceilings_at_have_keys(table: &Table) -> bool
    ensures { result ≡ have_keys (get_member (codes "ceilings") (table_view table.now)) }
{
    match value_at(table, "ceilings") {
        Ok(value) => have_ceiling_keys(value),
        Err(_) => true,
    }
}

fn people_at_have_keys(table: &Table) -> bool
    ensures { result ≡ people_have (get_member (codes "people") (table_view table.now)) }
{
    match value_at(table, "people") {
        Ok(value) => people_have_keys(value),
        Err(_) => true,
    }
}

/// Whether the document, its ceilings and its entries have only the keys that they may have.
#[tactic(auto, unfolding(crate::specs::Document::has_known_keys))]
pub(crate) fn has_known_keys(table: &Table) -> bool
    ensures { result ≡ known (table_view table.now) }
{
    has_roster_keys(table) && ceilings_at_have_keys(table) && people_at_have_keys(table)
}
