//! A store of an older form.

use crate::left::filled;
use std::alloc::Global;
use trial::files::{Pair, empty};
use trial::texts::{APPROVAL, REQUEST, Rules, roster_text};
use trial::trouble::Trouble;

/// The statements that make the tables of schema 1, and fill them.
fn statements(alloc: Global) -> Result<String, Trouble> {
    let roster = roster_text(alloc, Rules::Full)?;
    Ok(format!(in alloc;
        "CREATE TABLE desk (id INTEGER PRIMARY KEY, schema INTEGER NOT NULL, roster TEXT NOT NULL) STRICT; CREATE TABLE messages (body TEXT PRIMARY KEY NOT NULL) STRICT; CREATE TABLE names (asker TEXT NOT NULL, no INTEGER NOT NULL, body TEXT NOT NULL, disputed INTEGER NOT NULL, PRIMARY KEY (asker, no)) STRICT; CREATE TABLE marks (asker TEXT NOT NULL, no INTEGER NOT NULL, person TEXT NOT NULL, kind TEXT NOT NULL, at INTEGER NOT NULL, PRIMARY KEY (asker, no, person, kind)) STRICT; CREATE TABLE parked (body TEXT PRIMARY KEY NOT NULL, asker TEXT NOT NULL, no INTEGER NOT NULL) STRICT; INSERT INTO desk VALUES (1, 1, '{roster}'); INSERT INTO messages VALUES ('{APPROVAL}'), ('{REQUEST}'); INSERT INTO names VALUES ('ann', 7, '{REQUEST}', 0); INSERT INTO marks VALUES ('ann', 7, 'bob', 'approve', 1767601800);"
    )?)
}

/// A store of schema 1 that holds the request and the approval.
pub(crate) fn older(alloc: Global) -> Result<Pair, Trouble> {
    let sql = statements(alloc)?;
    filled(alloc, &empty(alloc), sql.as_str())
}
