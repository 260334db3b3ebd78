//! What a crash leaves of a connection at rest.

ghost use Rattle.sqlite.specs.Held.{state};
ghost use Rattle.store_tables.specs.SqliteStates.{IsUp, Rests};
ghost use Rattle.desk_store.specs.Crash.{MayShow};
ghost use Rattle.desk_store.specs.private.Survival.{Settled};

use sqlite::{Alter, Connection};

/// While the store is up, a crash leaves what the connection shows. The function is called for this
/// contract alone.
pub(crate) fn settles<S: Alter>(conn: &Connection<S>)
    requires { Rests (state S.Store conn.now) }
    ensures { Settled (state S.Store conn.now) }
{
    let _schema = conn.schema();
}

/// While the store is up, a crash may leave what the connection shows. The function is called for
/// this contract alone.
pub(crate) fn may_show<S: Alter>(conn: &Connection<S>)
    requires { Rests (state S.Store conn.now) }
    ensures { IsUp (state S.Store conn.now)
        → MayShow (state S.Store conn.now) (state S.Store conn.now).now }
{
    let _schema = conn.schema();
}
