// That a room and a session may go to another thread.
ghost use Rattle.std.specs.Thread.{IsSend, IsSync};
ghost use Rattle.ifdb_catalog.specs.contracts.catalog.Catalog as catalog;
ghost use Rattle.ifdb_db.specs.contracts.room.Room as room;
ghost use Rattle.ifdb_db.specs.contracts.session.Session as session;
ghost use Rattle.ifdb_db.specs.contracts.sessions.open.OpenSessions as sessions;
ghost use Rattle.ifdb_db.specs.contracts.sessions.open.OpenSessionsSessions.TheImpl as served;

use ifdb_bound::{Schema, ViewDef};
use ifdb_catalog::Credentials;
use ifdb_store::{Content, Store};
use ifdb_value::Name;
use indexmap::{IndexMap, IndexSet};
use std::marker::{Send, Sync};

/// A room may go to another thread, and so may a session that it lends. Does nothing: the checker finds it of the parts that hold
/// themselves, and not of the whole.
pub fn room_crosses()
    ensures room { IsSend (room.the_row sessions.the_row served.ghosts) }
    ensures session { IsSend session.the_row }
{
    catalog_crosses();
    sends::<Store>();
    sends::<Content>();
}

fn catalog_crosses()
    ensures send { IsSend catalog.the_row }
    ensures sync { IsSync catalog.the_row }
{
    sends::<IndexMap<Name, Credentials>>();
    sends::<IndexSet<Name>>();
    sends::<IndexMap<Name, Schema>>();
    sends::<IndexMap<Name, ViewDef>>();
    syncs::<IndexMap<Name, Credentials>>();
    syncs::<IndexSet<Name>>();
    syncs::<IndexMap<Name, Schema>>();
    syncs::<IndexMap<Name, ViewDef>>();
}

fn sends<T: Send>()
    ensures { IsSend T.row }
{}

fn syncs<T: Sync>()
    ensures { IsSync T.row }
{}
