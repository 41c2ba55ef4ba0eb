// Tables and views as they are defined.
ghost use Rattle.std.specs.Prelude.{◌≡◌, IfOk};

use crate::OutOfMemory;
use crate::select::BoundSelect;
use ifdb_label::{Label, Tag};
use ifdb_value::{Column, Columns, Name, Names, Principal, Sequence, TableId};
use std::alloc::Global;

/// Places of columns in their table, from 0, in order.
pub type Places = Sequence<usize>;

/// Tags, in order, as they are named.
pub type TagList = Sequence<Tag>;

/// A foreign key.
#[derive(Debug, Drop)]
pub struct Foreign {
    /// The columns that refer, one for each column of the parent's primary key.
    pub columns: Places,
    /// The table that they refer to.
    pub parent: TableId,
}

/// Foreign keys, in order.
pub type Foreigns = Sequence<Foreign>;

/// A table as it is defined.
#[derive(Debug, Drop)]
pub struct Schema {
    /// The table's name.
    pub name: Name,
    /// Its columns.
    pub columns: Columns,
    /// The places of its primary key's columns, in the order of the key.
    pub key: Places,
    /// Its foreign keys.
    pub foreign: Foreigns,
}

/// A view as it is defined.
#[derive(Drop)]
pub struct ViewDef {
    /// The view's name.
    pub name: Name,
    /// Who defined it, and must hold the tags that it declassifies at each use.
    pub owner: Principal,
    /// What it shows, over tables.
    pub select: BoundSelect,
    /// The names of its columns, one for each item.
    pub names: Names,
    /// The tags that its rows no longer bear.
    pub declassifying: Label,
}

impl Foreign {
    /// The same foreign key.
    pub fn copy(&self, alloc: Global) -> Result<Foreign, OutOfMemory>
        ensures { IfOk result (λ foreign. foreign ≡ self.now) }
    {
        let columns = self.columns.copy(alloc)?;
        Ok(Foreign {
            columns,
            parent: self.parent,
        })
    }
}

impl Schema {
    /// The same table. Costs its size, in time and in memory.
    pub fn copy(&self, alloc: Global) -> Result<Schema, OutOfMemory>
        ensures { IfOk result (λ schema. schema ≡ self.now) }
    {
        let name = self.name.share()?;
        let columns = self
            .columns
            .copy_by(alloc, |column: &Column| { copied_column(alloc, column) })?;
        let key = self.key.copy(alloc)?;
        let foreign = self
            .foreign
            .copy_by(alloc, |foreign: &Foreign| { foreign.copy(alloc) })?;
        Ok(Schema {
            name,
            columns,
            key,
            foreign,
        })
    }
}

impl ViewDef {
    /// The same view. Costs its size, in time and in memory.
    pub fn copy(&self, alloc: Global) -> Result<ViewDef, OutOfMemory>
        ensures { IfOk result (λ view. view ≡ self.now) }
    {
        let name = self.name.share()?;
        let select = self.select.copy(alloc)?;
        let names = self.names.copy_by(alloc, |name: &Name| name.share())?;
        let declassifying = self.declassifying.share()?;
        Ok(ViewDef {
            name,
            owner: self.owner,
            select,
            names,
            declassifying,
        })
    }
}

/// The same column.
fn copied_column(alloc: Global, column: &Column) -> Result<Column, OutOfMemory>
    ensures { IfOk result (λ copy. copy ≡ column.now) }
{
    let name = column.name.share()?;
    Ok(Column {
        name,
        kind: column.kind,
    })
}
