// Binding: a request with numbers for its names.
ghost use Rattle.std.specs.Prelude.{◌≡◌, Ok, IfOk};
ghost use Rattle.ifdb_wire.specs.Refused.{RefusedAs};
ghost use Rattle.ifdb_catalog.specs.Binding.{bound};

use crate::inserts::{NewRows, insert};
use crate::names::{NewPrincipal, NewTag, create_principal, create_tag, grant, revoke, set_label};
use crate::tables::{NewTable, create_table};
use crate::views::{NewView, create_view};
use crate::writes::{Changes, delete, update};
use ifdb_bound::Bound;
use ifdb_catalog::Catalog;
use ifdb_select::select;
use ifdb_syntax::Request;
use ifdb_value::Principal;
use ifdb_wire::Fault;
use std::alloc::Global;

/// A request of a principal with numbers for its names, as they stand in this catalog.
///
/// Its refusals are those of the definition, each tested over the whole request before the next one; `OutOfMemory` where an
/// allocation is refused, which may be before a refusal is known.
///
/// A name of a principal, tag, table or view is looked up in the same time however many there are; a column among its sources' columns.
#[tactic(auto, unfolding(ifdb_catalog::specs::Binding::bound))]
pub fn bind(
    alloc: Global,
    catalog: &Catalog,
    asker: Principal,
    request: Request,
) -> Result<Bound, Fault>
    ensures bound { IfOk result (λ b. bound catalog.now asker request ≡ Ok b) }
    ensures refused { RefusedAs (bound catalog.now asker request) result }
{
    match request {
        Request::CreatePrincipal {
            name,
            key,
            clearance,
        } => create_principal(
            alloc,
            catalog,
            asker,
            NewPrincipal {
                name,
                key,
                clearance,
            },
        ),
        Request::CreateTag {
            name,
            compound,
            parents,
        } => create_tag(
            alloc,
            catalog,
            asker,
            NewTag {
                name,
                compound,
                parents,
            },
        ),
        Request::CreateTable {
            name,
            columns,
            key,
            foreign,
        } => create_table(
            alloc,
            catalog,
            asker,
            NewTable {
                name,
                columns,
                key,
                foreign,
            },
        ),
        Request::CreateView { name, select, tags } => {
            create_view(alloc, catalog, asker, NewView { name, select, tags })
        }
        Request::Grant { tag, to } => grant(catalog, asker, &tag, &to),
        Request::Revoke { tag, from } => revoke(catalog, asker, &tag, &from),
        Request::SetLabel { tags } => set_label(alloc, catalog, tags.items()),
        Request::Select(query) => {
            let bound = select(alloc, catalog, &query);
            drop(query);
            bound
        }
        Request::Insert {
            table,
            columns,
            rows,
            tags,
        } => insert(
            alloc,
            catalog,
            &table,
            NewRows {
                columns,
                rows,
                tags,
            },
        ),
        Request::Update {
            table,
            assignments,
            cond,
            tags,
        } => {
            let changes = Changes {
                assignments: assignments.items(),
                cond: &cond,
                tags: tags.items(),
            };
            let bound = update(alloc, catalog, &table, changes);
            drop(assignments);
            drop(cond);
            bound
        }
        Request::Delete { table, cond } => {
            let bound = delete(alloc, catalog, &table, &cond);
            drop(cond);
            bound
        }
        Request::Hello { .. }
        | Request::ShowLabel
        | Request::Begin
        | Request::Commit
        | Request::Rollback
        | Request::Bye => Ok(Bound::Other),
    }
}
