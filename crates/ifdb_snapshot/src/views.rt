// The views of a public state.
ghost use Rattle.ifdb_catalog.specs.Public.{has_tags};

use crate::OutOfMemory;
use ifdb_bound::ViewDef;
use ifdb_catalog::Catalog;
use ifdb_value::ViewId;
use ifdb_view::Views;

/// The views of a public state, whose owners may declassify what they hold there.
#[derive(Clone, Copy)]
pub(crate) struct CatalogViews<'a> {
    /// The public state.
    pub(crate) catalog: &'a Catalog,
}

impl Views for CatalogViews<'_> {
    ghost views = { λ v. v.catalog.now.views };

    ghost allows = { λ v x. has_tags v.catalog.now x.owner x.declassifying };

    fn view(&self, id: ViewId) -> Option<&ViewDef> {
        self.catalog.view(id)
    }

    #[tactic(auto, using(crate::proofs::ViewLemmas::declassifying_made))]
    fn is_allowed(&self, id: ViewId) -> Result<bool, OutOfMemory> {
        match self.catalog.view(id) {
            None => Ok(true),
            Some(view) => self.catalog.has_tags(view.owner, view.declassifying.tags()),
        }
    }
}
