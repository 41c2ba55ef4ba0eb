// The views of the public state.
ghost use Rattle.std.specs.Prelude.{◌≡◌, IfOk, List, Bool, slice_get};
ghost use Rattle.std.specs.Option.{option_copied};
ghost use Rattle.ifdb_bound.specs.declared.schema.ViewDef.{ViewDef as AnyView};
ghost use Rattle.ifdb_view.specs.Made.{owner_holds};

use crate::OutOfMemory;
use ifdb_bound::ViewDef;
use ifdb_value::ViewId;

/// The views that are defined, and whether their owners hold what they declassify.
pub trait Views {
    /// The views, in the order of their numbers.
    ghost views: { Self → List AnyView };

    /// The view's owner holds each tag that the view declassifies.
    ghost allows: { Self → AnyView → Bool };

    /// A view, or `None` exactly where there is none of this number.
    fn view(&self, id: ViewId) -> Option<&ViewDef>
        ensures { option_copied result ≡ slice_get (views self.now) id };

    /// Whether the owner of a view holds each tag that the view declassifies; true where there is none of this number.
    fn is_allowed(&self, id: ViewId) -> Result<bool, OutOfMemory>
        ensures { IfOk result (λ allowed.
            allowed ≡ owner_holds (allows self.now) (slice_get (views self.now) id)) };
}
