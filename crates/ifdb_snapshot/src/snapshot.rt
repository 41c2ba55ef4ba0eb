// What a request sees.
ghost use Rattle.std.specs.Prelude.{◌≡◌, IfOk, IsTrue, Ok};
ghost use Rattle.ifdb_wire.specs.Refused.{RefusedAs};
ghost use Rattle.ifdb_catalog.specs.Binding.{bound};
ghost use Rattle.ifdb_catalog.specs.Fits.{bound_fits};
ghost use Rattle.ifdb_snapshot.specs.Narrow.{is_narrow, is_narrow_bound};
ghost use Rattle.ifdb_snapshot.specs.Sound.{is_sound};

use crate::public_state::PublicState;
use ifdb_bind::bind;
use ifdb_bound::Bound;
use ifdb_store::Content;
use ifdb_syntax::Request;
use ifdb_value::Principal;
use ifdb_wire::Fault;
use std::alloc::Global;
use std::marker::Model;

/// What a request sees: the public state, and the rows in the order of their slots, each of which fits its table.
#[derive(Drop)]
pub struct Snapshot<'a> {
    pub(crate) alloc: Global,
    pub(crate) public: &'a PublicState,
    pub(crate) rows: &'a Content,
}

impl<'a> Model for Snapshot<'a> {
    ghost use Rattle.std.specs.Prelude.{IsTrue};
    ghost use Rattle.ifdb_model.specs.Session.{Seen};
    ghost use Rattle.ifdb_snapshot.specs.Sound.{is_sound};

    ghost Value = { Seen };

    ghost use Rattle.std.specs.Coded.{codes};
    ghost use Rattle.ifdb_bound.specs.contracts.condition.BoundCond as cond;
    ghost use Rattle.ifdb_bound.specs.contracts.expression.BoundExpr as expr;

    ghost coded = { Prim.hlevel (codes, cond.the_row.coded, expr.the_row.coded) };

    ghost view = { λ s. record { public = s.public.now; rows = s.rows.now } };

    ghost invariant = { λ s. IsTrue (is_sound (record { public = s.public.now; rows = s.rows.now })) };
}

impl<'a> Snapshot<'a> {
    /// A snapshot of a public state and of rows that fit it. Answers take their memory from `alloc`.
    pub fn new(alloc: Global, public: &'a PublicState, rows: &'a Content) -> Self
        requires { IsTrue (is_sound (record { public = public.now; rows = rows.now })) }
        ensures { result ≡ record { public = public.now; rows = rows.now } }
    {
        Snapshot {
            alloc,
            public,
            rows,
        }
    }

    /// A request of a principal with numbers for its names, or the refusal of its names.
    #[tactic(auto, using(ifdb_catalog::proofs::BoundRequestsFit::bound_is_fitting, crate::proofs::Narrow::bound_narrow))]
    pub fn bind(&self, asker: Principal, request: Request) -> Result<Bound, Fault>
        requires { IsTrue (is_narrow request) }
        ensures bound { IfOk result (λ found. bound self.now.public asker request ≡ Ok found) }
        ensures fits { IfOk result (λ found. IsTrue (bound_fits self.now.public found)) }
        ensures narrow { IfOk result (λ found. IsTrue (is_narrow_bound found)) }
        ensures refused { RefusedAs (bound self.now.public asker request) result }
    {
        bind(self.alloc, self.public.catalog(), asker, request)
    }
}
