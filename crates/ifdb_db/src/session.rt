// Sessions.
ghost use Rattle.std.specs.Prelude.{◌≡◌, true};
ghost use Rattle.std.specs.Option.{is_some};
ghost use Rattle.ifdb_db.specs.Client.{new_client};
ghost use Rattle.ifdb_db.specs.Sessions.{IsSessionOver};

use crate::txn::Txn;
use ifdb_label::Label;
use ifdb_value::Principal;
use std::alloc::Global;
use std::marker::Model;

/// A session: whether it is open, the principal that it said HELLO for, that principal's clearance as its ceiling, its label, which it
/// keeps once it is closed, and its transaction.
///
/// Contracts see a client: the machine's session, and what its transaction began with.
#[derive(Drop)]
pub struct Session {
    pub(crate) is_open: bool,
    pub(crate) principal: Option<Principal>,
    pub(crate) ceiling: Option<Label>,
    pub(crate) label: Label,
    pub(crate) txn: Option<Txn>,
}

impl Model for Session {
    ghost use Rattle.ifdb_db.specs.Client.{Client};

    ghost Value = { Client };

    ghost use Rattle.std.specs.Coded.{codes};
    ghost use Rattle.ifdb_bound.specs.contracts.condition.BoundCond as cond;
    ghost use Rattle.ifdb_bound.specs.contracts.expression.BoundExpr as expr;

    ghost coded = { Prim.hlevel (codes, cond.the_row.coded, expr.the_row.coded) };

    ghost view = { λ s. record {
      is_open = s.is_open;
      principal = s.principal;
      ceiling = s.ceiling;
      label = s.label;
      txn = s.txn;
    } };
}

impl Session {
    /// An open session without a principal and a ceiling, at the empty label. Takes no memory.
    pub fn new(alloc: Global) -> Self
        ensures { result ≡ new_client }
    {
        Session {
            is_open: true,
            principal: None,
            ceiling: None,
            label: Label::empty(),
            txn: None,
        }
    }

    /// Whether the session is open.
    pub fn is_open(&self) -> bool
        ensures { result ≡ self.now.is_open }
    {
        self.is_open
    }

    /// Whether the session is closed, and in no transaction.
    pub(crate) fn is_over(&self) -> bool
        ensures over { result ≡ true → IsSessionOver self.now }
    {
        !self.is_open && self.txn.is_none()
    }

    /// Whether HELLO was accepted.
    pub fn has_principal(&self) -> bool
        ensures { result ≡ is_some self.now.principal }
    {
        self.principal.is_some()
    }

    /// The session's label.
    pub fn label(&self) -> &Label
        ensures { result.now ≡ self.now.label }
    {
        &self.label
    }

    /// Whether a transaction is open.
    pub fn in_transaction(&self) -> bool
        ensures { result ≡ is_some self.now.txn }
    {
        self.txn.is_some()
    }
}
