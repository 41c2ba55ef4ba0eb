// Rows of views.
ghost use Rattle.std.specs.Prelude.{◌≡◌};
ghost use Rattle.ifdb_expr.specs.ByReference.{shown};

use ifdb_expr::SeenRow;
use ifdb_label::Label;
use ifdb_value::{Sequence, ValueRow};
use std::marker::Model;

/// A row of a view. Contracts see it as a source shows it.
#[derive(Drop)]
pub struct ViewRow {
    values: ValueRow,
    label: Label,
}

/// Rows of a view, in their order.
pub type ViewRows = Sequence<ViewRow>;

impl Model for ViewRow {
    ghost use Rattle.ifdb_bound.specs.Query.{SourceRow};

    ghost Value = { SourceRow };

    ghost view = { λ r. record { values = r.values; label = r.label } };
}

impl ViewRow {
    ghost use Rattle.ifdb_expr.specs.View.{labelled};

    /// The row of these values at this label.
    pub fn new(values: ValueRow, label: Label) -> Self
        ensures { result ≡ labelled label values }
    {
        ViewRow { values, label }
    }

    /// The row by reference.
    pub fn seen(&self) -> SeenRow<'_>
        ensures { shown result ≡ self.now }
    {
        SeenRow {
            values: self.values.items(),
            label: self.label.tags(),
        }
    }
}
