// Laws of the definitions: each function's contract is one, and it does nothing.
ghost use Rattle.ifdb_expr.specs.Laws.{AuthorityComesFirst, ViewRowsAreSeen};

/// The label of each row that a view has at a label flows to that label.
pub fn view_rows_are_seen()
    ensures { ViewRowsAreSeen }
{}

/// A SELECT with a view among its sources whose owner lacks a tag is refused for that, whatever its rows are.
pub fn authority_comes_first()
    ensures { AuthorityComesFirst }
{}
