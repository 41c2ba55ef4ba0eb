// Laws of the definitions: each function's contract is one, and it does nothing.
ghost use Rattle.ifdb_catalog.specs.Laws.{BoundFits, BoundIsNew, BoundStaysFitting, KnownColumnsStand, ResolvesTheOne, StatesStayFitting, TagsStayWellFormed};

/// A column's name is resolved exactly where it may mean one column of the sources and no other, and that column is there.
pub fn names_mean_one_column()
    ensures one { ResolvesTheOne }
    ensures stands { KnownColumnsStand }
{}

/// What is bound fits the public state that it is bound in: its numbers stand for something, its labels are over made tags, and its
/// trees fit the columns that they are over.
pub fn bound_requests_fit()
    ensures { BoundFits }
{}

/// What fits a public state that fits also fits each later one, whatever changes come between: numbers stand for what they stood for.
pub fn bound_requests_stay_fitting()
    ensures { BoundStaysFitting }
{}

/// What a bound change makes has a name that stands for nothing yet among the principals, the tags, or the tables and views.
pub fn bound_changes_are_new()
    ensures { BoundIsNew }
{}

/// A change that fits leaves each tag's parents older than the tag.
pub fn tags_stay_well_formed()
    ensures { TagsStayWellFormed }
{}

/// A public state that starts at the opening and takes changes that fit it keeps fitting: each table's places and parents stand, and
/// so do each view's tables, places and tags.
pub fn states_stay_fitting()
    ensures { StatesStayFitting }
{}
