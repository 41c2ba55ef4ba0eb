// Where the open transactions began.
ghost use Rattle.std.specs.Prelude.{◌≡◌, ◌==◌, IsTrue};
ghost use Rattle.std.specs.List.{list_all, position};
ghost use Rattle.ifdb_store.specs.Kept.{is_later, trimmed};
ghost use Rattle.ifdb_db.specs.Desk.{oldest_of, without};

use ifdb_store::Store;

/// The first of the begins, or the end of the log where there is none.
pub(crate) fn oldest_of(begins: &[u64], count: u64) -> u64
    ensures { result ≡ oldest_of begins.now count }
{
    match begins {
        [] => count,
        [begin, ..] => *begin,
    }
}

/// Takes one of the begins away. Costs a look at those before it.
#[tactic(auto, using(crate::proofs::BeginLaws::removed, crate::proofs::BeginLaws::none_removed))]
pub(crate) fn take_away(begins: &mut Vec<u64>, begin: u64)
    ensures { begins.new.items ≡ without begin begins.old.items }
{
    if let Some(at) = place_of(begins, begin) {
        let _ = begins.remove(at);
    }
}

/// The place of the first of the begins that is this one.
fn place_of(begins: &[u64], begin: u64) -> Option<usize>
    ensures { result ≡ position (λ b. b == begin) begins.now }
{
    begins.iter().position(|other| *other == begin)
}

/// Gives up the commits that no open transaction can meet any more, where the oldest BEGIN was `before` and is `oldest` now. Takes no memory,
/// and looks at no commit where the oldest is as before.
#[tactic(auto, using(crate::proofs::BeginLaws::all_later))]
pub(crate) fn settle(store: &mut Store, before: u64, oldest: u64)
    requires { IsTrue (list_all (is_later before) store.old.commits) }
    ensures rows { store.new.rows ≡ store.old.rows }
    ensures commits { store.new.commits ≡ trimmed oldest store.old.commits }
{
    if before < oldest {
        store.trim(oldest);
    }
}
