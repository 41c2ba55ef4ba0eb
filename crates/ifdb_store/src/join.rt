// Small pages joined with their neighbours.
ghost use Rattle.std.specs.Prelude.{◌≡◌, ◌≤◌, ◌++◌, ◌∷◌, [], IfOk, IsTrue, OnOk, length};
ghost use Rattle.std.specs.List.{list_all, list_any};
ghost use Rattle.ifdb_row.specs.Content.{rising};
ghost use Rattle.ifdb_store.specs.Pages.{are_joined, flat, is_page, is_small, may_join};

use crate::entry::Entry;
use crate::page::{PAGE_ROWS, Page};
use crate::put::add_rows;
use crate::share::Share;
use ifdb_row::OutOfMemory;
use std::alloc::Global;

/// A page of fewer rows is small, and is joined with a neighbour where both fit into one.
pub(crate) const SMALL_PAGE: usize = 16;

/// Joins pages, so that no two neighbours may be joined: none is touched, where none is small.
pub(crate) fn join(alloc: Global, pages: &mut Vec<Entry<Page>>) -> Result<(), OutOfMemory>
    requires good { IsTrue (list_all is_page pages.old.items) }
    requires rising { IsTrue (rising (flat pages.old.items)) }
    ensures rows { OnOk result (flat pages.new.items ≡ flat pages.old.items) }
    ensures good { OnOk result (IsTrue (list_all is_page pages.new.items)) }
    ensures joined { OnOk result (IsTrue (are_joined pages.new.items)) }
{
    if is_some_small(pages) {
        *pages = all_joined(alloc, pages)?;
    }
    Ok(())
}

/// The joined pages of the same rows, by a look at each page.
fn all_joined(alloc: Global, pages: &[Entry<Page>]) -> Result<Vec<Entry<Page>>, OutOfMemory>
    requires good { IsTrue (list_all is_page pages.now) }
    requires rising { IsTrue (rising (flat pages.now)) }
    ensures rows { IfOk result (λ all. flat all.items ≡ flat pages.now) }
    ensures good { IfOk result (λ all. IsTrue (list_all is_page all.items)) }
    ensures joined { IfOk result (λ all. IsTrue (are_joined all.items)) }
{
    let mut all = Vec::with_capacity(alloc, pages.len())?;
    for page in pages {
        add_joined(alloc, page.shared()?, &mut all)?;
    }
    Ok(all)
}

/// Whether some page is small.
fn is_some_small(pages: &[Entry<Page>]) -> bool
    ensures { result ≡ list_any is_small pages.now }
{
    pages.iter().any(|page| is_small(page.get()))
}

/// Whether a page is small.
fn is_small(page: &Page) -> bool
    ensures { result ≡ is_small page.now }
{
    page.rows().len() < SMALL_PAGE
}

/// Adds a page behind others, or its rows to the last of them.
fn add_joined(
    alloc: Global,
    page: Entry<Page>,
    all: &mut Vec<Entry<Page>>,
) -> Result<(), OutOfMemory>
    requires page { IsTrue (is_page page) }
    requires good { IsTrue (list_all is_page all.old.items) }
    requires rising { IsTrue (rising (flat all.old.items ++ page)) }
    requires joined { IsTrue (are_joined all.old.items) }
    ensures rows { OnOk result (flat all.new.items ≡ flat all.old.items ++ page) }
    ensures good { OnOk result (IsTrue (list_all is_page all.new.items)) }
    ensures joined { OnOk result (IsTrue (are_joined all.new.items)) }
{
    match all.pop() {
        None => all.push(page)?,
        Some(last) => add_pair(alloc, last, page, all)?,
    }
    Ok(())
}

/// Adds two pages behind others, as one if they may be joined.
fn add_pair(
    alloc: Global,
    last: Entry<Page>,
    page: Entry<Page>,
    all: &mut Vec<Entry<Page>>,
) -> Result<(), OutOfMemory>
    requires last { IsTrue (is_page last) }
    requires page { IsTrue (is_page page) }
    requires good { IsTrue (list_all is_page all.old.items) }
    requires rising { IsTrue (rising (last ++ page)) }
    requires joined { IsTrue (are_joined (all.old.items ++ last ∷ [])) }
    ensures rows { OnOk result (flat all.new.items ≡ flat all.old.items ++ (last ++ page)) }
    ensures good { OnOk result (IsTrue (list_all is_page all.new.items)) }
    ensures joined { OnOk result (IsTrue (are_joined all.new.items)) }
{
    if may_join(&last, &page) {
        all.push(one_page(alloc, &last, &page)?)?;
    } else {
        all.push(last)?;
        all.push(page)?;
    }
    Ok(())
}

/// Whether one of two pages is small, and both fit into one.
fn may_join(page: &Entry<Page>, other: &Entry<Page>) -> bool
    ensures { result ≡ may_join page.now other.now }
{
    let fits = page.get().rows().len() + other.get().rows().len() <= PAGE_ROWS;
    fits && (is_small(page.get()) || is_small(other.get()))
}

/// The page of the rows of two.
fn one_page(
    alloc: Global,
    page: &Entry<Page>,
    other: &Entry<Page>,
) -> Result<Entry<Page>, OutOfMemory>
    requires some { 1 ≤ length page.now }
    requires few { length (page.now ++ other.now) ≤ 64 }
    requires rising { IsTrue (rising (page.now ++ other.now)) }
    ensures { IfOk result (λ both. both ≡ page.now ++ other.now) }
{
    let mut rows = Vec::with_capacity(alloc, PAGE_ROWS)?;
    add_rows(page.get().rows(), &mut rows)?;
    add_rows(other.get().rows(), &mut rows)?;
    Entry::new(alloc, Page::of(alloc, &rows)?)
}
