ghost use Rattle.std.specs.Prelude.{◌≡◌, ◌<◌, [], ◌∷◌, length, drop, slice_get, MatchOption, IfSome};
ghost use Rattle.doc_table.specs.RowLists.{Each};
ghost use Rattle.doc_table.specs.Tables.{entries, entry_of};
ghost use Rattle.doc_table.specs.Pages.{live_from, page_rows, rows_of, rows_left, IsSound, IsLiveAt};

use crate::page::{SharedPage, is_live};
use saved_doc::Row;
use std::marker::Model;

/// Lends a table's rows in order; contracts see those that are left. Takes no memory.
#[derive(Drop)]
pub struct Rows<'a> {
    pages: &'a [SharedPage],
    page: usize,
    at: usize,
}

impl<'a> Model for Rows<'a> {
    ghost use Rattle.base_model.specs.Keyed.{Keyed};
    ghost use Rattle.document_model.specs.Documents.{Doc as Document};
    ghost use Rattle.race_model.specs.Stores.{Cell};
    ghost use Rattle.so_js.specs.declared.js.Js.{Js};
    ghost use Rattle.doc_table.specs.RowLists.{Each};
    ghost use Rattle.doc_table.specs.Pages.{rows_left, IsSound};
    ghost use Rattle.doc_table.specs.Tables.{entries, rows_code};

    ghost Value = { Keyed (Cell (Document Js)) };

    ghost coded = { rows_code };

    ghost view = { λ r. entries (rows_left r.pages.now r.page r.at) };

    ghost invariant = { λ r. Each IsSound r.pages.now };
}

impl<'a> Rows<'a> {
    /// The rows of these pages.
    pub(crate) fn of(pages: &'a [SharedPage]) -> Rows<'a>
        requires { Each IsSound pages.now }
        ensures { result ≡ entries (rows_of pages.now) }
    {
        Rows {
            pages,
            page: 0,
            at: 0,
        }
    }

    /// The next row, or `None` where none is left. Takes no memory.
    pub fn next(&mut self) -> Option<&'a Row>
        ensures { MatchOption result ((self.old ≡ []) × (self.new ≡ [])) (λ x. self.old ≡ entry_of x.now ∷ self.new) }
    {
        let pages = self.pages;
        let (p, i) = next_spot(pages, self.page, self.at);
        self.page = p;
        if p >= pages.len() {
            self.at = i;
            return None;
        }
        let held = &pages[p];
        let rows = held.rows();
        if i >= rows.len() {
            return None;
        }
        self.at = i + 1;
        Some(rows[i].row())
    }
}

/// The first live index of a page from `at` on, or one past the end.
fn next_live(held: &SharedPage, at: usize) -> usize
    requires { IsSound held.now }
    ensures same { live_from held.now.live result (drop result (page_rows held.now)) ≡ live_from held.now.live at (drop at (page_rows held.now)) }
    ensures alive { result < length (page_rows held.now) → IsLiveAt held.now result }
{
    let rows = held.rows();
    let mut i = at;
    while i < rows.len() {
        if is_live(held.live, i) {
            return i;
        }
        i += 1;
    }
    i
}

/// The first live row's page and index, from an index of a page on.
fn next_spot(pages: &[SharedPage], page: usize, from: usize) -> (usize, usize)
    requires { Each IsSound pages.now }
    ensures same { rows_left pages.now result.0 result.1 ≡ rows_left pages.now page from }
    ensures alive { IfSome (slice_get pages.now result.0) (λ h. IsLiveAt h result.1) }
{
    let mut p = page;
    let mut at = from;
    while p < pages.len() {
        let held = &pages[p];
        let i = next_live(held, at);
        if i < held.rows().len() {
            return (p, i);
        }
        p += 1;
        at = 0;
    }
    (p, at)
}
