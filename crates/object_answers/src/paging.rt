ghost use Rattle.std.specs.Prelude.{◌≡◌, IfOk, map};
ghost use Rattle.store_words.specs.Words.{reply_of};
ghost use Rattle.doc_query.specs.Mapped.{cells_of};
ghost use Rattle.call_model.specs.Steps.{all_shown};
ghost use Rattle.call_words.specs.Told.{answer_with_token, shown_with_token};
ghost use Rattle.object_answers.specs.Paging.{page_from};

use call_words::{Answer, Refuse, Shown, shown};
use plain_data::List;
use saved_doc::Row;
use std::alloc::{AllocError, Global};
use store_words::Reply;
use type_registry::Registry;

/// The answer to a find for this page: the objects of the rows that the store selected, and how many
/// there are on all pages. Any other reply is answered as `NotReady`.
pub fn page_answer(
    alloc: Global,
    reg: &Registry,
    page: u64,
    per_page: u64,
    reply: &Reply,
) -> Result<Answer, AllocError>
    ensures { IfOk result (λ answer. answer ≡ answer_with_token (page_from reg.now page per_page (reply_of reply.now))) }
{
    match reply {
        Reply::Rows(selected) => {
            let objects = objects_of(alloc, reg, &selected.rows)?;
            Ok(Answer::Page {
                objects,
                page,
                per_page,
                total: selected.total,
            })
        }
        _ => Ok(Answer::Refused(Refuse::NotReady)),
    }
}

fn objects_of(alloc: Global, reg: &Registry, rows: &List<Row>) -> Result<List<Shown>, AllocError>
    ensures { IfOk result (λ objects. objects ≡ map shown_with_token (all_shown reg.now (cells_of rows.now))) }
{
    let mut objects = List::new(alloc);
    for row in rows.as_slice() {
        objects.push(shown(alloc, reg, row)?)?;
    }
    Ok(objects)
}
