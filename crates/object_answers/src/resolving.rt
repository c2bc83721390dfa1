ghost use Rattle.std.specs.Prelude.{◌≡◌, IfOk};
ghost use Rattle.std.specs.Option.{option_copied};
ghost use Rattle.space_scope.specs.Spaces.{space_text};
ghost use Rattle.store_words.specs.Words.{reply_of};
ghost use Rattle.call_model.specs.Acts.{raw_of as raw_in, shown as shown_in};
ghost use Rattle.call_model.specs.Calls.Answer.{Resolved};
ghost use Rattle.call_model.specs.Steps.{alias_target as target_in, counted as counted_in, exact_over, number_of as number_in, resolved_by, resolved_over, same_number as same_in};
ghost use Rattle.call_words.specs.Product.{product_words};
ghost use Rattle.call_words.specs.Told.{answer_with_token};
ghost use Rattle.object_answers.specs.Following.{followed, followed_over, between as answer_between};
ghost use Rattle.object_answers.specs.Mapped.{row_of};

use crate::rows::{raw_at, seen_row, shown_at};
use call_words::{Answer, MatchKind, Refuse, Target, alias_target, target_raw};
use plain_data::Text;
use saved_doc::Row;
use space_scope::Space;
use std::alloc::{AllocError, Global};
use store_words::Reply;
use type_registry::Registry;

/// What the first read of a resolve shows.
#[derive(Debug, Drop)]
pub enum Followed {
    /// No alias leads to another object, so the exact row decides; or `NotReady`.
    Answered(Answer),
    /// An alias document with this number leads to this object, which is to be read beside both.
    Leads { seen: Option<u64>, goal: Target },
}

/// What the reply to the first read of a resolve leads to: the rows of the object's own raw id and of
/// its alias document. Any other reply is answered as `NotReady`.
pub fn follow(
    alloc: Global,
    reg: &Registry,
    space: &Space,
    target: &Target,
    reply: &Reply,
) -> Result<Followed, AllocError>
    ensures { IfOk result (λ told. told ≡ followed reg.now (space_text space.now) target.now (reply_of reply.now)) }
{
    match reply {
        Reply::Found(rows) => match rows.as_slice() {
            [exact, link] => follow_rows(alloc, reg, space, target, exact, link),
            _ => Ok(Followed::Answered(Answer::Refused(Refuse::NotReady))),
        },
        _ => Ok(Followed::Answered(Answer::Refused(Refuse::NotReady))),
    }
}

/// What the rows of the object's own raw id and of its alias document lead to.
fn follow_rows(
    alloc: Global,
    reg: &Registry,
    space: &Space,
    target: &Target,
    exact: &Option<Row>,
    link: &Option<Row>,
) -> Result<Followed, AllocError>
    ensures { IfOk result (λ told. told ≡ followed_over reg.now (space_text space.now) target.now (target_in product_words (row_of link.now)) (row_of exact.now) (row_of link.now)) }
{
    match goal_of(link)? {
        Some(goal) => Ok(Followed::Leads {
            seen: number_of(link),
            goal,
        }),
        None => {
            let exact = seen_row(reg, space, target, exact);
            let answer = exact_answer(alloc, reg, space, target, exact)?;
            Ok(Followed::Answered(answer))
        }
    }
}

/// The answer of a resolve from its second read: the rows of the object's own raw id, of its alias
/// document and of the object that the alias led to. `Busy` with both numbers where the alias
/// document has another number than `seen`. Any other reply is answered as `NotReady`.
pub fn between(
    alloc: Global,
    reg: &Registry,
    space: &Space,
    target: &Target,
    seen: Option<u64>,
    reply: &Reply,
) -> Result<Answer, AllocError>
    ensures { IfOk result (λ answer. answer ≡ answer_with_token (answer_between reg.now (space_text space.now) target.now seen (reply_of reply.now))) }
{
    match reply {
        Reply::Found(rows) => match rows.as_slice() {
            [exact, link, goal] => {
                let now = number_of(link);
                if is_same(seen, now) {
                    resolved_by_rows(alloc, reg, space, target, exact, link, goal)
                } else {
                    Ok(Answer::Refused(Refuse::Busy { seen, now }))
                }
            }
            _ => Ok(Answer::Refused(Refuse::NotReady)),
        },
        _ => Ok(Answer::Refused(Refuse::NotReady)),
    }
}

/// The answer from the rows of the object's own raw id, of its alias document and of the alias's target.
fn resolved_by_rows(
    alloc: Global,
    reg: &Registry,
    space: &Space,
    target: &Target,
    exact: &Option<Row>,
    link: &Option<Row>,
    goal: &Option<Row>,
) -> Result<Answer, AllocError>
    ensures { IfOk result (λ answer. answer ≡ answer_with_token (resolved_by reg.now (space_text space.now) target.now (target_in product_words (row_of link.now)) (row_of exact.now) (λ alias. row_of goal.now))) }
{
    let exact = seen_row(reg, space, target, exact);
    match goal_of(link)? {
        Some(alias) => {
            let goal = counted(reg, space, &alias, goal);
            resolved(alloc, reg, space, target, alias, exact, goal)
        }
        None => exact_answer(alloc, reg, space, target, exact),
    }
}

/// The object that the alias document leads to, if it is there.
fn goal_of(link: &Option<Row>) -> Result<Option<Target>, AllocError>
    ensures { IfOk result (λ goal. goal ≡ target_in product_words (row_of link.now)) }
{
    match link {
        Some(link) => alias_target(link.doc.get()),
        None => Ok(None),
    }
}

fn number_of(row: &Option<Row>) -> Option<u64>
    ensures { result ≡ number_in (row_of row.now) }
{
    match row {
        Some(row) => Some(row.seq),
        None => None,
    }
}

fn is_same(seen: Option<u64>, now: Option<u64>) -> bool
    ensures { result ≡ same_in seen now }
{
    match (seen, now) {
        (Some(seen), Some(now)) => seen == now,
        (None, None) => true,
        _ => false,
    }
}

/// The row of an alias's target, where the alias counts: the target's type is known, and the row has
/// it and is visible.
fn counted<'a>(
    reg: &Registry,
    space: &Space,
    alias: &Target,
    row: &'a Option<Row>,
) -> Option<&'a Row>
    ensures { row_of (option_copied result) ≡ counted_in reg.now (space_text space.now) alias.now (row_of row.now) }
{
    if reg.kind_of(alias.type_name.as_str()).is_none() {
        return None;
    }
    seen_row(reg, space, alias, row)
}

/// The answer from the exact row alone.
fn exact_answer(
    alloc: Global,
    reg: &Registry,
    space: &Space,
    target: &Target,
    exact: Option<&Row>,
) -> Result<Answer, AllocError>
    ensures { IfOk result (λ answer. answer ≡ answer_with_token (exact_over reg.now (raw_in reg.now (space_text space.now) target.now) (row_of (option_copied exact.entry)))) }
{
    match exact {
        Some(exact) => resolved_to(
            alloc,
            reg,
            raw_at(alloc, reg, space, target)?,
            exact,
            MatchKind::ExactMatch,
            None,
        ),
        None => Ok(Answer::Refused(Refuse::NotFound)),
    }
}

/// The answer from the exact row, and the row of the alias's target where the alias counts.
fn resolved(
    alloc: Global,
    reg: &Registry,
    space: &Space,
    target: &Target,
    alias: Target,
    exact: Option<&Row>,
    goal: Option<&Row>,
) -> Result<Answer, AllocError>
    ensures { IfOk result (λ answer. answer ≡ answer_with_token (resolved_over reg.now (raw_in reg.now (space_text space.now) target.now) alias (row_of (option_copied exact.entry)) (row_of (option_copied goal.entry)))) }
{
    match (exact, goal) {
        (Some(exact), Some(_)) => {
            let raw = raw_at(alloc, reg, space, target)?;
            resolved_to(alloc, reg, raw, exact, MatchKind::Conflict, Some(alias.id))
        }
        (None, Some(goal)) => {
            let raw = target_raw(alloc, &alias)?;
            resolved_to(alloc, reg, raw, goal, MatchKind::AliasMatch, Some(alias.id))
        }
        (exact, None) => exact_answer(alloc, reg, space, target, exact),
    }
}

/// The answer that shows a row under this raw id.
fn resolved_to(
    alloc: Global,
    reg: &Registry,
    raw: Text,
    row: &Row,
    outcome: MatchKind,
    alias_target: Option<Text>,
) -> Result<Answer, AllocError>
    ensures { IfOk result (λ answer. answer ≡ answer_with_token (Resolved (shown_in reg.now raw row.now.seq row.now.doc) outcome alias_target)) }
{
    let object = shown_at(alloc, reg, raw, row)?;
    Ok(Answer::Resolved {
        object,
        outcome,
        alias_target,
    })
}
