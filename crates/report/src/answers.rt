ghost use Rattle.std.specs.Prelude.{◌≡◌, ◌∷◌, [], IfOk, map, codes};
ghost use Rattle.so_js.specs.declared.js.Js.TheVariants.{Items};
ghost use Rattle.saved_doc.specs.Writing.{spaces_js};
ghost use Rattle.report.specs.Answers.{object_js, error_js, ok_js, one_js, outcome_name, page_js, resolved_fields, answer_js, placed_js, answer_line_js};
ghost use Rattle.report.specs.Members.{always, object_of};
ghost use Rattle.report.specs.Lines.{line_of};

use crate::fields::{Field, object};
use crate::objects::object_tree;
use crate::refusals::refuse_tree;
use crate::trees::{Tree, Trees, texts_tree};
use call_words::{Answer, MatchKind, One, Refuse, Shown};
use plain_data::{List, Text};
use std::alloc::{AllocError, Global};

/// Which call an answer belongs to.
#[derive(Clone, Copy, Debug, PartialEq, Eq)]
pub enum AnswerAt {
    /// The call of the line of this number, counted from 1.
    Input(u64),
    /// The call of this number of a client, which has this number among all actors.
    Actor { actor: u32, tag: u64 },
}

/// The line of an answer: one object, its members in order of key, ended by a line feed. It errs for
/// want of memory alone.
pub fn answer_line(alloc: Global, at: &AnswerAt, answer: Answer) -> Result<List<u8>, AllocError>
    ensures { IfOk result (λ line. line ≡ line_of (answer_line_js at.now answer)) }
{
    let answer = answer_tree(alloc, answer)?;
    let tree = placed_tree(alloc, *at, answer)?;
    tree.into_line(alloc)
}

fn placed_tree(alloc: Global, at: AnswerAt, answer: Tree) -> Result<Tree, AllocError>
    ensures { IfOk result (λ tree. tree ≡ placed_js at answer) }
{
    match at {
        AnswerAt::Input(at) => {
            let fields = [
                Field::new(alloc, "answer", answer)?,
                Field::number(alloc, "at", at)?,
                Field::word(alloc, "line", "answer")?,
            ];
            object(alloc, fields)
        }
        AnswerAt::Actor { actor, tag } => {
            let fields = [
                Field::number(alloc, "actor", u64::from(actor))?,
                Field::new(alloc, "answer", answer)?,
                Field::word(alloc, "line", "answer")?,
                Field::number(alloc, "tag", tag)?,
            ];
            object(alloc, fields)
        }
    }
}

fn answer_tree(alloc: Global, answer: Answer) -> Result<Tree, AllocError>
    ensures { IfOk result (λ tree. tree ≡ answer_js answer) }
{
    match answer {
        Answer::Object(shown) => ok_tree(alloc, object_tree(alloc, shown)?),
        Answer::Each(ones) => ok_tree(alloc, ones_tree(alloc, ones)?),
        Answer::Deleted => ok_tree(alloc, object(alloc, [])?),
        Answer::Page {
            objects,
            page,
            per_page,
            total,
        } => ok_tree(alloc, page_tree(alloc, objects, page, per_page, total)?),
        Answer::Spaces(spaces) => ok_tree(alloc, spaces_tree(alloc, spaces)?),
        Answer::Resolved {
            object,
            outcome,
            alias_target,
        } => ok_tree(alloc, resolved_tree(alloc, object, outcome, alias_target)?),
        Answer::Refused(refuse) => error_tree(alloc, refuse),
    }
}

fn ok_tree(alloc: Global, tree: Tree) -> Result<Tree, AllocError>
    ensures { IfOk result (λ ok. ok ≡ ok_js tree) }
{
    object(alloc, [Field::new(alloc, "ok", tree)?])
}

fn error_tree(alloc: Global, refuse: Refuse) -> Result<Tree, AllocError>
    ensures { IfOk result (λ tree. tree ≡ error_js refuse) }
{
    let tree = refuse_tree(alloc, refuse)?;
    object(alloc, [Field::new(alloc, "error", tree)?])
}

fn one_tree(alloc: Global, one: One) -> Result<Tree, AllocError>
    ensures { IfOk result (λ tree. tree ≡ one_js one) }
{
    match one {
        One::Object(shown) => ok_tree(alloc, object_tree(alloc, shown)?),
        One::Refused(refuse) => error_tree(alloc, refuse),
    }
}

fn ones_tree(alloc: Global, ones: List<One>) -> Result<Tree, AllocError>
    ensures { IfOk result (λ tree. tree ≡ Items (map one_js ones)) }
{
    let mut trees = Trees::new(alloc);
    for one in ones.into_vec() {
        trees.push(one_tree(alloc, one)?)?;
    }
    Ok(Tree::items(trees))
}

fn objects_tree(alloc: Global, objects: List<Shown>) -> Result<Tree, AllocError>
    ensures { IfOk result (λ tree. tree ≡ Items (map object_js objects)) }
{
    let mut trees = Trees::new(alloc);
    for shown in objects.into_vec() {
        trees.push(object_tree(alloc, shown)?)?;
    }
    Ok(Tree::items(trees))
}

fn page_tree(
    alloc: Global,
    objects: List<Shown>,
    page: u64,
    per_page: u64,
    total: u64,
) -> Result<Tree, AllocError>
    ensures { IfOk result (λ tree. tree ≡ page_js objects page per_page total) }
{
    let fields = [
        Field::new(alloc, "objects", objects_tree(alloc, objects)?)?,
        Field::number(alloc, "page", page)?,
        Field::number(alloc, "perPage", per_page)?,
        Field::number(alloc, "total", total)?,
    ];
    object(alloc, fields)
}

fn spaces_tree(alloc: Global, spaces: List<Text>) -> Result<Tree, AllocError>
    ensures { IfOk result (λ tree. tree ≡ object_of (always (codes "namespaces") (spaces_js spaces) ∷ [])) }
{
    let spaces = texts_tree(alloc, spaces)?;
    object(alloc, [Field::new(alloc, "namespaces", spaces)?])
}

fn resolved_tree(
    alloc: Global,
    shown: Shown,
    outcome: MatchKind,
    target: Option<Text>,
) -> Result<Tree, AllocError>
    ensures { IfOk result (λ tree. tree ≡ object_of (resolved_fields shown outcome target)) }
{
    let found = object_tree(alloc, shown)?;
    let fields = [
        Field::optional_text(alloc, "aliasTargetId", target)?,
        Field::new(alloc, "object", found)?,
        Field::word(alloc, "outcome", outcome_text(outcome))?,
    ];
    object(alloc, fields)
}

fn outcome_text(outcome: MatchKind) -> &'static str
    ensures { result.now ≡ outcome_name outcome }
{
    match outcome {
        MatchKind::ExactMatch => "exactMatch",
        MatchKind::AliasMatch => "aliasMatch",
        MatchKind::Conflict => "conflict",
    }
}
