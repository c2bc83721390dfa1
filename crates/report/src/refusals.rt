ghost use Rattle.std.specs.Prelude.{◌≡◌, IfOk};
ghost use Rattle.report.specs.Answers.{code_of, name_of, now_of, seen_of, refuse_js};

use crate::fields::{Field, object};
use crate::trees::Tree;
use call_words::Refuse;
use std::alloc::{AllocError, Global};

/// A refusal: its number, its name, and for `Busy` the numbers that the call met. It errs for want of
/// memory alone.
pub fn refuse_tree(alloc: Global, refuse: Refuse) -> Result<Tree, AllocError>
    ensures { IfOk result (λ tree. tree ≡ refuse_js refuse) }
{
    let fields = [
        Field::number(alloc, "code", refuse_code(refuse))?,
        Field::word(alloc, "name", refuse_name(refuse))?,
        Field::optional(alloc, "now", refuse_now(refuse))?,
        Field::optional(alloc, "seen", refuse_seen(refuse))?,
    ];
    object(alloc, fields)
}

fn refuse_code(refuse: Refuse) -> u64
    ensures { result ≡ code_of refuse }
{
    match refuse {
        Refuse::NotFound => 1,
        Refuse::Conflict => 2,
        Refuse::UnsupportedType => 3,
        Refuse::BadId => 4,
        Refuse::BadSpace => 5,
        Refuse::BadToken => 6,
        Refuse::WriteBlocked => 7,
        Refuse::NotReady => 8,
        Refuse::NeedsForce => 9,
        Refuse::TooNew => 10,
        Refuse::Busy { .. } => 11,
        Refuse::BadPage => 12,
        Refuse::BadFilter => 13,
    }
}

fn refuse_name(refuse: Refuse) -> &'static str
    ensures { result.now ≡ name_of refuse }
{
    match refuse {
        Refuse::NotFound => "NotFound",
        Refuse::Conflict => "Conflict",
        Refuse::UnsupportedType => "UnsupportedType",
        Refuse::BadId => "BadId",
        Refuse::BadSpace => "BadSpace",
        Refuse::BadToken => "BadToken",
        Refuse::WriteBlocked => "WriteBlocked",
        Refuse::NotReady => "NotReady",
        Refuse::NeedsForce => "NeedsForce",
        Refuse::TooNew => "TooNew",
        Refuse::Busy { .. } => "Busy",
        Refuse::BadPage => "BadPage",
        Refuse::BadFilter => "BadFilter",
    }
}

fn refuse_now(refuse: Refuse) -> Option<Tree>
    ensures { result ≡ now_of refuse }
{
    match refuse {
        Refuse::Busy { now, .. } => Some(Tree::number_or_null(now)),
        _ => None,
    }
}

fn refuse_seen(refuse: Refuse) -> Option<Tree>
    ensures { result ≡ seen_of refuse }
{
    match refuse {
        Refuse::Busy { seen, .. } => Some(Tree::number_or_null(seen)),
        _ => None,
    }
}
