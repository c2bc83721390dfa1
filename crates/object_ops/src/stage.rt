use call_words::{Answer, Target};
use object_answers::Look;
use object_items::{Ready, Turn};
use plain_data::List;
use space_scope::Space;

/// How far a plan has come, and what it needs to read the next reply.
#[derive(Debug, Drop)]
pub(crate) enum Stage {
    /// It asks nothing of the store, and this is its answer.
    Known(Answer),
    /// It reads the rows of its items.
    Reading {
        alone: bool,
        space: Space,
        turns: List<Turn>,
    },
    /// It writes its items.
    Writing {
        alone: bool,
        items: List<Ready>,
    },
    /// It reads the rows that it answers.
    Looking {
        alone: bool,
        space: Space,
        looks: List<Look>,
    },
    /// It searches for this page.
    Searching {
        page: u64,
        per_page: u64,
    },
    /// It reads the exact row and the alias document.
    Following {
        space: Space,
        target: Target,
    },
    /// It reads both again beside the alias's target; `seen` is the alias document's number.
    Meeting {
        space: Space,
        target: Target,
        seen: Option<u64>,
    },
    /// It has its answer.
    Ended(Answer),
}
