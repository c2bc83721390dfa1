//! The words of object calls: calls and answers, the refusals by a call's own words, raw ids of
//! objects, and rows as they are shown.
#![tactic(auto)]

mod aliases;
mod answers;
mod attributes;
mod calls;
mod copying;
mod finding;
mod raw_ids;
mod refusals;
mod showing;
mod spaces;
mod visibility;

pub use aliases::{alias_target, text_at};
pub use answers::{Answer, One, Shown};
pub use attributes::Attributes;
pub use call_model::{MatchKind, Refuse};
pub use calls::{Call, Change, Find, Given, NewObject};
pub use document_model::Ref;
pub use finding::{Asked, query_of_find};
pub use query_model::{Sort, Target};
pub use raw_ids::{alias_of, raw_of, target_raw};
pub use refusals::{
    create_refusal, delete_refusal, look_refusal, resolve_refusal, share_refusal, update_refusal,
};
pub use showing::shown;
pub use spaces::{are_spaces_or_all, has_bad_space, is_space, read_space};
pub use visibility::{is_seen, kind_of};
