//! What calls that read answer from the store's replies: gets, finds and resolves; and the form that
//! answers of one object and of many take.
#![tactic(auto)]

mod forms;
mod looking;
mod paging;
mod resolving;
mod rows;

pub use forms::in_form;
pub use looking::{Look, found_answer, looked_raws, looks, refused_answer};
pub use paging::page_answer;
pub use resolving::{Followed, between, follow};
