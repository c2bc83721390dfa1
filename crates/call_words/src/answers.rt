ghost use Rattle.std.specs.Prelude.{◌≡◌, IfOk};

use crate::attributes::Attributes;
use crate::copying::{copied_references, copied_spaces, copied_text, copied_texts};
use call_model::{MatchKind, Refuse};
use document_model::Ref;
use plain_data::{List, Text};
use std::alloc::AllocError;
use version_token::Ver;

/// The answer to a call. A clone equals its answer, or is refused for want of memory.
#[derive(Debug, Drop)]
pub enum Answer {
    /// The object that a call read or wrote.
    Object(Shown),
    /// The answers to the items of a bulk call, in their order.
    Each(List<One>),
    /// The object was deleted.
    Deleted,
    /// A page of the objects that a find selects; `total` counts those of all pages.
    Page {
        objects: List<Shown>,
        page: u64,
        per_page: u64,
        total: u64,
    },
    /// The spaces of an object after a share; none where it was deleted.
    Spaces(List<Text>),
    /// The object that a resolve found, by which id, and the id that the alias leads to.
    Resolved {
        object: Shown,
        outcome: MatchKind,
        alias_target: Option<Text>,
    },
    /// Why the call was refused.
    Refused(Refuse),
}

/// The answer to one item of a bulk call. A clone equals its answer, or is refused for want of
/// memory.
#[derive(Debug, Drop)]
pub enum One {
    Object(Shown),
    Refused(Refuse),
}

/// An object as it is shown. A clone equals its object, or is refused for want of memory.
#[derive(Debug, Drop)]
pub struct Shown {
    pub type_name: Text,
    pub id: Text,
    pub attributes: Attributes,
    pub references: List<Ref>,
    /// The token of the number of its row.
    pub version: Text,
    /// The version of its type that it was last migrated to.
    pub stamp: Option<Ver>,
    /// The version of the product that wrote it.
    pub core: Option<Ver>,
    /// The id that it had before it became shareable, or was imported with.
    pub origin: Option<Text>,
    pub updated_at: Option<Text>,
    /// The one space of a single type's object, the list of a multiple kind's; none of an agnostic
    /// type.
    pub namespaces: Option<List<Text>>,
}

impl Clone for Shown {
    ghost is_clone = { λ old new. new ≡ old };

    fn clone(&self) -> Result<Shown, AllocError> {
        Ok(Shown {
            type_name: self.type_name.clone()?,
            id: self.id.clone()?,
            attributes: self.attributes.clone()?,
            references: copied_references(&self.references)?,
            version: self.version.clone()?,
            stamp: self.stamp,
            core: self.core,
            origin: copied_text(&self.origin)?,
            updated_at: copied_text(&self.updated_at)?,
            namespaces: copied_spaces(&self.namespaces)?,
        })
    }
}

impl Clone for One {
    ghost is_clone = { λ old new. new ≡ old };

    fn clone(&self) -> Result<One, AllocError> {
        match self {
            One::Object(object) => Ok(One::Object(object.clone()?)),
            One::Refused(refuse) => Ok(One::Refused(*refuse)),
        }
    }
}

impl Clone for Answer {
    ghost is_clone = { λ old new. new ≡ old };

    fn clone(&self) -> Result<Answer, AllocError> {
        match self {
            Answer::Object(object) => Ok(Answer::Object(object.clone()?)),
            Answer::Each(ones) => Ok(Answer::Each(copied_ones(ones)?)),
            Answer::Deleted => Ok(Answer::Deleted),
            Answer::Page {
                objects,
                page,
                per_page,
                total,
            } => Ok(Answer::Page {
                objects: copied_objects(objects)?,
                page: *page,
                per_page: *per_page,
                total: *total,
            }),
            Answer::Spaces(spaces) => Ok(Answer::Spaces(copied_texts(spaces)?)),
            Answer::Resolved {
                object,
                outcome,
                alias_target,
            } => Ok(Answer::Resolved {
                object: object.clone()?,
                outcome: *outcome,
                alias_target: copied_text(alias_target)?,
            }),
            Answer::Refused(refuse) => Ok(Answer::Refused(*refuse)),
        }
    }
}

fn copied_ones(ones: &List<One>) -> Result<List<One>, AllocError>
    ensures { IfOk result (λ copy. copy ≡ ones.now) }
{
    let copy = ones.clone()?;
    Ok(copy)
}

fn copied_objects(objects: &List<Shown>) -> Result<List<Shown>, AllocError>
    ensures { IfOk result (λ copy. copy ≡ objects.now) }
{
    let copy = objects.clone()?;
    Ok(copy)
}
