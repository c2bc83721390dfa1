use crate::attributes::Attributes;
use document_model::Ref;
use plain_data::{List, Text};
use query_model::{Sort, Target};
use version_token::Ver;

/// A call on saved objects. `space` is the space that it is made in, and `at` is the time that the
/// documents it writes get, where it is given.
#[derive(Debug, Drop)]
pub enum Call {
    /// Creates an object; with `overwrite` it replaces one that is there.
    Create {
        space: Text,
        object: NewObject,
        overwrite: bool,
        at: Option<Text>,
    },
    /// Creates each of the objects, one after another.
    BulkCreate {
        space: Text,
        objects: List<NewObject>,
        overwrite: bool,
        at: Option<Text>,
    },
    /// Reads an object.
    Get {
        space: Text,
        target: Target,
    },
    /// Reads an object by its own id or by an old one.
    Resolve {
        space: Text,
        target: Target,
    },
    /// Reads each of the objects.
    BulkGet {
        space: Text,
        objects: List<Target>,
    },
    /// Replaces attributes of an object, and its references where they are given.
    Update {
        space: Text,
        change: Change,
        at: Option<Text>,
    },
    /// Deletes an object; one that lies in several spaces, or in all, with `force` alone.
    Delete {
        space: Text,
        target: Target,
        force: bool,
    },
    /// Searches objects of the types: page `page`, counted from 1, of pages of `per_page` objects.
    Find {
        space: Text,
        types: List<Text>,
        page: u64,
        per_page: u64,
        sort: Sort,
        descending: bool,
        reference: Option<Target>,
        origin: Option<Text>,
        filter: Option<Text>,
    },
    /// Adds an object to spaces, and then takes it out of spaces.
    Share {
        space: Text,
        target: Target,
        add: List<Text>,
        remove: List<Text>,
        at: Option<Text>,
    },
}

/// An object to create.
#[derive(Clone, Debug, Drop)]
pub struct NewObject {
    pub type_name: Text,
    pub id: Text,
    pub attributes: Attributes,
    pub references: List<Ref>,
    pub given: Given,
    /// The id that it had before it became shareable, or was imported with.
    pub origin: Option<Text>,
}

/// The stamp that an object to create comes with.
#[derive(Clone, Copy, Debug, PartialEq, Eq)]
pub enum Given {
    /// No stamp: the attributes are of the latest version.
    Latest,
    /// The empty map alone: the attributes are older than all versions.
    All,
    /// The attributes are of this version.
    Above(Ver),
}

/// What an update gives an object.
#[derive(Clone, Debug, Drop)]
pub struct Change {
    pub type_name: Text,
    pub id: Text,
    /// The members that take the place of those of the same name.
    pub attributes: Attributes,
    pub references: Option<List<Ref>>,
    /// The token of the version that the update was made from.
    pub version: Option<Text>,
}

/// What a find asks for, borrowed from its call.
#[derive(Clone, Copy, Debug)]
pub struct Find<'a> {
    pub types: &'a List<Text>,
    pub page: u64,
    pub per_page: u64,
    pub sort: Sort,
    pub descending: bool,
    pub reference: &'a Option<Target>,
    pub origin: &'a Option<Text>,
    pub filter: &'a Option<Text>,
}
