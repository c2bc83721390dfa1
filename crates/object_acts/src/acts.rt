ghost use Rattle.std.specs.Prelude.{◌≡◌};
ghost use Rattle.call_model.specs.Acts.{target_of};
ghost use Rattle.object_acts.specs.Mapped.{act_of};

use call_words::{Change, NewObject, Target};
use plain_data::{List, Text};

/// One change of one object: a call, or an item of a bulk call. `at` is the time that a document it
/// writes gets, where it is given.
#[derive(Clone, Debug, Drop)]
pub enum Act {
    /// Creates an object; with `overwrite` it replaces one that is there.
    Create {
        object: NewObject,
        overwrite: bool,
        at: Option<Text>,
    },
    /// Replaces attributes of an object, and its references where they are given.
    Update {
        change: Change,
        at: Option<Text>,
    },
    /// Deletes an object; one that lies in several spaces, or in all, with `force` alone.
    Delete {
        target: Target,
        force: bool,
    },
    /// Adds an object to spaces, and then takes it out of spaces.
    Share {
        target: Target,
        add: List<Text>,
        remove: List<Text>,
        at: Option<Text>,
    },
}

impl Act {
    /// The type of the object that it changes. Takes no memory.
    pub fn type_name(&self) -> &str
        ensures { result.now ≡ (target_of (act_of self.now)).type_name }
    {
        match self {
            Act::Create { object, .. } => object.type_name.as_str(),
            Act::Update { change, .. } => change.type_name.as_str(),
            Act::Delete { target, .. } => target.type_name.as_str(),
            Act::Share { target, .. } => target.type_name.as_str(),
        }
    }

    /// The id of the object that it changes. Takes no memory.
    pub fn id(&self) -> &str
        ensures { result.now ≡ (target_of (act_of self.now)).id }
    {
        match self {
            Act::Create { object, .. } => object.id.as_str(),
            Act::Update { change, .. } => change.id.as_str(),
            Act::Delete { target, .. } => target.id.as_str(),
            Act::Share { target, .. } => target.id.as_str(),
        }
    }
}
