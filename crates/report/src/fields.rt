ghost use Rattle.std.specs.Prelude.{◌≡◌, ◌++◌, IfOk, OnOk, true, option_map};
ghost use Rattle.so_js.specs.declared.js.Js.TheVariants.{Str};
ghost use Rattle.saved_doc.specs.Writing.{if_some};
ghost use Rattle.report.specs.Answers.{number_js};
ghost use Rattle.report.specs.Members.{always, optional, members_there, object_of, rise, values_are_sound};

use crate::trees::Tree;
use plain_data::{List, Text};
use so_js::{Js, Member};
use std::alloc::{AllocError, Global};

/// A member of an object, which is there where it has a value.
#[derive(Debug, Drop)]
pub struct Field {
    pub key: Text,
    pub value: Option<Tree>,
}

impl Field {
    /// A member where there is a value. It errs for want of memory alone, as those below do.
    pub fn optional(alloc: Global, key: &str, value: Option<Tree>) -> Result<Field, AllocError>
        ensures { IfOk result (λ f. f ≡ optional key.now value) }
    {
        Ok(Field {
            key: Text::from_str(alloc, key)?,
            value,
        })
    }

    /// A member.
    pub fn new(alloc: Global, key: &str, value: Tree) -> Result<Field, AllocError>
        ensures { IfOk result (λ f. f ≡ always key.now value) }
    {
        let field = Field::optional(alloc, key, Some(value))?;
        Ok(field)
    }

    /// A member that is a text.
    pub fn text(alloc: Global, key: &str, text: Text) -> Result<Field, AllocError>
        ensures { IfOk result (λ f. f ≡ always key.now (Str text)) }
    {
        let field = Field::new(alloc, key, Tree::text(text))?;
        Ok(field)
    }

    /// A member where there is a text.
    pub fn optional_text(alloc: Global, key: &str, text: Option<Text>) -> Result<Field, AllocError>
        ensures { IfOk result (λ f. f ≡ optional key.now (option_map Str text)) }
    {
        match text {
            Some(text) => {
                let field = Field::text(alloc, key, text)?;
                Ok(field)
            }
            None => {
                let field = Field::optional(alloc, key, None)?;
                Ok(field)
            }
        }
    }

    /// A member that is a copy of a text.
    pub fn word(alloc: Global, key: &str, word: &str) -> Result<Field, AllocError>
        ensures { IfOk result (λ f. f ≡ always key.now (Str word.now)) }
    {
        let field = Field::new(alloc, key, Tree::word(alloc, word)?)?;
        Ok(field)
    }

    /// A member that is a whole number.
    pub fn number(alloc: Global, key: &str, number: u64) -> Result<Field, AllocError>
        ensures { IfOk result (λ f. f ≡ always key.now (number_js number)) }
    {
        let field = Field::new(alloc, key, Tree::number(number))?;
        Ok(field)
    }
}

/// The object of the members that are there, whose keys are given in their order. It errs for want
/// of memory alone.
pub fn object<const N: usize>(alloc: Global, fields: [Field; N]) -> Result<Tree, AllocError>
    requires { rise fields ≡ true }
    ensures { IfOk result (λ tree. tree ≡ object_of fields.entry) }
{
    let fields = Vec::from_array(alloc, fields)?;
    let members = members(alloc, List::from_vec(fields))?;
    Ok(Tree::new(Js::Object(members)))
}

fn members(alloc: Global, fields: List<Field>) -> Result<List<Member>, AllocError>
    ensures value { IfOk result (λ members. members ≡ members_there fields) }
    ensures sound { IfOk result (λ members. values_are_sound members ≡ true) }
{
    let mut members = List::new(alloc);
    for field in fields.into_vec() {
        push_field(&mut members, field)?;
    }
    Ok(members)
}

fn push_field(members: &mut List<Member>, field: Field) -> Result<(), AllocError>
    ensures value { OnOk result (members.new ≡ members.old ++ if_some field.key field.value) }
    ensures sound { OnOk result (values_are_sound members.old ≡ true → values_are_sound members.new ≡ true) }
{
    let Field { key, value } = field;
    if let Some(tree) = value {
        let value = tree.into_js();
        members.push(Member { key, value })?;
    }
    Ok(())
}
