ghost use Rattle.std.specs.Prelude.{◌≡◌, IfOk, option_map, codes};
ghost use Rattle.saved_doc.specs.Writing.{ver_js, ref_js, refs_js, spaces_js};
ghost use Rattle.report.specs.Answers.{object_js};
ghost use Rattle.report.specs.Members.{optional};

use crate::fields::{Field, object};
use crate::trees::{Tree, Trees, texts_tree};
use call_words::{Ref, Shown};
use plain_data::{List, Text};
use std::alloc::{AllocError, Global};
use version_token::Ver;

/// An object as it is shown: its members in order of key, those that it lacks left out. It errs for
/// want of memory alone.
pub fn object_tree(alloc: Global, shown: Shown) -> Result<Tree, AllocError>
    ensures { IfOk result (λ tree. tree ≡ object_js shown) }
{
    let references = references_tree(alloc, shown.references)?;
    let fields = [
        Field::new(alloc, "attributes", Tree::of_attributes(shown.attributes))?,
        version_field(alloc, "coreMigrationVersion", shown.core)?,
        Field::text(alloc, "id", shown.id)?,
        spaces_field(alloc, shown.namespaces)?,
        Field::optional_text(alloc, "originId", shown.origin)?,
        Field::new(alloc, "references", references)?,
        Field::text(alloc, "type", shown.type_name)?,
        version_field(alloc, "typeMigrationVersion", shown.stamp)?,
        Field::optional_text(alloc, "updated_at", shown.updated_at)?,
        Field::text(alloc, "version", shown.version)?,
    ];
    object(alloc, fields)
}

fn version_field(alloc: Global, key: &str, version: Option<Ver>) -> Result<Field, AllocError>
    ensures { IfOk result (λ f. f ≡ optional key.now (option_map ver_js version)) }
{
    match version {
        Some(version) => {
            let text = Text::from_string(version.text(alloc)?);
            let field = Field::text(alloc, key, text)?;
            Ok(field)
        }
        None => {
            let field = Field::optional(alloc, key, None)?;
            Ok(field)
        }
    }
}

fn spaces_field(alloc: Global, spaces: Option<List<Text>>) -> Result<Field, AllocError>
    ensures { IfOk result (λ f. f ≡ optional (codes "namespaces") (option_map spaces_js spaces)) }
{
    match spaces {
        Some(spaces) => {
            let tree = texts_tree(alloc, spaces)?;
            let field = Field::new(alloc, "namespaces", tree)?;
            Ok(field)
        }
        None => {
            let field = Field::optional(alloc, "namespaces", None)?;
            Ok(field)
        }
    }
}

fn references_tree(alloc: Global, references: List<Ref>) -> Result<Tree, AllocError>
    ensures { IfOk result (λ tree. tree ≡ refs_js references) }
{
    let mut trees = Trees::new(alloc);
    for reference in references.into_vec() {
        trees.push(reference_tree(alloc, reference)?)?;
    }
    Ok(Tree::items(trees))
}

fn reference_tree(alloc: Global, reference: Ref) -> Result<Tree, AllocError>
    ensures { IfOk result (λ tree. tree ≡ ref_js reference) }
{
    let fields = [
        Field::text(alloc, "id", reference.id)?,
        Field::text(alloc, "name", reference.name)?,
        Field::text(alloc, "type", reference.type_name)?,
    ];
    object(alloc, fields)
}
