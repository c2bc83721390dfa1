ghost use Rattle.std.specs.Prelude.{◌≡◌, ◌↔◌, ◌==◌, ℕ, List, Some, IfOk, OnOk, IfErr};
ghost use Rattle.std.specs.Cmp.{partial_equiv_from_equiv};
ghost use Rattle.std.specs.Cmp.Lexicographic.{pointwise, nat_list_eq_equiv};
ghost use Rattle.kql_filter.specs.declared.tree.FilterError.TheVariants.{BadFilter};
ghost use Rattle.kql_filter.specs.Filters.{meaning_of, HasTree};
ghost use Rattle.kql_filter.specs.Grammar.{IsFilter};
ghost use Rattle.kql_filter.specs.Meaning.{meaning};
ghost use Rattle.kql_filter.specs.Parsing.{tree_in};
ghost use Rattle.kql_filter.specs.Tree.{Tree};

use crate::tree::{Expression, FilterError};
use crate::{copying, holding, parsing};
use plain_data::Text;
use so_js::Js;
use std::alloc::{AllocError, Global};
use std::marker::Model;

/// A filter: a text of at most 4,096 bytes in the subset of the Kibana query language that
/// `specs/Grammar.antt` defines, and its tree. Contracts see the text, which has one tree.
#[derive(Debug, Drop)]
pub struct Filter {
    text: Text,
    tree: Expression,
    alloc: Global,
}

impl Model for Filter {
    ghost use Rattle.std.specs.Prelude.{List, ℕ};

    ghost Value = { List ℕ };

    ghost use Rattle.kql_filter.specs.Grammar.{IsFilter};
    ghost use Rattle.kql_filter.specs.Tree.{tree_of};

    ghost view = { λ f. f.text };

    ghost invariant = { λ f. ∥ IsFilter f.text (tree_of f.tree) ∥₁ };
}

impl Filter {
    /// The text that was read.
    pub fn text(&self) -> &str
        ensures value { result.now ≡ self.now }
        ensures is_filter { HasTree self.now }
    {
        self.text.as_str()
    }
}

impl Clone for Filter {
    ghost is_clone = { λ old new. new ≡ old };

    fn clone(&self) -> Result<Filter, AllocError> {
        Ok(Filter {
            text: self.text.clone()?,
            tree: copying::copy(self.alloc, &self.tree)?,
            alloc: self.alloc,
        })
    }
}

/// Two filters are equal where their texts are.
impl PartialEq for Filter {
    ghost eq = { pointwise ◌==◌ };

    ghost laws = { partial_equiv_from_equiv nat_list_eq_equiv };

    fn eq(&self, other: &Filter) -> bool {
        self.text == other.text
    }
}

impl Eq for Filter {
    ghost laws = { nat_list_eq_equiv };
}

/// Reads a filter. `BadFilter` comes exactly where the text is none; `Memory` is want of memory.
pub fn read(alloc: Global, text: &str) -> Result<Filter, FilterError>
    ensures text { IfOk result (λ filter. filter ≡ text.now) }
    ensures is_filter { OnOk result (HasTree text.now) }
    ensures bad { IfErr result (λ error. error ≡ BadFilter → ¬ HasTree text.now) }
{
    let tree = parsing::tree(alloc, text.as_bytes())?;
    Ok(Filter {
        text: Text::from_str(alloc, text)?,
        tree,
        alloc,
    })
}

/// Whether the filter holds of an object of this type with these attributes, as
/// `specs/Meaning.antt` says. Takes no memory.
pub fn holds(filter: &Filter, type_name: &str, attributes: &Js) -> bool
    ensures value { result ≡ meaning_of filter.now type_name.now attributes.now }
    ensures meaning { (tree : Tree) → IsFilter filter.now tree → result ≡ meaning tree type_name.now attributes.now }
{
    holding::holds_tree(&filter.tree, type_name, attributes)
}

/// A law: no text has two trees, and the function that reads a text gives its tree exactly where it
/// has one.
pub fn one_tree()
    ensures one { (text : List ℕ) (x y : Tree) → IsFilter text x → IsFilter text y → x ≡ y }
    ensures read { (text : List ℕ) (x : Tree) → (tree_in text ≡ Some x) ↔ IsFilter text x }
{}
