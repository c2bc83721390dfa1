ghost use Rattle.std.specs.Prelude.{◌≡◌, ◌++◌, ◌∷◌, [], IfOk, OnOk, pos, true};
ghost use Rattle.so_js.specs.Tree.{is_sound};
ghost use Rattle.so_js.specs.declared.js.Js.TheVariants.{Items, Str, Whole};
ghost use Rattle.saved_doc.specs.Writing.{spaces_js};
ghost use Rattle.report.specs.Answers.{number_or_null};
ghost use Rattle.report.specs.Lines.{line_of};

use call_words::Attributes;
use plain_data::{List, Text};
use so_js::{Js, print};
use std::alloc::{AllocError, Global};
use std::marker::Model;

/// A sound tree, which contracts see as the tree.
#[derive(Debug, Drop)]
pub struct Tree {
    js: Js,
}

impl Model for Tree {
    ghost use Rattle.std.specs.Prelude.{◌≡◌, true};
    ghost use Rattle.so_js.specs.declared.js.Js.{Js};
    ghost use Rattle.so_js.specs.Tree.{is_sound};
    ghost use Rattle.so_js.specs.Code.{js_code};

    ghost Value = { Js };

    ghost coded = { js_code };

    ghost view = { λ t. t.js };

    ghost invariant = { λ t. is_sound t.js ≡ true };
}

impl Tree {
    /// The tree. Takes no memory.
    pub fn new(js: Js) -> Tree
        requires { is_sound js ≡ true }
        ensures { result ≡ js }
    {
        Tree { js }
    }

    /// The tree of attributes. Takes no memory.
    pub fn of_attributes(attributes: Attributes) -> Tree
        ensures { result ≡ attributes }
    {
        Tree::new(attributes.into_js())
    }

    /// A whole number. Takes no memory.
    pub fn number(whole: u64) -> Tree
        ensures { result ≡ Whole (pos whole) }
    {
        Tree {
            js: Js::Whole(i128::from(whole)),
        }
    }

    /// A whole number, or null for none. Takes no memory.
    pub fn number_or_null(number: Option<u64>) -> Tree
        ensures { result ≡ number_or_null number }
    {
        match number {
            Some(number) => Tree::number(number),
            None => Tree { js: Js::Null },
        }
    }

    /// A text. Takes no memory.
    pub fn text(text: Text) -> Tree
        ensures { result ≡ Str text }
    {
        Tree { js: Js::Str(text) }
    }

    /// A copy of a text. It errs for want of memory alone.
    pub fn word(alloc: Global, word: &str) -> Result<Tree, AllocError>
        ensures { IfOk result (λ tree. tree ≡ Str word.now) }
    {
        let text = Text::from_str(alloc, word)?;
        Ok(Tree::text(text))
    }

    /// A list. Takes no memory.
    pub fn items(trees: Trees) -> Tree
        ensures { result ≡ Items trees }
    {
        let Trees { items } = trees;
        Tree {
            js: Js::Items(items),
        }
    }

    /// The tree, which is sound. Takes no memory.
    pub fn into_js(self) -> Js
        ensures value { result ≡ self }
        ensures sound { is_sound self ≡ true }
    {
        let Tree { js } = self;
        js
    }

    /// The line that the tree is printed as. It errs for want of memory alone.
    pub fn into_line(self, alloc: Global) -> Result<List<u8>, AllocError>
        ensures { IfOk result (λ line. line ≡ line_of self) }
    {
        let mut line = print(alloc, &self.js)?;
        line.push(b'\n')?;
        Ok(line)
    }
}

/// Sound trees one after another, which contracts see as the list of them.
#[derive(Debug, Drop)]
pub struct Trees {
    items: List<Js>,
}

impl Model for Trees {
    ghost use Rattle.std.specs.Prelude.{◌≡◌, List, true};
    ghost use Rattle.std.specs.Coded.{coded_list};
    ghost use Rattle.so_js.specs.declared.js.Js.{Js};
    ghost use Rattle.so_js.specs.Printing.{are_sound};
    ghost use Rattle.so_js.specs.Code.{js_code};

    ghost Value = { List Js };

    ghost coded = { coded_list js_code };

    ghost view = { λ t. t.items };

    ghost invariant = { λ t. are_sound t.items ≡ true };
}

impl Trees {
    /// No tree yet. Takes no memory.
    pub fn new(alloc: Global) -> Trees
        ensures { result ≡ [] }
    {
        Trees {
            items: List::new(alloc),
        }
    }

    /// Adds a tree at the end. It errs for want of memory alone.
    pub fn push(&mut self, tree: Tree) -> Result<(), AllocError>
        ensures { OnOk result (self.new ≡ self.old ++ tree ∷ []) }
    {
        let js = tree.into_js();
        self.items.push(js)?;
        Ok(())
    }
}

/// A list of texts. It errs for want of memory alone.
pub fn texts_tree(alloc: Global, texts: List<Text>) -> Result<Tree, AllocError>
    ensures { IfOk result (λ tree. tree ≡ spaces_js texts) }
{
    let mut trees = Trees::new(alloc);
    for text in texts.into_vec() {
        trees.push(Tree::text(text))?;
    }
    Ok(Tree::items(trees))
}
