ghost use Rattle.std.specs.Prelude.{◌≡◌, find, []};
ghost use Rattle.std.specs.List.{list_any};
ghost use Rattle.std.specs.Str.{bytes_eq};
ghost use Rattle.std.specs.Option.{option_copied};
ghost use Rattle.so_js.specs.Tree.{member_of};
ghost use Rattle.kql_filter.specs.Words.{number_of};
ghost use Rattle.kql_filter.specs.Tree.{tree_of};
ghost use Rattle.kql_filter.specs.Meaning.{stripped, path_of as path_under, value_along, relates as relates_by, holds_of_text, holds_of_whole, holds_of_bool, is_present, passes, field_holds, meaning, is_number};

use crate::lexing::number;
use crate::tree::{Expression, Relation, Test};
use plain_data::List;
use so_js::{Js, Member};

/// What the tree says of an object of this type.
pub fn holds_tree(expression: &Expression, type_name: &str, attributes: &Js) -> bool
    ensures { result ≡ meaning (tree_of expression.now) type_name.now attributes.now }
{
    match expression {
        Expression::Or(left, right) => {
            holds_tree(left, type_name, attributes) || holds_tree(right, type_name, attributes)
        }
        Expression::And(left, right) => {
            holds_tree(left, type_name, attributes) && holds_tree(right, type_name, attributes)
        }
        Expression::Not(inner) => !holds_tree(inner, type_name, attributes),
        Expression::Field(name, test) => {
            field_passes(name.as_slice(), test, type_name.as_bytes(), attributes)
        }
    }
}

fn field_passes(name: &[u8], test: &Test, type_name: &[u8], attributes: &Js) -> bool
    ensures { result ≡ field_holds name.now test.now type_name.now attributes.now }
{
    match path_of(type_name, name) {
        None => false,
        Some(path) => match value_at(path, attributes) {
            None => false,
            Some(value) => test_passes(test, value),
        },
    }
}

fn strip<'a>(front: &[u8], text: &'a [u8]) -> Option<&'a [u8]>
    ensures { option_copied result ≡ stripped front.now text.now }
{
    text.strip_prefix(front)
}

fn path_of<'a>(type_name: &[u8], name: &'a [u8]) -> Option<&'a [u8]>
    ensures { option_copied result ≡ path_under type_name.now name.now }
{
    strip(b".attributes.", strip(type_name, name)?)
}

fn named<'a>(js: &'a Js, key: &[u8]) -> Option<&'a Js>
    ensures { option_copied result ≡ member_of key.now js.now }
{
    match js {
        Js::Object(members) => member_named(members, key).map(|m| &m.value),
        _ => None,
    }
}

fn member_named<'a>(members: &'a List<Member>, key: &[u8]) -> Option<&'a Member>
    ensures { option_copied result ≡ find (λ m. bytes_eq m.key key.now) members.now }
{
    members.as_slice().iter().find(|m| m.key.as_bytes() == key)
}

fn value_at<'a>(path: &[u8], attributes: &'a Js) -> Option<&'a Js>
    ensures { option_copied result ≡ value_along [] path.now attributes.now }
{
    let mut js = attributes;
    let mut start = 0;
    for (i, b) in path.iter().enumerate() {
        if *b == b'.' {
            js = named(js, &path[start..i])?;
            start = i + 1;
        }
    }
    named(js, &path[start..])
}

#[cycle(passing)]
fn test_passes(test: &Test, js: &Js) -> bool
    ensures { result ≡ passes test.now js.now }
{
    match js {
        Js::Null => false,
        Js::Bool(b) => bool_passes(test, *b),
        Js::Whole(whole) => whole_passes(test, *whole),
        Js::Str(text) => text_passes(test, text.as_bytes()),
        Js::Items(items) => any_passes(test, items),
        Js::Object(_) => matches!(test, Test::Present),
    }
}

#[cycle(passing)]
fn any_passes(test: &Test, items: &List<Js>) -> bool
    ensures { result ≡ list_any (passes test.now) items.now }
{
    for item in items.as_slice() {
        if test_passes(test, item) {
            return true;
        }
    }
    false
}

fn text_passes(test: &Test, text: &[u8]) -> bool
    ensures { result ≡ holds_of_text test.now text.now }
{
    match test {
        Test::Present => true,
        Test::Word(word) | Test::Quoted(word) => text == word.as_slice(),
        Test::Prefix(word) => text.starts_with(word.as_slice()),
        Test::Compare(..) => false,
    }
}

fn whole_passes(test: &Test, whole: i128) -> bool
    ensures { result ≡ holds_of_whole test.now whole }
{
    match test {
        Test::Present => true,
        Test::Word(word) => writes(word.as_slice(), whole),
        Test::Prefix(_) | Test::Quoted(_) => false,
        Test::Compare(relation, bound) => relates(*relation, *bound, whole),
    }
}

fn writes(word: &[u8], whole: i128) -> bool
    ensures { result ≡ is_number whole (number_of word.now) }
{
    match number(word) {
        Some(n) => n == whole,
        None => false,
    }
}

fn relates(relation: Relation, bound: i128, whole: i128) -> bool
    ensures { result ≡ relates_by relation bound whole }
{
    match relation {
        Relation::AtMost => whole <= bound,
        Relation::AtLeast => whole >= bound,
        Relation::Below => whole < bound,
        Relation::Above => whole > bound,
    }
}

fn bool_passes(test: &Test, b: bool) -> bool
    ensures { result ≡ holds_of_bool test.now b }
{
    match test {
        Test::Present => true,
        Test::Word(word) if b => word.as_slice() == b"true".as_slice(),
        Test::Word(word) => word.as_slice() == b"false".as_slice(),
        _ => false,
    }
}
