ghost use Rattle.std.specs.Prelude.{◌≡◌, ◌≤◌, ◌<◌, length, IfOk};
ghost use Rattle.kql_filter.specs.Lexing.{Gives};
ghost use Rattle.kql_filter.specs.Tree.{tree_of};
ghost use Rattle.kql_filter.specs.Parsing.{value_at as value_read, compared as compared_read, test_at as test_read, field_at as field_read, or_by, and_by, not_at as not_read, atom_within, tree_in};

use crate::lexing::{
    after_byte, after_joint, after_prefix, after_spaces, number_at, quoted, word_at,
};
use crate::tree::{Expression, FilterError, Relation, Test};
use plain_data::List;
use std::alloc::Global;

fn value_at(alloc: Global, bytes: &[u8]) -> Result<(Test, &[u8]), FilterError>
    ensures read { Gives (λ x. (x.0, x.1.now)) result (value_read bytes.now) }
    ensures shorter { IfOk result (λ x. length x.1.now ≤ length bytes.now) }
{
    match bytes {
        [b'"', rest @ ..] => {
            let (text, rest) = quoted(alloc, rest)?;
            Ok((Test::Quoted(text), rest))
        }
        [b'*', rest @ ..] => Ok((Test::Present, rest)),
        _ => {
            let (word, rest) = word_at(bytes).ok_or(FilterError::BadFilter)?;
            let word = List::from_slice(alloc, word)?;
            match rest {
                [b'*', rest @ ..] => Ok((Test::Prefix(word), rest)),
                _ => Ok((Test::Word(word), rest)),
            }
        }
    }
}

fn compared(relation: Relation, bytes: &[u8]) -> Result<(Test, &[u8]), FilterError>
    ensures read { Gives (λ x. (x.0, x.1.now)) result (compared_read relation bytes.now) }
    ensures shorter { IfOk result (λ x. length x.1.now ≤ length bytes.now) }
{
    let (whole, rest) = number_at(after_spaces(bytes)).ok_or(FilterError::BadFilter)?;
    Ok((Test::Compare(relation, whole), rest))
}

fn test_at(alloc: Global, bytes: &[u8]) -> Result<(Test, &[u8]), FilterError>
    ensures read { Gives (λ x. (x.0, x.1.now)) result (test_read bytes.now) }
    ensures shorter { IfOk result (λ x. length x.1.now ≤ length bytes.now) }
{
    match bytes {
        [b':', rest @ ..] => value_at(alloc, after_spaces(rest)),
        [b'<', b'=', rest @ ..] => compared(Relation::AtMost, rest),
        [b'<', rest @ ..] => compared(Relation::Below, rest),
        [b'>', b'=', rest @ ..] => compared(Relation::AtLeast, rest),
        [b'>', rest @ ..] => compared(Relation::Above, rest),
        _ => Err(FilterError::BadFilter),
    }
}

fn field_at(alloc: Global, bytes: &[u8]) -> Result<(Expression, &[u8]), FilterError>
    ensures read { Gives (λ x. (tree_of x.0, x.1.now)) result (field_read bytes.now) }
    ensures shorter { IfOk result (λ x. length x.1.now ≤ length bytes.now) }
{
    let (name, rest) = word_at(bytes).ok_or(FilterError::BadFilter)?;
    let (test, rest) = test_at(alloc, after_spaces(rest))?;
    Ok((
        Expression::Field(List::from_slice(alloc, name)?, test),
        rest,
    ))
}

#[cycle(parse)]
pub fn or_at(alloc: Global, bytes: &[u8], depth: u32) -> Result<(Expression, &[u8]), FilterError>
    ensures read { Gives (λ x. (tree_of x.0, x.1.now)) result (or_by (not_read depth) bytes.now) }
    ensures shorter { IfOk result (λ x. length x.1.now ≤ length bytes.now) }
{
    let (left, rest) = and_at(alloc, bytes, depth)?;
    match after_joint(rest, b"or") {
        None => Ok((left, rest)),
        Some(after) => {
            let (right, rest) = or_at(alloc, after, depth)?;
            let left = Box::new(alloc, left)?;
            let right = Box::new(alloc, right)?;
            Ok((Expression::Or(left, right), rest))
        }
    }
}

#[cycle(parse)]
fn and_at(alloc: Global, bytes: &[u8], depth: u32) -> Result<(Expression, &[u8]), FilterError>
    ensures read { Gives (λ x. (tree_of x.0, x.1.now)) result (and_by (not_read depth) bytes.now) }
    ensures shorter { IfOk result (λ x. length x.1.now ≤ length bytes.now) }
{
    let (left, rest) = not_at(alloc, bytes, depth)?;
    match after_joint(rest, b"and") {
        None => Ok((left, rest)),
        Some(after) => {
            let (right, rest) = and_at(alloc, after, depth)?;
            let left = Box::new(alloc, left)?;
            let right = Box::new(alloc, right)?;
            Ok((Expression::And(left, right), rest))
        }
    }
}

#[cycle(parse)]
fn not_at(alloc: Global, bytes: &[u8], depth: u32) -> Result<(Expression, &[u8]), FilterError>
    ensures read { Gives (λ x. (tree_of x.0, x.1.now)) result (not_read depth bytes.now) }
    ensures shorter { IfOk result (λ x. length x.1.now ≤ length bytes.now) }
{
    match after_prefix(bytes, b"not") {
        None => atom_at(alloc, bytes, depth),
        Some(_) if depth == 0 => Err(FilterError::BadFilter),
        Some(after) => {
            let (inner, rest) = not_at(alloc, after, depth - 1)?;
            Ok((Expression::Not(Box::new(alloc, inner)?), rest))
        }
    }
}

#[cycle(parse)]
fn atom_at(alloc: Global, bytes: &[u8], depth: u32) -> Result<(Expression, &[u8]), FilterError>
    ensures read { Gives (λ x. (tree_of x.0, x.1.now)) result (atom_within depth bytes.now) }
    ensures shorter { IfOk result (λ x. length x.1.now ≤ length bytes.now) }
{
    match after_byte(bytes, b'(') {
        None => field_at(alloc, bytes),
        Some(_) if depth == 0 => Err(FilterError::BadFilter),
        Some(within) => {
            let (inner, rest) = or_at(alloc, after_spaces(within), depth - 1)?;
            match after_byte(after_spaces(rest), b')') {
                Some(rest) => Ok((inner, rest)),
                None => Err(FilterError::BadFilter),
            }
        }
    }
}

/// How deep parentheses and nots nest at most.
const DEPTH: u32 = 64;

/// How many bytes a filter has at most.
const LONGEST: usize = 4096;

/// The tree of a whole text.
#[tactic(auto, unfolding(crate::specs::Parsing::tree_in))]
pub fn tree(alloc: Global, text: &[u8]) -> Result<Expression, FilterError>
    ensures { Gives tree_of result (tree_in text.now) }
{
    if text.len() > LONGEST {
        return Err(FilterError::BadFilter);
    }
    let (expression, rest) = or_at(alloc, after_spaces(text), DEPTH)?;
    match after_spaces(rest) {
        [] => Ok(expression),
        _ => Err(FilterError::BadFilter),
    }
}
