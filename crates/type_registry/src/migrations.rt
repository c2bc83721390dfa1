ghost use Rattle.std.specs.Prelude.{◌≡◌, ◌+◌, ◌≤◌, nat_le, IfOk, true, None, codes};
ghost use Rattle.std.specs.List.{list_all};
ghost use Rattle.so_js.specs.Tree.{is_sound, member_of};
ghost use Rattle.so_js.specs.Printing.{are_sound};
ghost use Rattle.transform_ops.specs.Effects.{op_is_sound};
ghost use Rattle.type_registry.specs.Reading.{Gives, required, nesting, ops_each, ops_in, next_version, migration_in, migrations_after, migrations_in};

use crate::error::RegError;
use crate::members::is_migration_alone;
use crate::texts::read_next_version;
use crate::types::Migration;
use plain_data::List;
use so_js::{Js, member};
use std::alloc::Global;
use transform_ops::{Op, OpError, read_op};
use version_token::Ver;

/// The migrations of a type: a list of objects whose versions rise and aren't above `top`.
pub(crate) fn read_migrations(alloc: Global, top: Ver, js: &Js) -> Result<List<Migration>, RegError>
    requires { is_sound js.now ≡ true }
    ensures { Gives result (migrations_in top js.now) }
{
    match js.as_items() {
        Some(items) => read_each(alloc, top, items),
        None => Err(RegError::WrongKind),
    }
}

fn read_each(alloc: Global, top: Ver, items: &List<Js>) -> Result<List<Migration>, RegError>
    requires { are_sound items.now ≡ true }
    ensures { Gives result (migrations_after top None 0 items.now) }
{
    let mut all = List::new(alloc);
    let mut last = None;
    let mut nested: usize = 0;
    for item in items.as_slice() {
        let migration = read_migration(alloc, top, last, nested, item)?;
        last = Some(migration.version);
        nested += nesting_of(&migration.ops);
        all.push(migration)?;
    }
    Ok(all)
}

fn read_migration(
    alloc: Global,
    top: Ver,
    last: Option<Ver>,
    before: usize,
    js: &Js,
) -> Result<Migration, RegError>
    requires { is_sound js.now ≡ true }
    ensures exact { Gives result (migration_in top last before js.now) }
    ensures few { IfOk result (λ m. before + nesting m.1 ≤ 32) }
{
    if js.as_object().is_none() {
        return Err(RegError::WrongKind);
    }
    let version = version_of(alloc, top, last, js)?;
    let ops = ops_of(alloc, before, js)?;
    if !is_migration_alone(js) {
        return Err(RegError::UnknownField);
    }
    Ok(Migration { version, ops })
}

fn version_of(alloc: Global, top: Ver, last: Option<Ver>, js: &Js) -> Result<Ver, RegError>
    ensures { Gives result (required (next_version top last) (member_of (codes "version") js.now)) }
{
    match member(js, "version") {
        Some(js) => read_next_version(alloc, top, last, js),
        None => Err(RegError::MissingField),
    }
}

fn ops_of(alloc: Global, before: usize, js: &Js) -> Result<List<Op>, RegError>
    requires { is_sound js.now ≡ true }
    ensures exact { Gives result (required (ops_in before) (member_of (codes "ops") js.now)) }
    ensures sound { IfOk result (λ ops. list_all op_is_sound ops ≡ true) }
    ensures few { IfOk result (λ ops. before + nesting ops ≤ 32) }
{
    match member(js, "ops") {
        Some(js) => read_ops(alloc, before, js),
        None => Err(RegError::MissingField),
    }
}

fn read_ops(alloc: Global, before: usize, js: &Js) -> Result<List<Op>, RegError>
    requires { is_sound js.now ≡ true }
    ensures exact { Gives result (ops_in before js.now) }
    ensures sound { IfOk result (λ ops. list_all op_is_sound ops ≡ true) }
    ensures few { IfOk result (λ ops. before + nesting ops ≤ 32) }
{
    let Some(items) = js.as_items() else {
        return Err(RegError::WrongKind);
    };
    let ops = read_each_op(alloc, items)?;
    if !are_few(before, nesting_of(&ops)) {
        return Err(RegError::BadOp);
    }
    Ok(ops)
}

fn are_few(before: usize, more: usize) -> bool
    ensures { result ≡ nat_le (before + more) 32 }
{
    before <= 32 && more <= 32 - before
}

fn read_each_op(alloc: Global, items: &List<Js>) -> Result<List<Op>, RegError>
    requires { are_sound items.now ≡ true }
    ensures exact { Gives result (ops_each items.now) }
    ensures sound { IfOk result (λ ops. list_all op_is_sound ops ≡ true) }
{
    let mut all = List::new(alloc);
    for item in items.as_slice() {
        match read_op(alloc, item) {
            Ok(op) => all.push(op)?,
            Err(OpError::Memory) => return Err(RegError::Memory),
            Err(OpError::BadOp) => return Err(RegError::BadOp),
        }
    }
    Ok(all)
}

fn nesting_of(ops: &List<Op>) -> usize
    ensures { result ≡ nesting ops.now }
{
    let mut count: usize = 0;
    for op in ops.as_slice() {
        if op.nests() {
            count += 1;
        }
    }
    count
}
