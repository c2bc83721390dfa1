ghost use Rattle.std.specs.Prelude.{◌≡◌, ◌≤◌, false, length, OnOk, OnErr, IfOk, MatchOption};
ghost use Rattle.std.specs.Option.{option_copied, option_map};
ghost use Rattle.std.specs.List.{position_or_len};
ghost use Rattle.base_model.specs.Keyed.{at, put, without, text_lt};
ghost use Rattle.race_model.specs.Sorted.{IsSorted};
ghost use Rattle.race_model.specs.Stores.{renumbered};
ghost use Rattle.index_store.specs.Indices.{index_of, entry_of, indices_of, open_index, names_of, shown_of, shown_in, IsPlace};

use doc_table::DocTable;
use plain_data::{List, Text};
use std::alloc::{AllocError, Global};
use text_order::is_below;

/// An index of the store.
#[derive(Debug, Drop)]
pub struct Held {
    pub name: Text,
    pub blocked: bool,
    /// The index that it was made from, if any.
    pub source: Option<Text>,
    pub table: DocTable,
}

/// What a store shows of an index.
#[derive(Clone, Copy, Debug)]
pub struct Shown<'a> {
    pub name: &'a Text,
    /// Whether the index takes no writes.
    pub blocked: bool,
    /// The index that it was made from, if any.
    pub source: Option<&'a Text>,
}

/// An open index.
pub fn fresh(name: Text, source: Option<Text>, table: DocTable) -> Held
    ensures name { result.name ≡ name }
    ensures index { index_of result ≡ record { blocked = false; source = source; table = table } }
{
    Held {
        name,
        blocked: false,
        source,
        table,
    }
}

/// The place of the index of a name, if there is one.
#[tactic(auto, unfolding(base_model::specs::Keyed::at, base_model::specs::Keyed::same))]
pub fn place(indices: &[Held], name: &str) -> Option<usize>
    requires { IsSorted (indices_of indices.now) }
    ensures { MatchOption result (at name.now (indices_of indices.now) ≡ None) (λ i. IsPlace name.now indices.now i) }
{
    for (i, held) in indices.iter().enumerate() {
        if name == held.name.as_str() {
            return Some(i);
        }
    }
    None
}

/// The place where an index of a name would stand: that of the first index of a later name.
fn seat(indices: &[Held], name: &Text) -> usize
    ensures place { result ≡ position_or_len (λ held. text_lt name.now held.name) indices.now }
    ensures within { result ≤ length indices.now }
{
    for (i, held) in indices.iter().enumerate() {
        if is_below(name, &held.name) {
            return i;
        }
    }
    indices.len()
}

/// The index of a name, if there is one.
#[tactic(auto, unfolding(base_model::specs::Keyed::at, base_model::specs::Keyed::same))]
pub fn look<'a>(indices: &'a [Held], name: &str) -> Option<&'a Held>
    ensures { option_map index_of (option_copied result) ≡ at name.now (indices_of indices.now) }
{
    for held in indices {
        if name == held.name.as_str() {
            return Some(held);
        }
    }
    None
}

/// Adds an index, whose name none has, before the first of a later name.
pub fn add(indices: &mut Vec<Held>, new: Held) -> Result<(), AllocError>
    requires free { at new.name (indices_of indices.old.items) ≡ None }
    requires sorted { IsSorted (indices_of indices.old.items) }
    ensures sorted { IsSorted (indices_of indices.new.items) }
    ensures ok { OnOk result (indices_of indices.new.items ≡ put new.name (index_of new) (indices_of indices.old.items)) }
    ensures err { OnErr result (indices.new.items ≡ indices.old.items) }
{
    let at = seat(indices.as_slice(), &new.name);
    indices.insert(at, new)?;
    Ok(())
}

/// Puts an open index without a source under its name, in the place of one that is there.
pub fn put(indices: &mut Vec<Held>, name: Text, table: DocTable) -> Result<(), AllocError>
    requires { IsSorted (indices_of indices.old.items) }
    ensures sorted { IsSorted (indices_of indices.new.items) }
    ensures ok { OnOk result (indices_of indices.new.items ≡ put name (open_index table) (indices_of indices.old.items)) }
{
    let new = fresh(name, None, table);
    match place(indices.as_slice(), new.name.as_str()) {
        Some(at) => {
            indices[at] = new;
            Ok(())
        }
        None => add(indices, new),
    }
}

/// Takes the index of a name out, if there is one. Takes no memory.
pub fn take_away(indices: &mut Vec<Held>, name: &str)
    requires { IsSorted (indices_of indices.old.items) }
    ensures sorted { IsSorted (indices_of indices.new.items) }
    ensures rest { indices_of indices.new.items ≡ without name.now (indices_of indices.old.items) }
{
    indices.retain(|held| name != held.name.as_str());
}

/// The names of the indices, in order.
pub fn names(alloc: Global, indices: &[Held]) -> Result<List<Text>, AllocError>
    ensures { IfOk result (λ names. names ≡ names_of (indices_of indices.now)) }
{
    let mut names = List::new(alloc);
    for held in indices {
        names.push(held.name.clone()?)?;
    }
    Ok(names)
}

impl Held {
    /// An open copy of the index under another name, with the same source and with the rows numbered
    /// 0, 1, .. in order of raw id.
    pub fn copy(&self, name: Text) -> Result<Held, AllocError>
        ensures name { IfOk result (λ copy. copy.name ≡ name) }
        ensures index { IfOk result (λ copy. index_of copy ≡ record { blocked = false; source = self.now.source; table = renumbered self.now.table }) }
    {
        let source = self.source.clone()?;
        let table = self.table.renumbered()?;
        Ok(fresh(name, source, table))
    }

    /// What is shown of the index.
    pub fn shown(&self) -> Shown<'_>
        ensures { shown_of result ≡ shown_in (entry_of self.now) }
    {
        Shown {
            name: &self.name,
            blocked: self.blocked,
            source: self.source.as_ref(),
        }
    }
}
