ghost use Rattle.std.specs.Prelude.{◌≡◌, ◌<◌, ◌^◌, [], ◌∷◌, length, IfOk};
ghost use Rattle.race_model.specs.Stores.{renumbered};
ghost use Rattle.raw_id.specs.IndexNames.{current_alias, version_alias, target};
ghost use Rattle.store_core.specs.Journals.{begun};
ghost use Rattle.own_link.specs.Calling.{Holds};
ghost use Rattle.kibana_main.specs.Running.{opening_store, journal_limit, generation_of};

use doc_table::DocTable;
use own_link::OwnLink;
use plain_data::{List, Text};
use raw_id::{index_names_are_apart, target_of, version_alias_of};
use std::alloc::{AllocError, Global};
use store_core::{Opened, Pair, StoreCore};
use type_registry::Registry;
use version_token::Ver;

/// How many entries the journal of `apply` may hold.
const JOURNAL_LIMIT: u64 = 4_000_000;

/// The actor that makes the calls of `apply`.
const ACTOR: u32 = 101;

/// A link over the store that an input opens: its documents, numbered by raw id, in the index of the
/// registry's version, which the version's alias and the current alias name; or want of memory.
pub fn open(alloc: Global, reg: &Registry, table: &DocTable) -> Result<OwnLink, AllocError>
    requires { length table.now.rows < 2 ^ 62 }
    ensures exact { IfOk result (λ link. link.core ≡ begun (opening_store reg.now table.now) journal_limit) }
    ensures holds { IfOk result (λ link. Holds reg.now link.core.store (generation_of reg.now (renumbered table.now))) }
{
    // Neither alias has the index's name.
    index_names_are_apart();
    let version = reg.version();
    let indices = opened_index(alloc, version, table)?;
    let aliases = opened_aliases(alloc, version)?;
    let core = StoreCore::open(indices, aliases, JOURNAL_LIMIT)?;
    Ok(OwnLink::new(core, ACTOR))
}

/// The index of a version with these documents, numbered by raw id.
fn opened_index(alloc: Global, version: Ver, table: &DocTable) -> Result<List<Opened>, AllocError>
    ensures { IfOk result (λ indices. indices ≡ record { name = target version; table = renumbered table.now } ∷ []) }
{
    let name = target_of(alloc, version)?;
    let table = table.renumbered()?;
    let mut indices = List::new(alloc);
    indices.push(Opened { name, table })?;
    Ok(indices)
}

/// The current alias and that of a version, both of the version's index.
fn opened_aliases(alloc: Global, version: Ver) -> Result<List<Pair>, AllocError>
    ensures { IfOk result (λ aliases. aliases ≡ record { alias = current_alias; index = target version } ∷ record { alias = version_alias version; index = target version } ∷ []) }
{
    let current = Text::from_str(alloc, ".kibana")?;
    let of_version = version_alias_of(alloc, version)?;
    let mut aliases = List::new(alloc);
    aliases.push(alias_of(alloc, current, version)?)?;
    aliases.push(alias_of(alloc, of_version, version)?)?;
    Ok(aliases)
}

fn alias_of(alloc: Global, alias: Text, version: Ver) -> Result<Pair, AllocError>
    ensures { IfOk result (λ pair. pair ≡ record { alias = alias; index = target version }) }
{
    let index = target_of(alloc, version)?;
    Ok(Pair { alias, index })
}
