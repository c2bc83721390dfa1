use plain_data::{List, Text};
use space_scope::Kind;
use std::marker::Model;
use transform_ops::Op;
use version_token::Ver;

/// A migration of a type: its operations are done on documents from before the version. Contracts
/// see the two as a pair.
#[derive(Debug, Drop)]
pub(crate) struct Migration {
    pub version: Ver,
    pub ops: List<Op>,
}

impl Model for Migration {
    ghost use Rattle.std.specs.Prelude.{◌≡◌, List, true};
    ghost use Rattle.std.specs.List.{list_all};
    ghost use Rattle.version_token.specs.declared.Ver.{Ver as Version};
    ghost use Rattle.transform_ops.specs.declared.op.Op.{Op as Operation};
    ghost use Rattle.transform_ops.specs.Effects.{op_is_sound};
    ghost use Rattle.type_registry.specs.Codes.{step_code};

    ghost Value = { Version × List Operation };

    ghost coded = { step_code };

    ghost view = { λ m. (m.version, m.ops) };

    ghost invariant = { λ m. list_all op_is_sound m.ops ≡ true };
}

/// A type that a registry lists. Contracts see its name, a type name, and what is known of it.
#[derive(Debug, Drop)]
pub(crate) struct Listed {
    pub name: Text,
    pub kind: Kind,
    /// The version at which its objects became shareable, for multiple kinds.
    pub shareable_at: Option<Ver>,
    /// Versions that rise, each with its operations.
    pub migrations: List<Migration>,
}

impl Model for Listed {
    ghost use Rattle.std.specs.Prelude.{◌≡◌, true};
    ghost use Rattle.base_model.specs.Keyed.{Text as Bytes};
    ghost use Rattle.document_model.specs.Names.{is_type_name};
    ghost use Rattle.document_model.specs.Registries.{Known};
    ghost use Rattle.transform_ops.specs.declared.op.Op.{Op as Operation};
    ghost use Rattle.type_registry.specs.Codes.{listed_code};

    ghost Value = { Bytes × Known Operation };

    ghost coded = { listed_code };

    ghost view = { λ t. (t.name, record { kind = t.kind; shareable_at = t.shareable_at; steps = t.migrations }) };

    ghost invariant = { λ t. is_type_name t.name ≡ true };
}
