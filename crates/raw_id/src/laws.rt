ghost use Rattle.std.specs.Prelude.{◌≡◌, ◌≢◌, true};
ghost use Rattle.base_model.specs.Keyed.{Text};
ghost use Rattle.document_model.specs.Documents.{Plain, raw_id};
ghost use Rattle.document_model.specs.Names.{is_type_name};
ghost use Rattle.space_scope.specs.Spaces.{is_space_text};
ghost use Rattle.space_scope.specs.declared.kind.Kind.{Kind};
ghost use Rattle.space_scope.specs.declared.kind.Kind.TheVariants.{Single};
ghost use Rattle.version_token.specs.declared.Ver.{Ver};
ghost use Rattle.version_token.specs.Version.{IsVer};
ghost use Rattle.raw_id.specs.IndexNames.{current_alias, version_alias, target, temp};

/// Where neither space is the other's type, one raw id is of one object: one type, one id, and for
/// single types one space. Of spaces and types no more is asked than that they have no colon.
pub fn raw_ids_are_apart()
    ensures { (kind other_kind : Kind) (space other_space name other_name id other_id : Text)
        → Plain space → Plain other_space → Plain name → Plain other_name
        → space ≢ other_name → other_space ≢ name
        → raw_id kind space name id ≡ raw_id other_kind other_space other_name other_id
        → (name ≡ other_name) × (id ≡ other_id) × (kind ≡ Single → other_kind ≡ Single → space ≡ other_space) }
{}

/// A target, a temporary index and a version alias of any versions have different names, none of
/// them is the current alias, and the names of different versions differ.
pub fn index_names_are_apart()
    ensures target_temp { (v w : Ver) → IsVer v → IsVer w → target v ≢ temp w }
    ensures alias_target { (v w : Ver) → IsVer v → IsVer w → version_alias v ≢ target w }
    ensures alias_temp { (v w : Ver) → IsVer v → IsVer w → version_alias v ≢ temp w }
    ensures current { (v : Ver) → (current_alias ≢ version_alias v) × (current_alias ≢ target v) × (current_alias ≢ temp v) }
    ensures versions { (v w : Ver) → IsVer v → IsVer w → v ≢ w
        → (version_alias v ≢ version_alias w) × (target v ≢ target w) × (temp v ≢ temp w) }
{}

/// Type names and the names of spaces have no colon.
pub fn names_are_plain()
    ensures types { (name : Text) → is_type_name name ≡ true → Plain name }
    ensures spaces { (space : Text) → is_space_text space ≡ true → Plain space }
{}
