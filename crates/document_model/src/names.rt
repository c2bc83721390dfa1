ghost use Rattle.std.specs.Prelude.{◌≡◌, ◌&&◌, nat_le, length};
ghost use Rattle.std.specs.List.{list_all};
ghost use Rattle.document_model.specs.Names.{is_name_byte, is_type_name as is_name_of_type, is_document_member as is_member_of_document};

/// Whether the text is a type name: 1 to 128 bytes of A-Z, a-z, 0-9, `_`, `-` and `.`, and none of
/// the names that the members of a stored document beside its attributes have. Takes no memory.
#[tactic(auto, unfolding(crate::specs::Names::is_type_name))]
pub fn is_type_name(text: &str) -> bool
    ensures { result ≡ is_name_of_type text.now }
{
    has_length(text) && has_name_bytes(text) && !is_document_member(text)
}

fn has_length(text: &str) -> bool
    ensures { result ≡ (nat_le 1 (length text.now) && nat_le (length text.now) 128) }
{
    !text.is_empty() && text.len() <= 128
}

fn has_name_bytes(text: &str) -> bool
    ensures { result ≡ list_all is_name_byte text.now }
{
    text.as_bytes().iter().all(|byte| may_stand_in_name(*byte))
}

fn may_stand_in_name(byte: u8) -> bool
    ensures { result ≡ is_name_byte byte }
{
    matches!(byte, b'A'..=b'Z' | b'a'..=b'z' | b'0'..=b'9' | b'_' | b'-' | b'.')
}

/// Whether a stored document may have a member of this name beside its attributes. Takes no memory.
#[tactic(auto, unfolding(crate::specs::Names::is_document_member))]
pub fn is_document_member(text: &str) -> bool
    ensures { result ≡ is_member_of_document text.now }
{
    matches!(
        text,
        "type"
            | "references"
            | "namespace"
            | "namespaces"
            | "migrationVersion"
            | "coreMigrationVersion"
            | "typeMigrationVersion"
            | "updated_at"
            | "originId"
    )
}
