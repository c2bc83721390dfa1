ghost use Rattle.std.specs.Prelude.{◌≡◌};
ghost use Rattle.std.specs.List.{list_any};
ghost use Rattle.std.specs.Str.{bytes_eq};
ghost use Rattle.document_model.specs.Documents.{visible as is_visible, or_default, listed, lists as is_listed};
ghost use Rattle.space_scope.specs.Spaces.{space_text};

use crate::doc::Doc;
use plain_data::{List, Text};
use space_scope::{Kind, Space};

/// Whether a document of a type of this kind is visible in the space. Takes no memory.
#[tactic(auto, unfolding(base_model::specs::Keyed::same))]
pub fn visible(kind: Kind, doc: &Doc, space: &Space) -> bool
    ensures { result ≡ is_visible kind (space_text space.now) doc.now }
{
    match kind {
        Kind::Single => lies_in(doc, space.text()),
        Kind::Multiple | Kind::MultipleIsolated => lists_space(doc, space.text()),
        Kind::Agnostic => true,
    }
}

fn lies_in(doc: &Doc, space: &str) -> bool
    ensures { result ≡ bytes_eq space.now (or_default doc.now.namespace) }
{
    match &doc.namespace {
        Some(own) => space == own.as_str(),
        None => space == "default",
    }
}

fn lists_space(doc: &Doc, space: &str) -> bool
    ensures { result ≡ listed space.now doc.now.namespaces }
{
    match &doc.namespaces {
        Some(spaces) => lists(spaces, space) || lists(spaces, "*"),
        None => false,
    }
}

fn lists(texts: &List<Text>, text: &str) -> bool
    ensures { result ≡ is_listed text.now texts.now }
{
    has_text(texts, text)
}

fn has_text(texts: &List<Text>, text: &str) -> bool
    ensures { result ≡ list_any (λ other. bytes_eq text.now other) texts.now }
{
    texts.as_slice().iter().any(|other| text == other.as_str())
}
