ghost use Rattle.std.specs.Prelude.{◌≡◌, [], Some};
ghost use Rattle.std.specs.Option.{option_copied};
ghost use Rattle.document_model.specs.Documents.{after, front, joined, id_of as id_of_row};
ghost use Rattle.document_model.specs.Registries.{fits_kind, is_shared, own_raw, has_id, too_new, fits_single, fits_shared};

use document_model::{is_below, is_missing_or_below};
use saved_doc::Doc;
use space_scope::Kind;
use version_token::Ver;

/// Whether a document of a type of this kind fits its raw id: its members suit its kind, and the raw
/// id is its own with an id that isn't empty.
pub fn fits(kind: Kind, shareable_at: Option<Ver>, raw: &str, doc: &Doc) -> bool
    ensures { result ≡ fits_kind kind shareable_at raw.now doc.now }
{
    match kind {
        Kind::Single => fits_one_space(raw, doc),
        Kind::Agnostic => doc.namespace.is_none() && fits_one_space(raw, doc),
        Kind::Multiple | Kind::MultipleIsolated => if was_shared(shareable_at, doc.stamp) {
            fits_several_spaces(raw, doc)
        } else {
            fits_one_space(raw, doc)
        },
    }
}

fn fits_one_space(raw: &str, doc: &Doc) -> bool
    ensures { result ≡ fits_single raw.now doc.now }
{
    doc.namespaces.is_none() && has_own_raw(raw, doc)
}

fn fits_several_spaces(raw: &str, doc: &Doc) -> bool
    ensures { result ≡ fits_shared raw.now doc.now }
{
    doc.namespaces.is_some() && doc.namespace.is_none() && has_own_raw(raw, doc)
}

fn was_shared(shareable_at: Option<Ver>, stamp: Option<Ver>) -> bool
    ensures { result ≡ is_shared shareable_at stamp }
{
    match shareable_at {
        Some(version) => !is_missing_or_below(stamp, version),
        None => true,
    }
}

fn has_own_raw(raw: &str, doc: &Doc) -> bool
    ensures { result ≡ own_raw raw.now doc.now }
{
    match own_id(raw, doc) {
        Some(id) => !id.is_empty(),
        None => false,
    }
}

/// The id of a row: what follows the front of its document, and the whole raw id where it doesn't
/// begin so.
pub fn id_of<'a>(raw: &'a str, doc: &Doc) -> &'a str
    ensures { result.now ≡ id_of_row raw.now doc.now }
{
    match own_id(raw, doc) {
        Some(id) => id,
        None => raw,
    }
}

/// What follows the front of a document in a raw id that begins with it.
fn own_id<'a>(raw: &'a str, doc: &Doc) -> Option<&'a str>
    ensures { option_copied result ≡ after (front doc.now.namespace doc.now.type_name) raw.now }
{
    match &doc.namespace {
        Some(space) => behind_both(space.as_str(), doc.type_name.as_str(), raw),
        None => behind_name(doc.type_name.as_str(), raw),
    }
}

fn behind_both<'a>(space: &str, name: &str, text: &'a str) -> Option<&'a str>
    ensures { option_copied result ≡ after (front (Some space.now) name.now) text.now }
{
    match behind_name(space, text) {
        Some(rest) => behind_name(name, rest),
        None => None,
    }
}

/// What follows a name and a colon in a text that begins with them.
fn behind_name<'a>(name: &str, text: &'a str) -> Option<&'a str>
    ensures { option_copied result ≡ after (joined name.now []) text.now }
{
    match behind(name, text) {
        Some(rest) => behind(":", rest),
        None => None,
    }
}

fn behind<'a>(front: &str, text: &'a str) -> Option<&'a str>
    ensures { option_copied result ≡ after front.now text.now }
{
    match text.strip_prefix(front) {
        Some(rest) => Some(rest),
        None => None,
    }
}

/// Whether a stamp is above the latest version, or there is a stamp and no latest version.
pub fn is_too_new(stamp: Option<Ver>, latest: Option<Ver>) -> bool
    ensures { result ≡ too_new stamp latest }
{
    match (stamp, latest) {
        (None, _) => false,
        (Some(_), None) => true,
        (Some(stamp), Some(latest)) => is_below(latest, stamp),
    }
}
