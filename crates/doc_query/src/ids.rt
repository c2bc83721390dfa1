ghost use Rattle.std.specs.Prelude.{◌≡◌, ◌∷◌, []};
ghost use Rattle.std.specs.Option.{option_copied};
ghost use Rattle.document_model.specs.Documents.{id_of as id_in, after, front, joined, colon};

use saved_doc::Doc;
use space_scope::SpaceId;

/// The id of an object: what follows the front of its raw id, which is `space:type:` for a document
/// with a space of its own, and else `type:`. Where the raw id begins otherwise it is the whole raw
/// id. Takes no memory.
pub fn id_of<'a>(raw: &'a str, doc: &Doc) -> &'a str
    ensures { result.now ≡ id_in raw.now doc.now }
{
    match behind_front(raw, &doc.namespace, doc.type_name()) {
        Some(id) => id,
        None => raw,
    }
}

fn behind_front<'a>(raw: &'a str, space: &Option<SpaceId>, type_name: &str) -> Option<&'a str>
    ensures { option_copied result ≡ after (front space.now type_name.now) raw.now }
{
    match space {
        Some(space) => behind_two(raw, space.as_str(), type_name),
        None => behind(raw, type_name),
    }
}

fn behind_two<'a>(text: &'a str, first: &str, second: &str) -> Option<&'a str>
    ensures { option_copied result ≡ after (joined first.now (joined second.now [])) text.now }
{
    behind(behind(text, first)?, second)
}

fn behind<'a>(text: &'a str, word: &str) -> Option<&'a str>
    ensures { option_copied result ≡ after (joined word.now []) text.now }
{
    behind_colon(behind_word(text, word)?)
}

fn behind_word<'a>(text: &'a str, word: &str) -> Option<&'a str>
    ensures { option_copied result ≡ after word.now text.now }
{
    text.strip_prefix(word)
}

fn behind_colon(text: &str) -> Option<&str>
    ensures { option_copied result ≡ after (colon ∷ []) text.now }
{
    text.strip_prefix(':')
}
