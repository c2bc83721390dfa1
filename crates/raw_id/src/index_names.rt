ghost use Rattle.std.specs.Prelude.{◌≡◌, ◌↔◌, Some, IfOk, option_map};
ghost use Rattle.std.specs.List.{list_all};
ghost use Rattle.std.specs.Char.{is_ascii_digit};
ghost use Rattle.version_token.specs.declared.Ver.{Ver};
ghost use Rattle.raw_id.specs.IndexNames.{version_alias, target, temp, version_in as version_of, HasVersion, name_parts, are_digits};

use plain_data::Text;
use std::alloc::{AllocError, Global};
use version_token::Ver;

/// The alias of a version: `.kibana_7.12.0` for 7.12.0.
pub fn version_alias_of(alloc: Global, version: Ver) -> Result<Text, AllocError>
    ensures { IfOk result (λ name. name ≡ version_alias version) }
{
    let version = version.text(alloc)?;
    let name = format!(in alloc; ".kibana_{version}")?;
    Ok(Text::from_string(name))
}

/// The index that a version moves its documents to: `.kibana_7.12.0_001` for 7.12.0.
pub fn target_of(alloc: Global, version: Ver) -> Result<Text, AllocError>
    ensures name { IfOk result (λ name. name ≡ target version) }
    ensures reads_back { IfOk result (λ name. version_of name ≡ Some version) }
{
    let version = version.text(alloc)?;
    let name = format!(in alloc; ".kibana_{version}_001")?;
    Ok(Text::from_string(name))
}

/// The index in which a version gathers its documents: `.kibana_7.12.0_reindex_temp` for 7.12.0.
pub fn temp_of(alloc: Global, version: Ver) -> Result<Text, AllocError>
    ensures { IfOk result (λ name. name ≡ temp version) }
{
    let version = version.text(alloc)?;
    let name = format!(in alloc; ".kibana_{version}_reindex_temp")?;
    Ok(Text::from_string(name))
}

/// The version of an index: `Some` exactly where the name is `.kibana_`, a version, `_` and one or
/// more digits. A version takes no memory to read, so want of memory is never the cause of `None`.
pub fn version_in(alloc: Global, name: &str) -> Option<Ver>
    ensures exact { result ≡ version_of name.now }
    ensures form { (version : Ver) → (result ≡ Some version) ↔ HasVersion name.now version }
{
    named_version(alloc, name)
}

#[tactic(auto, unfolding(crate::specs::IndexNames::version_in))]
fn named_version(alloc: Global, name: &str) -> Option<Ver>
    ensures { result ≡ version_of name.now }
{
    match parts_of(name) {
        Some((version, digits)) if are_all_digits(digits) => Ver::parse(alloc, version),
        _ => None,
    }
}

fn parts_of(name: &str) -> Option<(&str, &str)>
    ensures { option_map (λ parts. (parts.0.now, parts.1.now)) result ≡ name_parts name.now }
{
    let Some(rest) = name.strip_prefix(".kibana_") else {
        return None;
    };
    rest.split_once('_')
}

fn are_all_digits(text: &str) -> bool
    ensures { result ≡ are_digits text.now }
{
    !text.is_empty() && has_digits_alone(text)
}

fn has_digits_alone(text: &str) -> bool
    ensures { result ≡ list_all is_ascii_digit text.now }
{
    text.as_bytes().iter().all(|byte| byte.is_ascii_digit())
}
