ghost use Rattle.std.specs.Prelude.{◌≡◌, ◌<◌, ◌^◌, ℕ, Some, IfOk, string_bytes};
ghost use Rattle.version_token.specs.Token.{pair_text, token_of, token_number, Tells};

use base64::DecodeAllocError;
use base64::engine::general_purpose::STANDARD;
use std::alloc::{AllocError, Global};
use std::str;

/// Why a text was not read as a token.
#[derive(Clone, Copy, Debug, PartialEq, Eq)]
pub enum TokenError {
    /// Want of memory.
    Memory,
    /// The text is the token of no number.
    BadToken,
}

impl From<AllocError> for TokenError {
    ghost use Rattle.version_token.specs.declared.token.TokenError.TheVariants.{Memory};

    ghost from_gives = { λ _ error. error ≡ Memory };

    fn from(_refused: AllocError) -> TokenError {
        TokenError::Memory
    }
}

/// The token of a row's number: the base64 text (RFC 4648, with padding) of `[number,1]`.
/// `decode` reads it as the number.
pub fn encode(alloc: Global, number: u64) -> Result<String, AllocError>
    ensures text { IfOk result (λ token. string_bytes token ≡ token_of number) }
    ensures reads_back { IfOk result (λ token. token_number (string_bytes token) ≡ Some number) }
{
    let pair = format!(in alloc; "[{number},1]")?;
    STANDARD.encode(alloc, pair.as_bytes())
}

/// The number whose token the text is. `BadToken` where it is the token of none.
pub fn decode(alloc: Global, text: &str) -> Result<u64, TokenError>
    ensures exact { Tells result (token_number text.now) }
    ensures only { IfOk result (λ number. text.now ≡ token_of number) }
{
    let pair = match STANDARD.decode(alloc, text.as_bytes()) {
        Ok(pair) => pair,
        Err(DecodeAllocError::OutOfMemory) => return Err(TokenError::Memory),
        Err(DecodeAllocError::DecodeError(_)) => return Err(TokenError::BadToken),
    };
    let Some(number) = number_in(&pair) else {
        return Err(TokenError::BadToken);
    };
    // The number may be written otherwise than `encode` writes it, as `[+1,1]` is.
    let token = encode(alloc, number)?;
    if token.as_str() != text {
        return Err(TokenError::BadToken);
    }
    Ok(number)
}

// The number of a pair, where the bytes are the text of one.
fn number_in(pair: &[u8]) -> Option<u64>
    ensures { (n : ℕ) → n < 2 ^ 64 → pair.now ≡ pair_text n → result ≡ Some n }
{
    let inner = pair.strip_prefix(b"[")?;
    let digits = inner.strip_suffix(b",1]")?;
    let Ok(digits) = str::from_utf8(digits) else {
        return None;
    };
    digits.parse().ok()
}
