// Headers as rules see them, and the token that they bear.
ghost use Rattle.std.specs.Prelude.{◌≡◌, IfOk, find, map};
ghost use Rattle.std.specs.Option.{option_copied};
ghost use Rattle.pocket_api.specs.Works.{header_byte, header_pair, is_authorization, token_in, without_bearer};

use pocket_types::{Pair, Seq, Text};
use std::alloc::{AllocError, Global};

fn header_char(c: char) -> char
    ensures { result ≡ header_byte c }
{
    if c == '-' {
        '_'
    } else {
        c.to_ascii_lowercase()
    }
}

/// A header's name as rules write it: in lower case, with `-` as `_`.
fn header_name(alloc: Global, name: &str) -> Result<Text, AllocError>
    ensures { IfOk result (λ text. text ≡ map header_byte name.now) }
{
    let mut out = String::new(alloc);
    for c in name.chars() {
        out.push(header_char(c))?;
    }
    Ok(Text::from_string(out))
}

/// The headers of a request as rules see them.
pub(crate) fn headers_of(alloc: Global, headers: &[Pair]) -> Result<Seq<Pair>, AllocError>
    ensures { IfOk result (λ pairs. pairs ≡ map header_pair headers.now) }
{
    let mut pairs = Seq::new(alloc);
    for header in headers {
        let name = header_name(alloc, header.name.as_str())?;
        let value = header.value.clone()?;
        pairs.push(Pair { name, value })?;
    }
    Ok(pairs)
}

/// The first `authorization` header.
fn authorization(headers: &[Pair]) -> Option<&Pair>
    ensures { option_copied result ≡ find is_authorization headers.now }
{
    headers
        .iter()
        .find(|header| header.name.as_str() == "authorization")
}

fn bare_token(value: &str) -> &str
    ensures { result.now ≡ without_bearer value.now }
{
    match value.strip_prefix("Bearer ") {
        Some(token) => token,
        None => value,
    }
}

/// The token that headers as rules see them bear.
pub(crate) fn token_in(alloc: Global, headers: &[Pair]) -> Result<Option<Text>, AllocError>
    ensures { IfOk result (λ token. token ≡ token_in headers.now) }
{
    let Some(header) = authorization(headers) else {
        return Ok(None);
    };
    let text = Text::from_str(alloc, bare_token(header.value.as_str()))?;
    Ok(Some(text))
}
