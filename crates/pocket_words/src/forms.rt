// The forms of single words: tokens, files and numbers.
ghost use Rattle.std.specs.Prelude.{◌≡◌, ◌≤◌, IfSome};
ghost use Rattle.std.specs.List.{list_all};
ghost use Rattle.std.specs.Option.{option_copied};
ghost use Rattle.pocket_types.specs.Names.{is_digit};
ghost use Rattle.pocket_words.specs.Forms.{file_of, is_file, is_number, is_token, is_token_byte, in_range, number_in, token_of};

fn are_token_bytes(bytes: &[u8]) -> bool
    ensures { result ≡ list_all is_token_byte bytes.now }
{
    bytes.iter().all(|byte| byte.is_ascii_alphanumeric())
}

fn are_digits(bytes: &[u8]) -> bool
    ensures { result ≡ list_all is_digit bytes.now }
{
    bytes.iter().all(|byte| byte.is_ascii_digit())
}

fn is_token(text: &str) -> bool
    ensures { result ≡ is_token text.now }
{
    let bytes = are_token_bytes(text.as_bytes());
    16 <= text.len() && text.len() <= 64 && bytes
}

fn is_file(text: &str) -> bool
    ensures { result ≡ is_file text.now }
{
    match text.as_bytes() {
        [] => false,
        [first, ..] => *first != b'-',
    }
}

fn is_number(text: &str) -> bool
    ensures { result ≡ is_number text.now }
{
    let digits = are_digits(text.as_bytes());
    !text.is_empty() && digits
}

pub(crate) fn token_of(text: &str) -> Option<&str>
    ensures { option_copied result ≡ token_of text.now }
{
    if is_token(text) { Some(text) } else { None }
}

pub(crate) fn file_of(text: &str) -> Option<&str>
    ensures { option_copied result ≡ file_of text.now }
{
    if is_file(text) { Some(text) } else { None }
}

fn in_range(number: u64, least: u64, most: u64) -> Option<u64>
    ensures value { result ≡ in_range least most number }
    ensures within { IfSome result (λ n. (least ≤ n) × (n ≤ most)) }
{
    if least <= number && number <= most {
        Some(number)
    } else {
        None
    }
}

/// A number in its range, in decimal digits. Zeros may stand before it.
pub(crate) fn number_in(text: &str, least: u64, most: u64) -> Option<u64>
    ensures value { result ≡ number_in least most text.now }
    ensures within { IfSome result (λ n. (least ≤ n) × (n ≤ most)) }
{
    if !is_number(text) {
        return None;
    }
    match text.parse::<u64>() {
        Ok(number) => in_range(number, least, most),
        Err(_) => None,
    }
}
