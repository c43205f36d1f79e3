// Whether a text is the compact text of a JSON tree, told without printing the tree: what is left of the text is handed on from part
// to part of the tree, and is none from the first difference on.
ghost use Rattle.std.specs.Prelude.{◌≡◌, ◌++◌, ◌∷◌, [], ◌<◌, ◌/◌, ◌%◌, codes, map};
ghost use Rattle.std.specs.Char.{digit_char};
ghost use Rattle.std.specs.Fmt.{signed_decimal};
ghost use Rattle.std.specs.List.{join_with_byte};
ghost use Rattle.std.specs.Option.{option_copied};
ghost use Rattle.std.specs.Str.{bytes_eq};
ghost use Rattle.pocket_types.specs.Json.{comma_before, escape_byte, printed, printed_member, quoted};
ghost use Rattle.pocket_tables.specs.Fronts.{then_behind};

use itoa::Buffer;
use pocket_types::{Jv, Member};

/// What follows a front.
fn behind<'a>(text: Option<&'a [u8]>, front: &[u8]) -> Option<&'a [u8]>
    ensures { option_copied result ≡ then_behind front.now (option_copied text.entry) }
{
    text?.strip_prefix(front)
}

fn hex_digit(number: u8) -> u8
    requires { number < 16 }
    ensures { result ≡ digit_char number }
{
    if number < 10 {
        b'0' + number
    } else {
        b'a' + (number - 10)
    }
}

/// What follows a control character that is escaped by its number.
fn behind_control(text: Option<&[u8]>, byte: u8) -> Option<&[u8]>
    ensures { option_copied result ≡ then_behind (codes "\\u00" ++ (digit_char (byte / 16) ∷ digit_char (byte % 16) ∷ [])) (option_copied text.entry) }
{
    let digits = [hex_digit(byte / 16), hex_digit(byte % 16)];
    behind(behind(text, b"\\u00"), &digits)
}

/// What follows a byte of a string, as it is escaped.
#[tactic(auto, unfolding(pocket_types::specs::Json::escape_byte))]
fn behind_byte(text: Option<&[u8]>, byte: u8) -> Option<&[u8]>
    ensures { option_copied result ≡ then_behind (escape_byte byte) (option_copied text.entry) }
{
    match byte {
        b'"' | b'\\' => behind(text, &[b'\\', byte]),
        8 => behind(text, b"\\b"),
        9 => behind(text, b"\\t"),
        10 => behind(text, b"\\n"),
        12 => behind(text, b"\\f"),
        13 => behind(text, b"\\r"),
        0..=31 => behind_control(text, byte),
        _ => behind(text, &[byte]),
    }
}

/// What follows a string, with its quotes.
fn behind_string<'a>(text: Option<&'a [u8]>, string: &str) -> Option<&'a [u8]>
    ensures { option_copied result ≡ then_behind (quoted string.now) (option_copied text.entry) }
{
    let mut rest = behind(text, b"\"");
    for byte in string.as_bytes() {
        rest = behind_byte(rest, *byte);
    }
    behind(rest, b"\"")
}

/// What follows the comma before an item that isn't the first.
fn behind_comma(text: Option<&[u8]>, at: usize) -> Option<&[u8]>
    ensures { option_copied result ≡ then_behind (comma_before at) (option_copied text.entry) }
{
    if at > 0 { behind(text, b",") } else { text }
}

fn behind_number(text: Option<&[u8]>, n: i64) -> Option<&[u8]>
    ensures { option_copied result ≡ then_behind (signed_decimal n) (option_copied text.entry) }
{
    let mut buffer = Buffer::new();
    behind(text, buffer.format(n).as_bytes())
}

/// What follows the compact text of a tree.
#[cycle(behind)]
fn behind_tree<'a>(text: Option<&'a [u8]>, tree: &Jv) -> Option<&'a [u8]>
    ensures { option_copied result ≡ then_behind (printed tree.now) (option_copied text.entry) }
{
    match tree {
        Jv::Null => behind(text, b"null"),
        Jv::Flag(true) => behind(text, b"true"),
        Jv::Flag(false) => behind(text, b"false"),
        Jv::Num(n) => behind_number(text, *n),
        Jv::Text(string) => behind_string(text, string.as_str()),
        Jv::List(items) => behind_items(text, items.as_slice()),
        Jv::Map(members) => behind_members(text, members.as_slice()),
    }
}

#[cycle(behind)]
fn behind_items<'a>(text: Option<&'a [u8]>, items: &[Jv]) -> Option<&'a [u8]>
    ensures { option_copied result ≡ then_behind (91 ∷ join_with_byte 44 (map printed items.now) ++ 93 ∷ []) (option_copied text.entry) }
{
    let mut rest = behind(text, b"[");
    for (i, item) in items.iter().enumerate() {
        let before = behind_comma(rest, i);
        rest = behind_tree(before, item);
    }
    behind(rest, b"]")
}

#[cycle(behind)]
fn behind_members<'a>(text: Option<&'a [u8]>, members: &[Member]) -> Option<&'a [u8]>
    ensures { option_copied result ≡ then_behind (123 ∷ join_with_byte 44 (map printed_member members.now) ++ 125 ∷ []) (option_copied text.entry) }
{
    let mut rest = behind(text, b"{");
    for (i, member) in members.iter().enumerate() {
        let key = behind_string(behind_comma(rest, i), member.key.as_str());
        rest = behind_tree(behind(key, b":"), &member.value);
    }
    behind(rest, b"}")
}

/// Whether a text is the compact text of a tree.
pub(crate) fn is_text_of(text: &[u8], tree: &Jv) -> bool
    ensures { result ≡ bytes_eq (printed tree.now) text.now }
{
    match behind_tree(Some(text), tree) {
        Some(rest) => rest.is_empty(),
        None => false,
    }
}
