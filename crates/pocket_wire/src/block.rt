ghost use Rattle.std.specs.Prelude.{◌≡◌, ◌<◌, ◌+◌, ◌-◌, ◌==◌, take, length, count_by, nat_lt, MatchOption, IfNone, IfSome, if◌then◌else◌, None, Some};
ghost use Rattle.pocket_wire.specs.Blocks.{IsUnfinished, after_empty_line, is_ended, is_line_feed, line_feeds};
ghost use Rattle.pocket_wire.specs.Searches.{IsFound, IsLookedThrough};

/// The most bytes of a head's block.
const BYTES: usize = 16_384;

/// The most line feeds of a head's block: of its first line, of 64 fields and of the empty line.
const LINE_FEEDS: usize = 66;

/// What a search for the end of a head's block comes to.
#[derive(Clone, Copy, Debug, PartialEq, Eq)]
pub(crate) enum Found {
    /// The block has so many bytes.
    Block(usize),
    /// It has more bytes or line feeds than a block may have.
    TooLong,
}

/// How far bytes were looked through for the end of a head's block. When more bytes come they alone are looked at.
#[derive(Clone, Copy, Debug, PartialEq, Eq)]
pub(crate) struct Search {
    /// The number of bytes looked at.
    pub(crate) at: usize,
    /// The number of line feeds among them.
    pub(crate) feeds: usize,
}

/// A search before the first byte.
pub(crate) const START: Search = Search { at: 0, feeds: 0 };

/// The bytes behind the one empty line that may stand before a head.
pub(crate) fn skip_empty_line(bytes: &[u8]) -> &[u8]
    ensures { result.now ≡ after_empty_line bytes.now }
{
    if bytes.starts_with(b"\r\n") {
        &bytes[2..]
    } else {
        bytes
    }
}

/// Whether an empty line ends the bytes.
#[tactic(auto, unfolding(crate::specs::Blocks::is_ended))]
fn has_end(bytes: &[u8]) -> bool
    ensures { result ≡ is_ended bytes.now }
{
    let lines = skip_empty_line(bytes);
    let bare = lines.ends_with(b"\n\n");
    let full = lines.ends_with(b"\n\r\n");
    bare || full
}

/// Whether bytes with so many line feeds have more than a block may have, that of the empty line before the head apart.
fn has_many_lines(bytes: &[u8], feeds: usize) -> bool
    requires { feeds ≡ count_by is_line_feed bytes.now }
    ensures { result ≡ nat_lt 66 (line_feeds bytes.now) }
{
    let most = if bytes.starts_with(b"\r\n") {
        LINE_FEEDS + 1
    } else {
        LINE_FEEDS
    };
    feeds > most
}

/// What so many bytes are that have few line feeds and not the end of a block. None: more bytes decide.
fn judge_length(len: usize) -> Option<Found>
    ensures { result ≡ (if nat_lt len 16384 then None else Some Found.TooLong) }
{
    if len < BYTES {
        None
    } else {
        Some(Found::TooLong)
    }
}

/// What bytes are whose last is a line feed, and before which a block may go on. None: more bytes decide.
fn judge_line(bytes: &[u8], feeds: usize) -> Option<Found>
    requires some { 0 < length bytes.now }
    requires going { IsUnfinished (take (length bytes.now - 1) bytes.now) }
    requires feeds { feeds ≡ count_by is_line_feed bytes.now }
    ensures { MatchOption result (IsUnfinished bytes.now) (IsFound bytes.now) }
{
    if has_many_lines(bytes, feeds) {
        return Some(Found::TooLong);
    }
    if has_end(bytes) {
        return Some(Found::Block(bytes.len()));
    }
    judge_length(bytes.len())
}

/// Looks at the next byte. None: more bytes decide.
fn look_at_next(bytes: &[u8], search: &mut Search) -> Option<Found>
    requires within { search.old.at < length bytes.now }
    requires looked { IsLookedThrough bytes.now search.old }
    ensures going { IfNone result (IsLookedThrough bytes.now search.new) }
    ensures next { IfNone result (search.new.at ≡ search.old.at + 1) }
    ensures found { IfSome result (IsFound bytes.now) }
{
    let byte = bytes[search.at];
    search.at += 1;
    if byte == b'\n' {
        search.feeds += 1;
        judge_line(&bytes[..search.at], search.feeds)
    } else {
        judge_length(search.at)
    }
}

/// Looks at the bytes that weren't looked at yet. None: more bytes decide.
pub(crate) fn find_block(bytes: &[u8], search: &mut Search) -> Option<Found>
    requires { IsLookedThrough bytes.now search.old }
    ensures looked { IfNone result (IsLookedThrough bytes.now search.new) }
    ensures going { IfNone result (IsUnfinished bytes.now) }
    ensures found { IfSome result (IsFound bytes.now) }
{
    'look: while search.at < bytes.len() {
        let found = look_at_next(bytes, search);
        if found.is_some() {
            return found;
        }
    }
    None
}
