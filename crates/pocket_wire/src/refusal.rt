ghost use Rattle.std.specs.Prelude.{◌≡◌, ◌++◌, IfOk, OnOk, codes, vec_len, decimal};
ghost use Rattle.pocket_wire.specs.Phrases.{IsReplyStatus, phrase, refused_bytes, status_line};

use http::StatusCode;
use pocket_types::Seq;
use std::alloc::{AllocError, Global};

/// The phrase of a status, empty where it has none.
#[tactic(auto, unfolding(crate::specs::Phrases::phrase))]
pub fn status_phrase(status: u16) -> &'static str
    ensures { result.now ≡ phrase status }
{
    match StatusCode::from_u16(status) {
        Ok(code) => match code.canonical_reason() {
            Some(phrase) => phrase,
            None => "",
        },
        Err(_) => "",
    }
}

/// The whole reply to a request that is refused before its call.
pub fn refused_reply(alloc: Global, status: u16) -> Result<Seq<u8>, AllocError>
    requires { IsReplyStatus status }
    ensures { IfOk result (λ reply. reply ≡ refused_bytes status) }
{
    let phrase = status_phrase(status);
    let text = format!(in alloc;
        "HTTP/1.1 {status} {phrase}\r\nContent-Length: 0\r\nConnection: close\r\n\r\n"
    )?;
    Ok(Seq::from_vec(text.into_bytes()))
}
