ghost use Rattle.std.specs.Prelude.{◌≡◌, Some, None, Err, IfOk, IsTrue};
ghost use Rattle.json.specs.Value.{value_view};
ghost use Rattle.pocket_types.specs.Json.{printed};
ghost use Rattle.pocket_types.specs.declared.json.Jv.{Jv};
ghost use Rattle.pocket_types.specs.Profile.{IsProfiled, texts_utf8};
ghost use Rattle.pocket_json.specs.Reading.{document, read as read_of, IsJson};

use crate::convert::tree;
use crate::faults::JsonFault;
use json::{Error, Reader, Scratch, Value};
use pocket_types::Jv;
use std::alloc::Global;

/// The tree that bytes are, where they are JSON of the profile.
///
/// Time is linear in the bytes, but for the sorting of keys.
#[tactic(auto, using(crate::proofs::Profiles::is_profiled))]
pub fn read_jv(alloc: Global, bytes: &[u8]) -> Result<Jv, JsonFault>
    ensures ok { IfOk result (λ tree. IsJson bytes.now tree) }
    ensures bad { result ≡ Err JsonFault.BadJson → (tree : Jv) → ¬ IsJson bytes.now tree }
    ensures profile { IfOk result (λ tree. IsProfiled tree) }
{
    match simdutf8::compat::from_utf8(bytes) {
        Ok(text) => read_text(alloc, text),
        Err(_) => Err(JsonFault::BadJson),
    }
}

/// The law of printing and reading: where a tree is as `read_jv` gives them, its compact text is JSON of the profile, and
/// its tree is this one. The text is that of `Jv::print`, borrowed.
pub fn printed_tree_is_read(tree: &Jv, text: &str)
    requires tree { IsProfiled tree.now }
    requires text { text.now ≡ printed tree.now }
    ensures { IsJson text.now tree.now }
{}

fn read_text(alloc: Global, text: &str) -> Result<Jv, JsonFault>
    ensures ok { IfOk result (λ tree. read_of text.now ≡ Some tree) }
    ensures texts { IfOk result (λ tree. IsTrue (texts_utf8 tree)) }
    ensures bad { result ≡ Err JsonFault.BadJson → read_of text.now ≡ None }
{
    let mut scratch = Scratch::new(alloc);
    let value = parse(alloc, text, &mut scratch)?;
    tree(alloc, &value)
}

fn parse<'a>(alloc: Global, text: &'a str, scratch: &'a mut Scratch) -> Result<Value<'a>, JsonFault>
    ensures ok { IfOk result (λ value. document text.now ≡ Some (value_view value)) }
    ensures bad { result ≡ Err JsonFault.BadJson → document text.now ≡ None }
{
    let mut reader = Reader::new(text, scratch)?;
    let value = match Value::read(alloc, &mut reader, 32) {
        Ok(value) => value,
        Err(Error::OutOfMemory) => return Err(JsonFault::Memory),
        Err(_) => return Err(JsonFault::BadJson),
    };
    if reader.next().is_some() {
        return Err(JsonFault::BadJson);
    }
    Ok(value)
}
