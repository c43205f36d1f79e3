ghost use Rattle.std.specs.Prelude.{◌≡◌, ◌↔◌};
ghost use Rattle.pocket_wire.specs.Phrases.{IsReplyStatus};
ghost use Rattle.pocket_api.specs.declared.reply.ReplyBody.TheVariants.{Empty, NoMemory, NotKept};

use crate::why::Why;
use pocket_types::Text;

/// What a reply carries.
#[derive(Drop)]
pub enum ReplyBody {
    Empty,
    /// The fixed text for want of memory.
    NoMemory,
    /// The fixed text where the store failed.
    NotKept,
    /// JSON.
    Made(Text),
}

/// The machine's answer to one request.
#[derive(Drop)]
pub struct Reply {
    pub status: u16,
    pub body: ReplyBody,
    /// The number of accepted commands before the request.
    pub at: u64,
    pub why: Why,
    pub ghost has_phrase: { IsReplyStatus status },
    pub ghost no_content: { (status ≡ 204) ↔ (body ≡ Empty) },
    pub ghost no_memory: { (status ≡ 507) ↔ (body ≡ NoMemory) },
    pub ghost not_kept: { (status ≡ 500) ↔ (body ≡ NotKept) },
}
