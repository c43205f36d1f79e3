// Who sends a work, and what rules see of it.
ghost use Rattle.std.specs.Prelude.{◌≡◌, IfOk};
ghost use Rattle.std.specs.Option.{option_copied, option_map_or};
ghost use Rattle.pocket_types.specs.Order.{Rises};
ghost use Rattle.pocket_types.specs.declared.requests.Caller.TheVariants as caller;
ghost use Rattle.pocket_api.specs.Asks.{bare_ask};
ghost use Rattle.pocket_tables.specs.Places.{IsPlaceOf};
ghost use Rattle.pocket_core.specs.Callers.{whole_of};
ghost use Rattle.pocket_states.specs.States.{bearer, member_at, text_of, token_of_text};

use pocket_api::{Call, Draw, Work};
use pocket_keeper::Token;
use pocket_types::{Ask, Caller, Context, Moment, Seq, Text};
use std::alloc::{AllocError, Global};

/// Where the token of a text stands, or belongs.
fn place_of_token(tokens: &[Token], text: &Text) -> Result<usize, usize>
    requires { Rises text_of tokens.now }
    ensures { IsPlaceOf text_of text.now tokens.now result }
{
    tokens.binary_search_by(|token| token.text.cmp(text))
}

/// The token of a text.
fn find_token<'a>(tokens: &'a [Token], text: &Text) -> Option<&'a Token>
    requires { Rises text_of tokens.now }
    ensures { option_copied result ≡ token_of_text tokens.now text.now }
{
    match place_of_token(tokens, text) {
        Ok(at) => tokens.get(at),
        Err(_) => None,
    }
}

/// Who bears a token: its record as long as it lasts, then a guest.
fn member_of(token: &Token, moment: Moment) -> Result<Caller, AllocError>
    ensures { IfOk result (λ who. who ≡ member_at moment token.now) }
{
    if moment < token.until {
        Ok(Caller::Member(token.collection.clone()?, token.id))
    } else {
        Ok(Caller::Guest)
    }
}

/// Who bears a text as a token.
fn bearer(admin: &Text, tokens: &[Token], moment: Moment, text: &Text) -> Result<Caller, AllocError>
    requires { Rises text_of tokens.now }
    ensures { IfOk result (λ who. who ≡ bearer admin.now tokens.now moment text.now) }
{
    if *text == *admin {
        return Ok(Caller::Admin);
    }
    match find_token(tokens, text) {
        Some(token) => member_of(token, moment),
        None => Ok(Caller::Guest),
    }
}

/// Who sends a work that bears this token, if any.
pub(crate) fn find_sender(
    admin: &Text,
    tokens: &[Token],
    moment: Moment,
    token: &Option<Text>,
) -> Result<Caller, AllocError>
    requires { Rises text_of tokens.now }
    ensures { IfOk result (λ who. who ≡ option_map_or (bearer admin.now tokens.now moment) token.now caller.Guest) }
{
    match token {
        Some(text) => bearer(admin, tokens, moment, text),
        None => Ok(Caller::Guest),
    }
}

/// What rules don't see of a work.
#[derive(Drop)]
pub(crate) struct Rest {
    pub(crate) token: Option<Text>,
    pub(crate) draw: Draw,
    pub(crate) call: Call,
    pub(crate) cost: u64,
}

/// What rules see of a work, and the rest of it.
pub(crate) fn taken_apart(alloc: Global, caller: Caller, work: Work) -> (Ask, Rest)
    ensures ask { result.0 ≡ bare_ask caller work }
    ensures whole { whole_of result.0 result.1 ≡ work }
{
    let Work {
        token,
        method,
        headers,
        query,
        draw,
        call,
        cost,
    } = work;
    let ask = Ask {
        caller,
        method,
        context: Context::Default,
        headers,
        query,
        body: Seq::new(alloc),
        moment: draw.moment,
    };
    let rest = Rest {
        token,
        draw,
        call,
        cost,
    };
    (ask, rest)
}

/// The work whose parts these are, without a copy.
pub(crate) fn put_together(ask: Ask, rest: Rest) -> Work
    ensures { result ≡ whole_of ask rest }
{
    let Ask {
        caller,
        method,
        context: _,
        headers,
        query,
        body,
        moment: _,
    } = ask;
    drop(caller);
    drop(body);
    let Rest {
        token,
        draw,
        call,
        cost,
    } = rest;
    Work {
        token,
        method,
        headers,
        query,
        draw,
        call,
        cost,
    }
}
