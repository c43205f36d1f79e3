ghost use Rattle.std.specs.Prelude.{◌≡◌, IfOk};
ghost use Rattle.pocket_api.specs.Works.{work_of};

use crate::calls::{Parts, call_on};
use crate::headers::{headers_of, token_in};
use crate::query::query_pairs;
use crate::routes::path_and_query;
use crate::work::{Draw, Work};
use pocket_wire::Request;
use std::alloc::{AllocError, Global};

/// The work of a request, which is judged at the moment of the draw.
pub fn work_of(alloc: Global, request: &Request, draw: Draw) -> Result<Work, AllocError>
    ensures { IfOk result (λ work. work ≡ work_of request.now draw) }
{
    let (path, query) = path_and_query(request.target.as_str());
    let headers = headers_of(alloc, request.headers.as_slice())?;
    let token = token_in(alloc, headers.as_slice())?;
    let query = query_pairs(alloc, query)?;
    let parts = Parts {
        path,
        query: query.as_slice(),
        body: request.body.as_slice(),
    };
    let call = call_on(alloc, request.method, &parts)?;
    Ok(Work {
        token,
        method: request.method,
        headers,
        query,
        draw,
        call,
        cost: request.cost,
    })
}
