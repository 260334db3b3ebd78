//! The bytes of a response.

ghost use Rattle.std.specs.Prelude.{◌≡◌, ◌++◌, IfOk, OnOk};
ghost use Rattle.relay_http.specs.Response.{fault_line, status_of, written};

use crate::fault::RequestFault;
use crate::response_head::{MOST_RESPONSE_HEAD, put_head};
use crate::status::ResponseStatus;
use std::alloc::{AllocError, Global};
use sudo_words::NoMemory;

fn push(out: &mut Vec<u8>, bytes: &[u8]) -> Result<(), AllocError>
    ensures { OnOk result (out.new.items ≡ out.old.items ++ bytes.now) }
{
    out.extend_from_slice(bytes)
}

/// The bytes of the response of a status with a body. Content-Length is the body's length also
/// where the body is left out, as in the response to HEAD.
pub fn written(
    alloc: Global,
    status: ResponseStatus,
    body: &[u8],
    with_body: bool,
) -> Result<Vec<u8>, NoMemory>
    ensures { IfOk result (λ out. out.items ≡ written status body.now with_body) }
{
    let mut buffer = [0; MOST_RESPONSE_HEAD];
    let end = put_head(&mut buffer, status, body.len());
    let mut out = Vec::from_slice(alloc, &buffer[..end])?;
    if with_body {
        push(&mut out, body)?;
    }
    Ok(out)
}

/// The bytes of the response to a request that is refused by its bytes alone.
pub fn refused(alloc: Global, fault: RequestFault, with_body: bool) -> Result<Vec<u8>, NoMemory>
    ensures { IfOk result
        (λ out. out.items ≡ written (status_of fault) (fault_line fault) with_body) }
{
    written(alloc, fault.status(), fault.line(), with_body)
}
