//! The call that a request makes.

ghost use Rattle.std.specs.Prelude.{◌≡◌};
ghost use Rattle.http_request.specs.Fits.{Fits, FitsAsk};
ghost use Rattle.http_connection.specs.Dialogue.{Does, call_of};

use crate::backend::Backend;
use http_request::{Ask, Call, What};
use http_response::Reply;

/// Makes the call that a request asks for, if any.
pub(crate) fn make_call<B: Backend>(backend: &mut B, ask: &Ask) -> Reply
    requires { FitsAsk (B.copies backend.old) ask.now }
    ensures does { Does B.gives backend.old (call_of ask.now) result backend.new }
    ensures copies { B.copies backend.new ≡ B.copies backend.old }
{
    match &ask.what {
        What::Ping | What::Resources | What::Options(_) | What::Continue | What::Refused(_) =>
            Reply::Nothing,
        What::Call(call, _) => call_backend(backend, call),
    }
}

fn call_backend<B: Backend>(backend: &mut B, call: &Call) -> Reply
    requires { Fits (B.copies backend.old) call.now }
    ensures gives { B.gives backend.old call.now result backend.new }
    ensures copies { B.copies backend.new ≡ B.copies backend.old }
{
    match call {
        Call::Get { key, r, at } => Reply::Got(backend.get(key, *r, *at)),
        Call::Put {
            key,
            seen,
            content,
            w,
            at,
        } => Reply::Stored(backend.put(key, seen, content, *w, *at)),
        Call::Install { name, image } => Reply::Installed(backend.install(name, image)),
        Call::Remove { name } => Reply::Removed(backend.remove(name)),
        Call::ReadProps { bucket } => Reply::Props(backend.props(bucket)),
        Call::SetProps {
            bucket,
            precommit,
            resolver,
        } => Reply::Set(backend.set_props(bucket, precommit, resolver)),
    }
}
