//! Statuses and words of refusals.

ghost use Rattle.std.specs.Prelude.{◌≡◌};
ghost use Rattle.bpf_insn.specs.Refusal.{name_of};
ghost use Rattle.http_request.specs.declared.ask.Refusal.TheVariants.{FixedProperty};
ghost use Rattle.http_response.specs.Answer as spec;
ghost use Rattle.http_response.specs.Answer.{refusal_answer, token_answer, vnode_answer, hook_answer, name_answer};
ghost use Rattle.http_response.specs.View.{line_of};

use bpf_insn::Refusal as CodeRefusal;
use context_token::TokenFault;
use hook_registry::{HookFault, NameFault};
use http_request::{Property, Refusal, Route};
use vnode::VnodeFault;

/// A status, the methods of a route where they are told, and a line of text.
#[derive(Clone, Copy)]
pub(crate) struct Line<'a> {
    pub(crate) status: &'a [u8],
    pub(crate) text: &'a [u8],
    pub(crate) allow: Option<&'a [u8]>,
}

pub(crate) const BAD_REQUEST: &[u8] = b"400 Bad Request";

pub(crate) const NOT_FOUND: &[u8] = b"404 Not Found";

pub(crate) const UNPROCESSABLE: &[u8] = b"422 Unprocessable Entity";

pub(crate) const BROKEN: &[u8] = b"500 Internal Server Error";

pub(crate) const UNAVAILABLE: &[u8] = b"503 Service Unavailable";

/// What a ping is told.
pub(crate) const HERE: Line<'static> = Line {
    status: b"200 OK",
    text: b"OK",
    allow: None,
};

/// Where the resources lie.
pub(crate) const RESOURCES: &[u8] =
    b"{\"riak_kv_wm_bucket_type\":\"/types\",\"riak_kv_wm_buckets\":\"/buckets\",\"riak_kv_wm_object\":\"/buckets\",\"riak_kv_wm_ping\":\"/ping\",\"riak_kv_wm_props\":\"/buckets\",\"riak_kv_wm_raw\":\"/riak\"}";

/// What want of memory is told as.
pub(crate) const NO_MEMORY: Line<'static> = Line {
    status: BROKEN,
    text: b"E1\n",
    allow: None,
};

/// What is told of an image of another kind than is asked for.
pub(crate) const OTHER_KIND: Line<'static> = Line {
    status: UNPROCESSABLE,
    text: b"G2\n",
    allow: None,
};

/// What is told where too few copies answered.
pub(crate) const TOO_FEW: Line<'static> = Line {
    status: UNAVAILABLE,
    text: b"Q1\n",
    allow: None,
};

/// What is told where a bound hook is not seen.
pub(crate) const UNSEEN: Line<'static> = Line {
    status: BROKEN,
    text: b"G3\n",
    allow: None,
};

/// What is told where copies disagree.
pub(crate) const DISAGREES: Line<'static> = Line {
    status: BROKEN,
    text: b"X4\n",
    allow: None,
};

/// What is told where a content is too large for a hook.
pub(crate) const TOO_LARGE: Line<'static> = Line {
    status: b"413 Payload Too Large",
    text: b"X1\n",
    allow: None,
};

/// What is told where a hook's verdict is none.
pub(crate) const BAD_VERDICT: Line<'static> = Line {
    status: BROKEN,
    text: b"X2\n",
    allow: None,
};

fn told(status: &'static [u8], text: &'static [u8]) -> Line<'static>
    ensures { line_of result ≡ spec.told status.now text.now }
{
    Line {
        status,
        text,
        allow: None,
    }
}

/// What a refused request is told.
pub(crate) fn of_refusal(refusal: Refusal) -> Line<'static>
    ensures { line_of result ≡ refusal_answer refusal }
{
    match refusal {
        Refusal::BadHead => told(BAD_REQUEST, b"bad head\n"),
        Refusal::Coding => told(b"501 Not Implemented", b"coding\n"),
        Refusal::BadLength => told(BAD_REQUEST, b"bad length\n"),
        Refusal::NoLength => told(b"411 Length Required", b"length\n"),
        Refusal::Large => told(b"413 Payload Too Large", b"large\n"),
        Refusal::Expectation => told(b"417 Expectation Failed", b"expectation\n"),
        Refusal::NoRoute => told(NOT_FOUND, b"no route\n"),
        Refusal::Method(route) => Line {
            status: b"405 Method Not Allowed",
            text: b"method\n",
            allow: Some(methods_of(route)),
        },
        Refusal::Query => told(BAD_REQUEST, b"bad query\n"),
        Refusal::BadName => told(BAD_REQUEST, b"bad name\n"),
        Refusal::Token(fault) => of_token(fault),
        Refusal::BadType => told(BAD_REQUEST, b"bad type\n"),
        Refusal::BadProps => told(BAD_REQUEST, b"bad props\n"),
        Refusal::FixedProperty(property) => of_property(property),
    }
}

/// The methods of a route.
pub(crate) fn methods_of(route: Route) -> &'static [u8]
    ensures { result.now ≡ spec.methods_of route }
{
    match route {
        Route::Root | Route::Ping => b"GET, HEAD, OPTIONS",
        Route::Key | Route::TypedKey | Route::OldKey => b"GET, HEAD, PUT, POST, DELETE, OPTIONS",
        Route::Hook => b"PUT, DELETE, OPTIONS",
        Route::Props | Route::TypedProps => b"GET, HEAD, PUT, DELETE, OPTIONS",
    }
}

fn of_property(property: Property) -> Line<'static>
    ensures { line_of result ≡ refusal_answer (FixedProperty property) }
{
    match property {
        Property::AllowMult => told(BAD_REQUEST, b"bad props allow_mult\n"),
        Property::LastWriteWins => told(BAD_REQUEST, b"bad props last_write_wins\n"),
        Property::NVal => told(BAD_REQUEST, b"bad props n_val\n"),
        Property::PostCommit => told(BAD_REQUEST, b"bad props postcommit\n"),
    }
}

fn of_token(fault: TokenFault) -> Line<'static>
    ensures { line_of result ≡ token_answer fault }
{
    match fault {
        TokenFault::NotBase64 => told(BAD_REQUEST, b"K1\n"),
        TokenFault::Version => told(BAD_REQUEST, b"K2\n"),
        TokenFault::NotRising => told(BAD_REQUEST, b"K3\n"),
        TokenFault::Cut => told(BAD_REQUEST, b"K4\n"),
        TokenFault::PastLimit => told(BAD_REQUEST, b"K5\n"),
        TokenFault::NoMemory => told(BROKEN, b"E1\n"),
    }
}

/// What a refusal of a vnode is told as.
pub(crate) fn of_vnode(fault: VnodeFault) -> Line<'static>
    ensures { line_of result ≡ vnode_answer fault }
{
    match fault {
        VnodeFault::ContextAhead => told(b"412 Precondition Failed", b"P1\n"),
        VnodeFault::TooManySiblings => told(b"409 Conflict", b"P2\n"),
        VnodeFault::ClockFull => told(UNAVAILABLE, b"P3\n"),
        VnodeFault::MergedClockFull => told(UNAVAILABLE, b"M1\n"),
        VnodeFault::JournalFull => told(UNAVAILABLE, b"J1\n"),
        VnodeFault::NoMemory => told(BROKEN, b"E1\n"),
    }
}

/// What a fault of the registry is told as; an unknown name by the status of the request that names it.
pub(crate) fn of_hook(unknown: &'static [u8], fault: HookFault) -> Line<'static>
    ensures { line_of result ≡ hook_answer unknown.now fault }
{
    match fault {
        HookFault::NameUnknown => told(unknown, b"G1\n"),
        HookFault::KindDiffers => told(UNPROCESSABLE, b"G2\n"),
        HookFault::NoMemory => told(BROKEN, b"E1\n"),
    }
}

/// What a fault of a look-up of bound names is told as.
pub(crate) fn of_name(fault: NameFault) -> Line<'static>
    ensures { line_of result ≡ name_answer fault }
{
    match fault {
        NameFault::NotSeen => told(BROKEN, b"G3\n"),
        NameFault::NoMemory => told(BROKEN, b"E1\n"),
    }
}

/// The number of a refusal of code.
pub(crate) fn of_code(refusal: CodeRefusal) -> &'static [u8]
    ensures { result.now ≡ name_of refusal }
{
    match refusal {
        CodeRefusal::UnevenLength => b"D1",
        CodeRefusal::Empty => b"D2",
        CodeRefusal::TooLong => b"D3",
        CodeRefusal::UnknownOpcode => b"D4",
        CodeRefusal::UnusedField => b"D5",
        CodeRefusal::BadRegister => b"D6",
        CodeRefusal::CutWide => b"D7",
        CodeRefusal::LeftOut => b"D8",
        CodeRefusal::BadSwapWidth => b"D9",
        CodeRefusal::Memory => b"E1",
    }
}
