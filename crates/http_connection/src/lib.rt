//! The HTTP front of the store on one connection: it reads requests, makes their calls, and writes the answers (this store's
//! profile of HTTP/1.1, RFC 9110 and RFC 9112, and of Riak KV's HTTP API).
//!
//! `Completes` of `specs/Dialogue.antt` says what a whole connection comes to: the requests of the bytes that were read, the
//! calls that they ask for, in order, and the answers, in order, as the bytes that were written. A [`Talk`] goes that way one step at a
//! time, with no device, so that a worker may have many of them; a [`Front`] goes it to the end over one source and one sink.
#![tactic(auto)]

mod backend;
mod call;
mod desk;
mod device;
mod fault;
mod front;
mod limits;
mod memory;
mod queue;
mod reader;
mod spare;
mod stream;
mod talk;
mod turn;

pub use backend::Backend;
pub use desk::Desk;
pub use device::{Failed, Sink, Source};
pub use fault::FrontFault;
pub use front::Front;
pub use limits::{FLUSH_BYTES, READ_PIECE_BYTES, ROUNDS_PER_TURN};
pub use memory::{MemorySink, MemorySource};
pub use reader::{Reader, Writer};
pub use stream::{ReadSource, WriteSink};
pub use talk::Talk;
pub use turn::{Step, Wanted};
