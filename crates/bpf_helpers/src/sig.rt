//! What a helper reads and the range of its answers.

ghost use Rattle.std.specs.Prelude.{◌≡◌, ◌<◌, ◌≤◌, ◌^◌, ◌↔◌, IsTrue, IsSome, IfSome};
ghost use Rattle.bpf_helpers.specs.Rules.{are_laid_out, is_signature, is_helper_number};

use bpf_insn::Register;
use bpf_semantics::MAX_WINDOW_BYTES;

/// The registers of the arguments of a call, in order.
pub const ARGUMENT_REGISTERS: [Register; 5] = [
    Register::R1,
    Register::R2,
    Register::R3,
    Register::R4,
    Register::R5,
];

/// What an argument register of a call holds.
#[derive(Clone, Copy, PartialEq, Eq)]
pub enum ArgRule {
    /// Anything: it is not read.
    Unused,
    /// A number from `lo` to `hi`, both included.
    Num { lo: u64, hi: u64 },
    /// The address of up to `max` bytes, whose number the next register holds.
    Read { max: u32 },
    /// How many bytes the Read before it has.
    Len,
}

/// What the five argument registers of a helper hold, and the range of its answers, both ends included. Each Read is
/// followed by its Len, and no range is empty.
#[derive(Clone, Copy, PartialEq, Eq)]
pub struct Sig {
    pub args: [ArgRule; 5],
    pub lo: u64,
    pub hi: u64,
    pub ghost laid_out: { IsTrue (are_laid_out args) },
    pub ghost ordered: { lo ≤ hi },
    pub ghost word: { hi < 2 ^ 64 },
}

/// A helper's number and its Sig.
#[derive(Clone, Copy, PartialEq, Eq)]
pub struct Entry {
    pub number: u32,
    pub sig: Sig,
}

/// Whether each Read is followed by a Len and each Len stands after a Read, no Read allows more than [`MAX_WINDOW_BYTES`] bytes
/// and no range of a number is empty.
fn has_layout(args: &[ArgRule]) -> bool
    ensures { result ≡ are_laid_out args.now }
{
    match args {
        [] => true,
        [ArgRule::Read { max }, ArgRule::Len, rest @ ..] => *max <= MAX_WINDOW_BYTES
            && has_layout(rest),
        [ArgRule::Num { lo, hi }, rest @ ..] => *lo <= *hi && has_layout(rest),
        [ArgRule::Unused, rest @ ..] => has_layout(rest),
        _ => false,
    }
}

impl Sig {
    ghost use Rattle.bpf_helpers.specs.Shapes.{shape_of};

    /// The Sig of these rules and this range of answers. None where a Read is not followed by a Len, a Len stands after
    /// no Read, there are more than two Reads, a Read allows more than [`MAX_WINDOW_BYTES`] bytes, or a range is empty.
    pub fn new(args: [ArgRule; 5], ret: (u64, u64)) -> Option<Sig>
        ensures some { IsSome result ↔ IsTrue (is_signature args ret.0 ret.1) }
        ensures value { IfSome result (λ sig. (sig.args ≡ args) × (sig.lo ≡ ret.0) × (sig.hi ≡ ret.1)) }
    {
        let (lo, hi) = ret;
        if lo <= hi && has_layout(&args) {
            Some(Sig { args, lo, hi })
        } else {
            None
        }
    }
}

/// Whether a helper may have this number: 16 to 19 are written, 64 to 127 are a host's.
pub fn is_helper_number(number: u32) -> bool
    ensures { result ≡ is_helper_number number }
{
    matches!(number, 16..=19 | 64..=127)
}
