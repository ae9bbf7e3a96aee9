//! Refusals by their numbers.

ghost use Rattle.std.specs.Prelude.{◌≡◌};
ghost use Rattle.script_replies.specs.Numbers.{refusal_number, bad_answer_number, token_fault_number};

use context_token::TokenFault;
use hook_abi::BadAnswer;
use vnode::VnodeFault;

/// The number of an event's refusal.
pub fn refusal_number(refusal: VnodeFault) -> &'static str
    ensures { result.now ≡ refusal_number refusal }
{
    match refusal {
        VnodeFault::ContextAhead => "P1",
        VnodeFault::TooManySiblings => "P2",
        VnodeFault::ClockFull => "P3",
        VnodeFault::MergedClockFull => "M1",
        VnodeFault::JournalFull => "J1",
        VnodeFault::NoMemory => "E1",
    }
}

// The number of a hook's answer that has no meaning.
pub(crate) fn bad_answer_number(bad: BadAnswer) -> &'static str
    ensures { result.now ≡ bad_answer_number bad }
{
    match bad {
        BadAnswer::UnknownCode => "B1",
        BadAnswer::LengthPastWindow => "B2",
        BadAnswer::NoSuchSibling => "B3",
    }
}

/// The number of a token's refusal.
pub fn token_fault_number(fault: TokenFault) -> &'static str
    ensures { result.now ≡ token_fault_number fault }
{
    match fault {
        TokenFault::NotBase64 => "K1",
        TokenFault::Version => "K2",
        TokenFault::NotRising => "K3",
        TokenFault::Cut => "K4",
        TokenFault::PastLimit => "K5",
        TokenFault::NoMemory => "E1",
    }
}
