//! One helper: a closure beside what is known of it.

ghost use Rattle.std.specs.Prelude.{◌≡◌};
ghost use Rattle.bpf_helpers.specs.Answers.{IsCallableOn, AnswersOn, Fits, HelperAnswers};

use crate::sig::Sig;

/// What a helper does with the numbers of a call and the bytes of its Reads.
pub type Body = Box<dyn Fn([u64; 5], &[u8], &[u8]) -> u64 + Send>;

/// The parts of one call.
#[derive(Clone, Copy)]
pub struct Call<'a> {
    /// The number of each argument register whose rule is a Num, and 0 elsewhere.
    pub numbers: [u64; 5],
    /// The bytes of the first Read, none where there is none.
    pub first: &'a [u8],
    /// The bytes of the second Read, none where there is none.
    pub second: &'a [u8],
}

/// A helper: its number, what it reads, the range of its answers, and a closure that may be called on each call that
/// fits and then answers as the helper's number says.
#[derive(Drop)]
pub struct Helper {
    pub number: u32,
    pub sig: Sig,
    body: Body,
    ghost callable: { IsCallableOn sig.args (Body.pre body) },
    ghost answers: { AnswersOn number sig.args sig.lo sig.hi (Body.post body) },
}

/// What the closures of helpers may answer. It has no code: contracts speak of calls by it.
pub trait Closures {
    ghost use Rattle.std.specs.Prelude.{ℕ};
    ghost use Rattle.bpf_helpers.specs.Answers.{Given};

    /// The closure of a number may answer what it is given so.
    ghost tells: { Self → ℕ → Given → ℕ → Type 0 };
}

impl Closures for Helper {
    ghost use Rattle.std.specs.Prelude.{◌≡◌};
    ghost use Rattle.bpf_helpers.specs.Closures.{MayAnswer};

    ghost tells = { λ helper number g answer. (helper.number ≡ number) × MayAnswer (Body.post helper.body) g answer };
}

impl Helper {
    ghost use Rattle.bpf_helpers.specs.Parts.{given};

    /// Keeps a closure that may be called on each call that fits the Sig, and then answers within the Sig's range; one of
    /// the numbers 16 to 19 answers what is written of it.
    pub fn new(number: u32, sig: Sig, body: Body) -> Helper
        requires callable { IsCallableOn sig.args (Body.pre body) }
        requires answers { AnswersOn number sig.args sig.lo sig.hi (Body.post body) }
        ensures number { result.number ≡ number }
        ensures sig { result.sig ≡ sig }
        ensures body { result.body ≡ body }
    {
        Helper { number, sig, body }
    }

    /// The answer to a call that fits.
    pub fn call(&self, call: &Call) -> u64
        requires { Fits self.now.sig.args (given call.now) }
        ensures answers { HelperAnswers self.now.number self.now.sig.lo self.now.sig.hi (given call.now) result }
        ensures called { Body.post self.now.body call.now.numbers call.now.first call.now.second result }
        ensures told { ⟦<Helper as Closures>⟧.tells self.now self.now.number (given call.now) result }
    {
        (self.body)(call.numbers, call.first, call.second)
    }
}
