//! The store, as the front calls it.

ghost use Rattle.std.specs.Prelude.{◌≡◌, ◌≤◌, ℕ};
ghost use Rattle.http_request.specs.declared.ask.Call.{Call as Asked};
ghost use Rattle.http_request.specs.Fits.{Fits};
ghost use Rattle.http_request.specs.declared.ask.Call.TheVariants.{Get, Put, Install, Remove, ReadProps, SetProps};
ghost use Rattle.http_response.specs.declared.reply.Reply.{Reply as Answered};
ghost use Rattle.http_response.specs.declared.reply.Reply.TheVariants.{Got, Stored, Installed, Removed, Props, Set};

use bpf_admission::Refusal;
use dvv::{Clock, Dot};
use hook_registry::{HookFault, NameFault};
use http_request::Change;
use http_response::Bound;
use key_state::{Bytes, Content, Key, KeyState};
use quorum::QuorumFault;

/// The store, with its hooks. Contracts see which calls may come back how, by a relation between what there is before and
/// after: a call that comes back with a refusal leaves what that refusal's own contract says.
pub trait Backend {
    /// From one state, a call may be answered so and leave the other.
    ghost gives: { Self → Asked → Answered → Self → Type 0 };

    /// How many copies of a key there are.
    ghost copies: { Self → ℕ };

    /// How many copies of a key there are, 1 to 3.
    fn copies(&self) -> u32
        ensures copies { result ≡ copies self.now }
        ensures some { 1 ≤ result }
        ensures few { result ≤ 3 };

    /// Reads a key. At least `r` copies have to answer, 1 to all; `at` is the coordinator's index in the preference list,
    /// from 0.
    fn get(&mut self, key: &Key, r: u32, at: u32) -> Result<KeyState, QuorumFault>
        requires { Fits (copies self.old) (Get key.now r at) }
        ensures { gives self.old (Get key.now r at) (Got result) self.new };

    /// Writes a content, a tombstone too, as one who had seen what the clock counts, and answers its dot. At least `w` copies
    /// have to be stored, 1 to all; `at` is the coordinator's index in the preference list, from 0.
    fn put(
        &mut self,
        key: &Key,
        seen: &Clock,
        content: &Content,
        w: u32,
        at: u32,
    ) -> Result<Dot, QuorumFault>
        requires { Fits (copies self.old) (Put key.now seen.now content.now w at) }
        ensures { gives self.old (Put key.now seen.now content.now w at) (Stored result) self.new };

    /// Installs the hook of an image under a name.
    fn install(&mut self, name: &Bytes, image: &Bytes) -> Result<(), Refusal>
        ensures { gives self.old (Install name.now image.now) (Installed result) self.new };

    /// Takes the hook of a name away.
    fn remove(&mut self, name: &Bytes) -> Result<(), HookFault>
        ensures { gives self.old (Remove name.now) (Removed result) self.new };

    /// Which hooks are bound to a bucket.
    fn props(&mut self, bucket: &Bytes) -> Result<Bound, NameFault>
        ensures { gives self.old (ReadProps bucket.now) (Props result) self.new };

    /// Changes which hooks are bound to a bucket, both or none.
    fn set_props(
        &mut self,
        bucket: &Bytes,
        precommit: &Change,
        resolver: &Change,
    ) -> Result<(), HookFault>
        ensures { gives self.old (SetProps bucket.now precommit.now resolver.now) (Set result) self.new };

    /// No call changes how many copies there are.
    ghost stays: { (old new : Self) (call : Asked) (reply : Answered) → gives old call reply new → copies new ≡ copies old };
}
