//! Names of the values that registers hold.

ghost use Rattle.std.specs.Prelude.{◌≡◌, ◌≤◌};
ghost use Rattle.bpf_copies.specs.Names.{new_name};

use bpf_insn::Register;

/// What is known of a register beside its kind: it holds the value of this name, moved by a distance, modulo 2^64.
#[derive(Clone, Copy)]
pub struct Name {
    pub value: u32,
    pub distance: u64,
}

/// The name of what a register gets before a slot, or where it is written on the way there.
pub fn new_name(slot: u32, register: Register) -> Name
    requires { slot ≤ 4096 }
    ensures { result ≡ new_name slot register }
{
    Name {
        value: 16 * slot + u32::from(register.number()),
        distance: 0,
    }
}
