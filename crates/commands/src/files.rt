//! Files, real ones or others: whole, or as much of them as is needed.
ghost use Rattle.std.specs.Prelude.{◌≡◌, ℕ, List, length, take, Option, None, OnOk, IfOk, IfSome};
ghost use Rattle.bpf_admission.specs.Enough.{AreReadAlike};

use std::alloc::Global;
use std::io;

/// The beginning of a file.
#[derive(Drop)]
pub struct Part {
    /// Its first bytes.
    pub bytes: Vec<u8>,
    /// How many bytes it has. Of a device or a pipe, which does not tell, how many were read.
    pub len: u64,
}

/// The names of two files that go together.
#[derive(Clone, Copy)]
pub struct Paths<'a> {
    /// The file of a dump's records.
    pub file: &'a str,
    /// The file of the script that is run before they are written, or behind them.
    pub script: &'a str,
}

/// Reads and writes files.
pub trait Files {
    // What the file of a name holds, where that is known.
    ghost held: { Self → List ℕ → Option (List ℕ) } = { λ _ _. None };

    /// The bytes of the file.
    fn read(&self, alloc: Global, name: &str) -> io::Result<Vec<u8>>
        ensures { IfOk result (λ bytes. IfSome (held self.now name.now) (λ known. bytes.items ≡ known)) };

    /// The first bytes of the file, at most so many, and how many it has.
    fn read_part(&self, alloc: Global, name: &str, most: usize) -> io::Result<Part>
        ensures bytes { IfOk result (λ part. IfSome (held self.now name.now) (λ known. part.bytes.items ≡ take most known)) }
        ensures len { IfOk result (λ part. IfSome (held self.now name.now) (λ known. part.len ≡ length known)) };

    /// Makes the file hold these bytes alone.
    fn write(&mut self, name: &str, bytes: &[u8]) -> io::Result<()>
        ensures { OnOk result (IfSome (held self.new name.now) (λ known. bytes.now ≡ known)) };
}

/// As much of the file as tells what it is as a program and as an image.
pub fn read_program<F: Files>(files: &F, alloc: Global, name: &str) -> io::Result<Vec<u8>>
    ensures { IfOk result (λ bytes. IfSome (F.held files.now name.now) (λ known. AreReadAlike bytes.items known)) }
{
    let mut part = files.read_part(alloc, name, bpf_admission::MAX_READ_BYTES)?;
    part.bytes.truncate(bpf_admission::enough(part.len));
    Ok(part.bytes)
}
