//! Bytes written one after another into a window.

ghost use Rattle.std.specs.Prelude.{◌≡◌, ◌+◌, ◌-◌, ◌≤◌, length, replicate};
ghost use Rattle.std.specs.Int.{w32, w64, to_le_bytes};
ghost use Rattle.hook_abi.specs.Writing.{Writes};

/// A window that is written from its front on: the bytes below `at` are written.
#[derive(Drop)]
pub(crate) struct Writer<'w> {
    window: &'w mut [u8],
    at: usize,
}

impl<'w> Writer<'w> {
    /// A writer that has written nothing.
    pub(crate) fn new(window: &'w mut [u8]) -> Writer<'w>
        ensures lent { result.window.ghost_name ≡ window.entry.ghost_name }
        ensures window { result.window.now ≡ window.old }
        ensures start { result.at ≡ 0 }
    {
        Writer { window, at: 0 }
    }

    /// Writes bytes.
    pub(crate) fn bytes(&mut self, bytes: &[u8])
        requires { self.old.at + length bytes.now ≤ length self.old.window.now }
        ensures { Writes self.old self.new bytes.now }
    {
        let end = self.at + bytes.len();
        self.window[self.at..end].copy_from_slice(bytes);
        self.at = end;
    }

    /// Writes a number in four bytes, little-endian.
    pub(crate) fn word(&mut self, number: u32)
        requires { self.old.at + 4 ≤ length self.old.window.now }
        ensures { Writes self.old self.new (to_le_bytes w32 number) }
    {
        self.bytes(&number.to_le_bytes());
    }

    /// Writes a number in eight bytes, little-endian.
    pub(crate) fn long(&mut self, number: u64)
        requires { self.old.at + 8 ≤ length self.old.window.now }
        ensures { Writes self.old self.new (to_le_bytes w64 number) }
    {
        self.bytes(&number.to_le_bytes());
    }

    /// Writes zeros to the window's end.
    pub(crate) fn zeros(&mut self)
        requires { self.old.at ≤ length self.old.window.now }
        ensures { Writes self.old self.new (replicate (length self.old.window.now - self.old.at) 0) }
    {
        self.window[self.at..].fill(0);
        self.at = self.window.len();
    }
}
