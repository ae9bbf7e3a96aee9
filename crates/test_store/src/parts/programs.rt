//! Slots, and images of hooks.

use bpf_admission::admit_image;
use bpf_helpers::Sigs;
use bpf_verifier::Verified;
use std::alloc::{AllocError, Global};
use std::test::Fail;

/// The kind of a pre-commit hook in an image.
pub(crate) const PRE_COMMIT: u8 = 1;

/// The kind of a resolver in an image.
pub(crate) const RESOLVER: u8 = 2;

/// Ends the run: the answer is register 0.
pub(crate) const EXIT: [u8; 8] = [0x95, 0, 0, 0, 0, 0, 0, 0];

/// The code that writes the one byte `x` to the output and answers 1.
pub(crate) const WRITE_X: [[u8; 8]; 4] = [
    [0x62, 3, 0, 0, 1, 0, 0, 0],
    [0x72, 3, 4, 0, b'x', 0, 0, 0],
    [0xb7, 0, 0, 0, 1, 0, 0, 0],
    EXIT,
];

/// The code that answers what helper 64 does.
pub(crate) const CALLS_64: [[u8; 8]; 2] = [[0x85, 0, 0, 0, 64, 0, 0, 0], EXIT];

/// The code that answers so.
pub(crate) fn answer(code: u16) -> [[u8; 8]; 2] {
    let [low, high] = code.to_le_bytes();
    [[0xb7, 0, 0, 0, low, high, 0, 0], EXIT]
}

/// The bytes of an image of a kind, with windows of these lengths and this code.
pub(crate) fn image(
    alloc: Global,
    kind: u8,
    in_len: u16,
    out_len: u8,
    slots: &[[u8; 8]],
) -> Result<Vec<u8>, AllocError> {
    let [low, high] = in_len.to_le_bytes();
    let head = [
        0x52, 0x42, 0x50, 0x46, 1, kind, 0, 0, low, high, 0, 0, out_len, 0, 0, 0,
    ];
    let mut bytes = head.to_vec(alloc)?;
    bytes.extend_from_slice(slots.as_flattened())?;
    Ok(bytes)
}

/// Such an image, verified for tables with these helpers.
pub(crate) fn hook(
    alloc: Global,
    sigs: &Sigs,
    kind: u8,
    in_len: u16,
    out_len: u8,
    slots: &[[u8; 8]],
) -> Result<Verified, Fail> {
    let bytes = image(alloc, kind, in_len, out_len, slots)?;
    match admit_image(alloc, &bytes, sigs) {
        Ok(verified) => Ok(verified),
        Err(_) => Err(Fail::new("no hook")),
    }
}
