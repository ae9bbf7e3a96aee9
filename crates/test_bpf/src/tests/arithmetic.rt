//! Worked rows of the table of operations, of byte swaps and of conditions.

use bpf_alu::{Cond, Op, SwapBits, SwapKind, Width, eval, holds, swap};

const VALUES: [u64; 8] = [0, 7, 7, 1 << 63, u64::MAX, 0xffff_ffff, 0xffff_ff80, 13330];

#[test]
fn worked_rows(rt: HostRuntime) {
    let minus_7 = 0u64.wrapping_sub(7);
    let values = [
        eval(Op::Div, Width::W64, 7, 0),
        eval(Op::Mod, Width::W64, 7, 0),
        eval(Op::Mod, Width::W32, 0x1_0000_0007, 0),
        eval(Op::SignedDiv, Width::W64, 1 << 63, u64::MAX),
        eval(Op::SignedMod, Width::W64, minus_7, 3),
        eval(Op::Mov, Width::W32, 0, u64::MAX),
        eval(Op::Movsx8, Width::W32, 0, 0x80),
        swap(SwapKind::ToBig, SwapBits::B16, 0x1234),
    ];
    let less = holds(Cond::SignedLess, Width::W32, 0xffff_ffff, 0)
        && !holds(Cond::SignedLess, Width::W64, 0xffff_ffff, 0);
    assert!(rt; less && values == VALUES);
}
