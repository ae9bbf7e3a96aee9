//! Programs that go wrong, each in its way, and programs that want fuel.

use super::Ending::{self, Answers, Faults, WantsFuel};
use super::{NONE, ends_so};
use bpf_helpers::Table;
use bpf_semantics::Fault;
use std::test::Fail;
use test_support::Slot::{
    Added, Call, Copied, Exit, Fields, Jump, LoadByte, Put, StoreByte, StoreWord, Wide,
};
use test_support::{Slot, expect};

/// The slots of a program that faults on an input of nine bytes, why, and at which slot.
const FAULTS: &[(&[Slot], Fault, i64)] = &[
    // A register that is read holds nothing.
    (&[Exit], Fault::Unset, 0),
    (&[Added(1, 5)], Fault::Unset, 0),
    (&[Fields(0x87, 6, 0, 0, 0)], Fault::Unset, 0),
    (&[Fields(0xd4, 6, 0, 0, 16)], Fault::Unset, 0),
    (&[Fields(0x1d, 1, 5, 0, 0)], Fault::Unset, 0),
    (&[Fields(0x7b, 3, 6, 0, 0)], Fault::Unset, 0),
    // No window has all of the bytes: a null address, the stack's end, before the stack, past the output.
    (&[Put(1, 0), LoadByte(0, 1, 0)], Fault::Address, 1),
    (&[Fields(0x7a, 10, 0, -4, 0)], Fault::Address, 0),
    (&[StoreByte(10, -513, 0)], Fault::Address, 0),
    (&[StoreWord(3, 5, 0)], Fault::Address, 0),
    (&[Fields(0x79, 0, 1, 2, 0)], Fault::Address, 0),
    (&[Fields(0x7a, 1, 0, 2, 0)], Fault::Address, 0),
    // A store to the input.
    (&[StoreByte(1, 8, 0)], Fault::Input, 0),
    // No instruction starts there: past the end, before the start, the second slot of a wide one.
    (&[Put(0, 0)], Fault::Slot, 1),
    (&[Jump(-5)], Fault::Slot, -4),
    (&[Fields(0x06, 0, 0, 0, i32::MAX)], Fault::Slot, 1 << 31),
    (&[Jump(1), Wide(0, 0)], Fault::Slot, 2),
    // No helper has the number, or a range is in no window.
    (&[Call(64)], Fault::Helper, 0),
    (&[Call(4)], Fault::Helper, 0),
    (&[Call(1)], Fault::Helper, 0),
    // A write to the frame pointer.
    (&[Put(10, 0)], Fault::ReadOnly, 0),
    (&[Wide(10, 0)], Fault::ReadOnly, 0),
    // The lowest of several is told.
    (&[Copied(10, 6)], Fault::Unset, 0),
    (&[Fields(0x61, 10, 1, 6, 0)], Fault::Address, 0),
];

#[test]
fn faults(rt: HostRuntime) -> Result<(), Fail> {
    let table = Table::new(rt.alloc());
    for (place, (slots, why, slot)) in FAULTS.iter().enumerate() {
        let want = (Faults(*why, *slot), NONE);
        expect(
            ends_so(rt.alloc(), &table, slots, &[0x01; 9], 100, want)?,
            &place,
        )?;
    }
    Ok(())
}

/// The slots of a program, the fuel of a drive, and how it ends.
const FUEL: &[(&[Slot], u64, Ending)] = &[
    (&[Put(0, 0), Exit], 0, WantsFuel),
    (&[Put(0, 0), Exit], 1, WantsFuel),
    (&[Put(0, 0), Exit], 2, Answers(0, 2)),
    (&[Put(0, 0), Exit], u64::MAX, Answers(0, 2)),
    (&[Put(0, 0)], 1, WantsFuel),
    (&[Put(0, 0)], 2, Faults(Fault::Slot, 1)),
    // A jump to itself has no end.
    (&[Jump(-1)], 65_536, WantsFuel),
    // A slot that no path reaches is passed over.
    (&[Put(0, 1), Jump(1), Put(0, 0), Exit], 100, Answers(1, 3)),
    (
        &[Put(0, 1), Fields(0x06, 0, 0, 0, 1), Put(0, 0), Exit],
        100,
        Answers(1, 3),
    ),
];

#[test]
fn fuel(rt: HostRuntime) -> Result<(), Fail> {
    let table = Table::new(rt.alloc());
    for (place, (slots, fuel, ending)) in FUEL.iter().enumerate() {
        let want = (*ending, NONE);
        expect(
            ends_so(rt.alloc(), &table, slots, &[], *fuel, want)?,
            &place,
        )?;
    }
    Ok(())
}
