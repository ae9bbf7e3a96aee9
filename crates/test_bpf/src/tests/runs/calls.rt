//! Calls of the step machine itself, 1 to 3: what each gives and where it faults.

use super::Ending::{self, Answers, Faults};
use super::{NONE, ends_so};
use bpf_helpers::Table;
use bpf_semantics::Fault;
use std::test::Fail;
use test_support::Slot::{Call, Copied, Exit, Put, Raised, StoreWord};
use test_support::{Slot, expect};

/// The slots of a program that calls 1 to 3, its input, how it ends, and its output.
const OWN: &[(&str, &[Slot], &[u8], Ending, [u8; 8])] = &[
    (
        "copy",
        &[Copied(2, 1), Copied(1, 3), Put(3, 4), Call(1), Exit],
        &[1, 2, 3, 4],
        Answers(0, 5),
        [1, 2, 3, 4, 0, 0, 0, 0],
    ),
    (
        "copy upwards over itself",
        &[
            StoreWord(3, 0, 0x0403_0201),
            StoreWord(3, 4, 0x0807_0605),
            Copied(1, 3),
            Raised(1, 1),
            Copied(2, 3),
            Put(3, 6),
            Call(1),
            Exit,
        ],
        &[],
        Answers(0, 8),
        [1, 1, 2, 3, 4, 5, 6, 8],
    ),
    (
        "copy downwards over itself",
        &[
            StoreWord(3, 0, 0x0403_0201),
            StoreWord(3, 4, 0x0807_0605),
            Copied(1, 3),
            Copied(2, 3),
            Raised(2, 2),
            Put(3, 6),
            Call(1),
            Exit,
        ],
        &[],
        Answers(0, 8),
        [3, 4, 5, 6, 7, 8, 7, 8],
    ),
    (
        "copy of nothing at the ends",
        &[
            Copied(2, 1),
            Copied(1, 3),
            Raised(1, 8),
            Raised(2, 2),
            Put(3, 0),
            Call(1),
            Exit,
        ],
        &[1, 2],
        Answers(0, 7),
        NONE,
    ),
    (
        "copy of nothing to the end of the stack",
        &[Copied(2, 1), Copied(1, 10), Put(3, 0), Call(1), Exit],
        &[],
        Answers(0, 5),
        NONE,
    ),
    (
        "copy of nothing past the end",
        &[
            Copied(2, 1),
            Copied(1, 3),
            Raised(1, 9),
            Put(3, 0),
            Call(1),
            Exit,
        ],
        &[],
        Faults(Fault::Helper, 4),
        NONE,
    ),
    (
        "copy past the end",
        &[Copied(2, 1), Copied(1, 3), Put(3, 9), Call(1), Exit],
        &[0; 9],
        Faults(Fault::Helper, 3),
        NONE,
    ),
    (
        "copy from past the end",
        &[Copied(2, 1), Copied(1, 3), Put(3, 4), Call(1), Exit],
        &[1, 2, 3],
        Faults(Fault::Helper, 3),
        NONE,
    ),
    (
        "copy to the input",
        &[Copied(2, 3), Put(3, 1), Call(1), Exit],
        &[1],
        Faults(Fault::Helper, 2),
        NONE,
    ),
    (
        "copy of nothing to the input",
        &[Copied(2, 3), Put(3, 0), Call(1), Exit],
        &[1],
        Faults(Fault::Helper, 2),
        NONE,
    ),
    (
        "fill of nothing in the input",
        &[Put(3, 0), Call(2), Exit],
        &[],
        Faults(Fault::Helper, 1),
        NONE,
    ),
    (
        "unset is told first",
        &[
            Copied(1, 3),
            Put(3, 0),
            Call(2),
            Put(1, 0),
            Put(3, -1),
            Call(1),
            Exit,
        ],
        &[],
        Faults(Fault::Unset, 5),
        NONE,
    ),
    (
        "fill",
        &[
            Copied(1, 3),
            Raised(1, 2),
            Put(2, 0x1ff),
            Put(3, 3),
            Call(2),
            Exit,
        ],
        &[],
        Answers(0, 6),
        [0, 0, 255, 255, 255, 0, 0, 0],
    ),
    (
        "fill of nothing at the end",
        &[Copied(1, 3), Raised(1, 8), Put(3, 0), Call(2), Exit],
        &[],
        Answers(0, 5),
        NONE,
    ),
    (
        "fill of the input",
        &[Put(3, 1), Call(2), Exit],
        &[7],
        Faults(Fault::Helper, 1),
        NONE,
    ),
    (
        "fill past the end",
        &[Copied(1, 3), Raised(1, 7), Put(3, 2), Call(2), Exit],
        &[],
        Faults(Fault::Helper, 3),
        NONE,
    ),
    (
        "fill of more than a window",
        &[Copied(1, 3), Put(3, 65_537), Call(2), Exit],
        &[],
        Faults(Fault::Helper, 2),
        NONE,
    ),
    (
        "same bytes",
        &[Copied(2, 1), Raised(2, 2), Put(3, 2), Call(3), Exit],
        b"abab",
        Answers(1, 5),
        NONE,
    ),
    (
        "other bytes",
        &[Copied(2, 1), Raised(2, 1), Put(3, 2), Call(3), Exit],
        b"abab",
        Answers(0, 5),
        NONE,
    ),
    (
        "no bytes are the same",
        &[Copied(2, 1), Raised(2, 4), Put(3, 0), Call(3), Exit],
        b"abab",
        Answers(1, 5),
        NONE,
    ),
    (
        "bytes of two windows",
        &[Copied(2, 3), Put(3, 2), Call(3), Exit],
        &[0, 0],
        Answers(1, 4),
        NONE,
    ),
    (
        "same past the end",
        &[Copied(2, 3), Put(3, 3), Call(3), Exit],
        &[0, 0],
        Faults(Fault::Helper, 2),
        NONE,
    ),
    (
        "an argument after a call",
        &[Copied(1, 3), Put(3, 0), Call(2), Copied(0, 1), Exit],
        &[],
        Faults(Fault::Unset, 3),
        NONE,
    ),
    (
        "R5 after a call",
        &[
            Put(5, 1),
            Copied(1, 3),
            Put(3, 0),
            Call(2),
            Copied(0, 5),
            Exit,
        ],
        &[],
        Faults(Fault::Unset, 4),
        NONE,
    ),
    (
        "R6 after a call",
        &[
            Put(6, 9),
            Copied(1, 3),
            Put(3, 0),
            Call(2),
            Copied(0, 6),
            Exit,
        ],
        &[],
        Answers(9, 6),
        NONE,
    ),
];

#[test]
fn own_calls(rt: HostRuntime) -> Result<(), Fail> {
    let table = Table::new(rt.alloc());
    for (name, slots, input, ending, output) in OWN {
        let want = (*ending, *output);
        expect(ends_so(rt.alloc(), &table, slots, input, 100, want)?, name)?;
    }
    Ok(())
}
