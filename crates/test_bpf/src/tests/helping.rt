//! A table with three helpers of a host: which it takes, with which Sigs it agrees, and what programs that call them come to, as the
//! verifier tells and step by step. The written helpers, 16 to 19, stand in rows of the examples.

ghost use Rattle.std.specs.Prelude.{◌≤◌, length};
ghost use Rattle.bpf_helpers.specs.Entries.{AgreesWith};

use crate::tests::runs::Ending::{self, Answers, Faults};
use crate::tests::runs::{NONE, ends_so};
use crate::tests::verdicts::Told::{self, Accepted, Refused};
use crate::tests::verdicts::is_told;
use bpf_helpers::{ArgRule, Body, Helper, HelperFault, Sig, Sigs, Table};
use bpf_interpreter::{Done, padded, run};
use bpf_semantics::Fault;
use bpf_verifier::{Verified, read_image, verify};
use std::alloc::Global;
use std::cell::Cell;
use std::test::Fail;
use test_support::Slot::{Added, Call, Copied, Exit, Put, Raised, StoreByte};
use test_support::helpers::{ANY, ONE_NUMBER, UNUSED, modulo_8, octal};
use test_support::{Slot, expect, image_of};

/// Adds the remainder by 8 as 64. Answers why it is handed back, if it is.
fn add_modulo(alloc: Global, table: &mut Table) -> Result<Option<HelperFault>, Fail> {
    let body: Body = Box::new(alloc, modulo_8)?;
    match table.add(octal(64, ONE_NUMBER, body).ok_or("a Sig")?) {
        Ok(()) => Ok(None),
        Err((helper, fault)) => Ok((helper.number == 64).then_some(fault)),
    }
}

/// One more than the last octal digit of twice the first number, the length of the text and the other numbers.
fn digit(numbers: [u64; 5], first: &[u8], _second: &[u8]) -> u64
    ensures least { 1 ≤ result }
    ensures most { result ≤ 8 }
{
    let [a, b, c, d, e] = numbers;
    let len = first.len() as u64;
    (a % 8 * 2 + b % 8 + c % 8 + d % 8 + e % 8 + len % 8) % 8 + 1
}

/// The arguments of that helper: a number from 2 to 4, a text of up to 4 bytes, nothing, and a number.
const DIGIT: [ArgRule; 5] = [
    ArgRule::Num { lo: 2, hi: 4 },
    ArgRule::Read { max: 4 },
    ArgRule::Len,
    UNUSED,
    ANY,
];

/// Adds that helper as 65; tells whether it was taken up.
fn add_digit(alloc: Global, table: &mut Table) -> Result<bool, Fail> {
    let sig = Sig::new(DIGIT, (1, 8)).ok_or("a Sig")?;
    let body: Body = Box::new(alloc, digit)?;
    Ok(table.add(Helper::new(65, sig, body)).is_ok())
}

/// Adds as 67 a helper that answers the how manyth of its calls it is, modulo 8; tells whether it was taken up.
fn add_counting(alloc: Global, table: &mut Table) -> Result<bool, Fail> {
    let calls = Cell::new(0u64);
    let body: Body = Box::new(
        alloc,
        move |_numbers: [u64; 5], _first: &[u8], _second: &[u8]| -> u64
            ensures { result ≤ 7 }
        {
            calls.set(calls.get() % 8 + 1);
            calls.get() % 8
        },
    )?;
    let helper = octal(67, [UNUSED; 5], body).ok_or("a Sig")?;
    Ok(table.add(helper).is_ok())
}

/// The text of the second helper is the input's.
const TEXT: Slot = Copied(2, 1);

/// Its last number is 1.
const LAST: Slot = Put(5, 1);

/// Keeps the output's address in R6.
const KEEP: Slot = Copied(6, 3);

/// Adds an answer to the address that R6 keeps.
const ADD: Slot = Added(6, 0);

/// Calls the helper twice that counts its calls.
const COUNTED: &[Slot] = &[Call(67), Call(67), Exit];

/// Programs that call helpers, with windows of the input's length and of 8 bytes: the slots, the input, how a drive ends, and what the
/// verifier tells.
const CALLS: &[(&str, &[Slot], &[u8], Ending, Told)] = &[
    (
        "a number",
        &[Copied(1, 2), Call(64), Exit],
        &[0; 11],
        Answers(3, 3),
        Accepted(3),
    ),
    (
        "a pointer for a number",
        &[Call(64), Exit],
        b"",
        Answers(0, 2),
        Refused(28, 0),
    ),
    (
        "arguments after a call",
        &[Copied(1, 2), Call(64), Call(64), Exit],
        b"",
        Faults(Fault::Unset, 2),
        Refused(20, 2),
    ),
    (
        "a number that no helper has",
        &[Call(66), Exit],
        b"",
        Faults(Fault::Helper, 0),
        Refused(27, 0),
    ),
    (
        "no helper's number",
        &[Call(0), Exit],
        b"",
        Faults(Fault::Helper, 0),
        Refused(27, 0),
    ),
    (
        "a negative number",
        &[Call(-1), Exit],
        b"",
        Faults(Fault::Helper, 0),
        Refused(27, 0),
    ),
    (
        "a closure is called once a call",
        COUNTED,
        b"",
        Answers(2, 3),
        Accepted(3),
    ),
    (
        "number, read and last",
        &[TEXT, Put(1, 2), Put(3, 3), LAST, Call(65), Exit],
        b"abc",
        Answers(1, 6),
        Accepted(6),
    ),
    (
        "a number above its range",
        &[TEXT, Put(1, 5), Put(3, 3), LAST, Call(65), Exit],
        b"abc",
        Faults(Fault::Helper, 4),
        Refused(28, 4),
    ),
    (
        "a number below its range",
        &[TEXT, Put(1, 1), Put(3, 3), LAST, Call(65), Exit],
        b"abc",
        Faults(Fault::Helper, 4),
        Refused(28, 4),
    ),
    (
        "a read of all that may be",
        &[TEXT, Put(1, 4), Put(3, 4), LAST, Call(65), Exit],
        b"abcdef",
        Answers(6, 6),
        Accepted(6),
    ),
    (
        "a read of too much",
        &[TEXT, Put(1, 2), Put(3, 5), LAST, Call(65), Exit],
        b"abcdef",
        Faults(Fault::Helper, 4),
        Refused(28, 4),
    ),
    (
        "a read past the end",
        &[
            TEXT,
            Raised(2, 1),
            Put(1, 2),
            Put(3, 3),
            LAST,
            Call(65),
            Exit,
        ],
        b"abc",
        Faults(Fault::Helper, 5),
        Refused(28, 5),
    ),
    (
        "a read of nothing at the end",
        &[
            TEXT,
            Raised(2, 3),
            Put(1, 2),
            Put(3, 0),
            Put(5, 0),
            Call(65),
            Exit,
        ],
        b"abc",
        Answers(5, 7),
        Accepted(7),
    ),
    (
        "a read of nothing past the end",
        &[
            TEXT,
            Raised(2, 4),
            Put(1, 2),
            Put(3, 0),
            LAST,
            Call(65),
            Exit,
        ],
        b"abc",
        Faults(Fault::Helper, 5),
        Refused(28, 5),
    ),
    (
        "a read of nothing at the end of the stack",
        &[
            Copied(2, 10),
            Put(1, 3),
            Put(3, 0),
            Put(5, 0),
            Call(65),
            Exit,
        ],
        b"",
        Answers(7, 6),
        Accepted(6),
    ),
    (
        "a read of no window",
        &[Put(2, 0), Put(1, 2), Put(3, 0), LAST, Call(65), Exit],
        b"",
        Faults(Fault::Helper, 4),
        Refused(28, 4),
    ),
    (
        "a read of a pointer's length",
        &[TEXT, Put(1, 2), Copied(3, 2), LAST, Call(65), Exit],
        b"abc",
        Faults(Fault::Helper, 4),
        Refused(28, 4),
    ),
    (
        "the last argument is unset",
        &[TEXT, Put(1, 2), Put(3, 3), Call(65), Exit],
        b"abc",
        Faults(Fault::Unset, 3),
        Refused(20, 3),
    ),
    (
        "unset is told first",
        &[TEXT, Put(1, 9), Put(3, 9), Call(65), Exit],
        b"abc",
        Faults(Fault::Unset, 3),
        Refused(20, 3),
    ),
    (
        "the least answer",
        &[
            KEEP,
            TEXT,
            Put(1, 2),
            Put(3, 3),
            LAST,
            Call(65),
            ADD,
            StoreByte(6, -1, 0),
            Exit,
        ],
        b"abc",
        Answers(1, 9),
        Accepted(9),
    ),
    (
        "below the least answer",
        &[
            KEEP,
            TEXT,
            Put(1, 2),
            Put(3, 3),
            LAST,
            Call(65),
            ADD,
            StoreByte(6, -2, 0),
            Exit,
        ],
        b"abc",
        Faults(Fault::Address, 7),
        Refused(24, 7),
    ),
    (
        "above the greatest answer",
        &[
            KEEP,
            TEXT,
            Put(1, 2),
            Put(3, 3),
            LAST,
            Call(65),
            ADD,
            StoreByte(6, 0, 0),
            Exit,
        ],
        b"abc",
        Answers(1, 9),
        Refused(24, 7),
    ),
];

/// Tells what the programs come to.
fn tell_calls(alloc: Global, table: &Table, sigs: &Sigs) -> Result<(), Fail> {
    for (name, slots, input, ending, told) in CALLS {
        let in_len = u32::try_from(input.len())?;
        let ends = ends_so(alloc, table, slots, input, 100, (*ending, NONE))?;
        expect(ends && is_told(alloc, sigs, in_len, 8, slots, *told)?, name)?;
    }
    Ok(())
}

/// What a run of a verified program gives on an input that has room in its window.
fn run_verified(
    alloc: Global,
    table: &Table,
    verified: &Verified,
    input: &[u8],
) -> Result<Done, Fail>
    requires agrees { AgreesWith table.now.listed verified.now.sigs }
    requires fits { length input.now ≤ verified.now.in_len }
{
    let image = verified.image();
    let window = padded(alloc, input, image.in_len as usize)?;
    let mut output = vec![in alloc; 0u8; image.out_len as usize]?;
    let used = input.len() as u32;
    Ok(run(verified, table, &window, used, &mut output))
}

/// What a run over lowered slots gives of a program that the verifier accepts.
fn run_of(alloc: Global, table: &Table, slots: &[Slot], input: &[u8]) -> Result<Done, Fail> {
    let Ok(image) = read_image(alloc, &image_of(alloc, 8, 8, slots)?) else {
        return Err(Fail::new("no image"));
    };
    match verify(alloc, image, &table.listed) {
        Ok(verified)
            if table.agrees(verified.sigs()) && input.len() <= verified.image().in_len as usize => {
            run_verified(alloc, table, &verified, input)
        }
        _ => Err(Fail::new("refused")),
    }
}

/// What a run gives of the program that calls a counting closure twice, over a table whose closure nothing called before. Its answer
/// is how often the closure was called.
fn counted_run(alloc: Global) -> Result<Done, Fail> {
    let mut table = Table::new(alloc);
    if !add_counting(alloc, &mut table)? {
        return Err(Fail::new("not taken up"));
    }
    run_of(alloc, &table, COUNTED, b"")
}

/// Whether a table takes up the three helpers, and no number twice, and agrees with its own Sigs and with the earlier ones.
fn is_filled(alloc: Global, table: &mut Table) -> Result<bool, Fail> {
    let first = add_modulo(alloc, table)?;
    let earlier = table.sigs(alloc)?;
    let more = add_digit(alloc, table)? && add_counting(alloc, table)?;
    let again = add_modulo(alloc, table)?;
    let agrees = table.agrees(&earlier) && !Table::new(alloc).agrees(&earlier);
    Ok(first.is_none() && more && again == Some(HelperFault::Taken) && agrees)
}

#[test]
fn host_helpers(rt: HostRuntime) -> Result<(), Fail> {
    let mut table = Table::new(rt.alloc());
    assert!(rt; is_filled(rt.alloc(), &mut table)?);
    let sigs = table.sigs(rt.alloc())?;
    assert!(rt; table.agrees(&sigs));
    tell_calls(rt.alloc(), &table, &sigs)?;
    let once = Done {
        answer: 2,
        steps: 3,
    };
    assert!(rt; counted_run(rt.alloc())? == once);
    Ok(())
}
