//! Where keys stand. The expected rows are those of the format, by another implementation of SHA-1.

use peer_placement::{PartitionTable, partition};
use std::test::Fail;

/// Five servers.
const SERVERS: [u8; 5] = [0, 1, 2, 3, 59];

/// A partition, and its row among the five.
const ROWS: [(u32, [u8; 3]); 4] = [
    (0, [1, 0, 2]),
    (1, [59, 3, 1]),
    (512, [1, 3, 0]),
    (1023, [2, 1, 59]),
];

#[test]
fn rows_are_those_that_weigh_most(rt: HostRuntime) -> Result<(), Fail> {
    let table = PartitionTable::new(rt.alloc(), &SERVERS)?;
    for (number, row) in ROWS.iter() {
        if table.row_at(*number) != row.as_slice() {
            return Err(Fail::new(format_args!("another row of {number}")));
        }
    }
    if partition(b"carts", b"ann") != 728 || table.row(b"carts", b"ann") != [1, 0, 3].as_slice() {
        return Err(Fail::new(format_args!("a key stands elsewhere")));
    }
    Ok(())
}

#[test]
fn fewer_than_three_hold_all(rt: HostRuntime) -> Result<(), Fail> {
    let two = PartitionTable::new(rt.alloc(), &[0, 59])?;
    if two.row_at(1) != [59, 0].as_slice() || two.row_at(512) != [0, 59].as_slice() {
        return Err(Fail::new(format_args!("another row of two")));
    }
    Ok(())
}
