//! The servers of all partitions.

ghost use Rattle.std.specs.Prelude.{◌≡◌, ◌<◌, ◌^◌, IfOk, length, map};
ghost use Rattle.std.specs.List.{range_with_len};
ghost use Rattle.peer_placement.specs.Rows.{partition_of, row_of};

use crate::PARTITIONS;
use crate::ranking::{partition, row};
use std::alloc::{AllocError, Global};
use std::marker::Model;

/// The servers of each partition. It is seen as the list of all servers' numbers.
#[derive(Drop)]
pub struct PartitionTable {
    servers: Vec<u8>,
    rows: Vec<Vec<u8>>,
}

impl Model for PartitionTable {
    ghost use Rattle.std.specs.Prelude.{◌≡◌, ℕ, List, map};
    ghost use Rattle.std.specs.List.{range_with_len};
    ghost use Rattle.peer_placement.specs.Rows.{row_of};

    ghost Value = { List ℕ };

    ghost view = { λ table. table.servers.items };

    ghost invariant = { λ table. map (λ row. row.items) table.rows.items ≡ map (λ partition. row_of partition table.servers.items) (range_with_len 0 1024) };
}

impl PartitionTable {
    /// The table of these servers, by their numbers.
    pub fn new(alloc: Global, servers: &[u8]) -> Result<PartitionTable, AllocError>
        ensures { IfOk result (λ table. table ≡ servers.now) }
    {
        Ok(PartitionTable {
            servers: Vec::from_slice(alloc, servers)?,
            rows: rows(alloc, servers)?,
        })
    }

    /// The numbers of the servers that hold a key, the one that weighs most for its partition first. It takes no memory.
    pub fn row(&self, bucket: &[u8], key: &[u8]) -> &[u8]
        requires short { length bucket.now < 2 ^ 32 }
        ensures { result.now ≡ row_of (partition_of bucket.now key.now) self.now }
    {
        self.row_at(partition(bucket, key))
    }

    /// The numbers of the servers that hold a partition.
    pub fn row_at(&self, partition: u32) -> &[u8]
        requires { partition < 1024 }
        ensures { result.now ≡ row_of partition self.now }
    {
        &self.rows[partition as usize]
    }
}

/// The rows of all partitions.
fn rows(alloc: Global, servers: &[u8]) -> Result<Vec<Vec<u8>>, AllocError>
    ensures { IfOk result (λ rows. map (λ row. row.items) rows.items ≡ map (λ partition. row_of partition servers.now) (range_with_len 0 1024)) }
{
    let mut rows = Vec::with_capacity(alloc, PARTITIONS as usize)?;
    for partition in 0..PARTITIONS {
        rows.push(row(alloc, servers, partition)?)?;
    }
    Ok(rows)
}
