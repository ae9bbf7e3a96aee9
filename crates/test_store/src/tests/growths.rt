//! Growths of an index from hashes to the places of items.

use std::test::Fail;
use vnode_index::{Fingerprint, Index};

// That of a hash that differs from others in high and in low bits.
fn fingerprint(of: u64) -> Fingerprint {
    Fingerprint::of(of.wrapping_mul(0x9e37_79b9_7f4a_7c15))
}

/// Items are found among others that have their hash, past several growths.
#[test]
fn found_past_growths(rt: HostRuntime) -> Result<(), Fail> {
    let mut index = Index::new(rt.alloc());
    for item in 0..1000u64 {
        index.reserve(8)?;
        index.push(fingerprint(item % 300));
    }
    assert_eq!(rt; index.len(), 1000);
    for item in 0..1000usize {
        assert_eq!(rt;
            index.find(fingerprint(item as u64 % 300), |i| i == item),
            Some(item)
        );
    }
    assert_eq!(rt; index.find(fingerprint(3), |i| i == 4), None);
    assert_eq!(rt; index.find(fingerprint(300), |_| true), None);
    Ok(())
}
