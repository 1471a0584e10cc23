//! What a table keeps.
use crate::{Cost, Failure, Key, Memo};
use std::test::Fail;

/// A failure at a place of a site, which takes so many Steps.
fn failure(site: u32, place: u64, steps: u32) -> Failure {
    Failure {
        key: Key {
            place,
            bits: 0,
            site,
        },
        cost: Cost { steps, most: 7 },
    }
}

#[test]
fn a_closed_table_keeps_nothing(rt: HostRuntime) -> Result<(), Fail> {
    let mut memo = Memo::new(rt.alloc());
    let failed = failure(3, 10, 5);
    memo.put(failed);
    assert_eq!(rt; memo.get(&failed.key), None);
    Ok(())
}

#[test]
fn a_failure_is_found_by_its_whole_key(rt: HostRuntime) -> Result<(), Fail> {
    let mut memo = Memo::new(rt.alloc());
    memo.open(100);
    let failed = failure(3, 10, 5);
    memo.put(failed);
    assert_eq!(rt; memo.get(&failed.key), Some(failed.cost));
    assert_eq!(rt; memo.get(&failure(3, 11, 5).key), None);
    assert_eq!(rt; memo.get(&failure(4, 10, 5).key), None);
    let other = Key {
        bits: 1,
        ..failed.key
    };
    assert_eq!(rt; memo.get(&other), None);
    memo.open(100);
    assert_eq!(rt; memo.get(&failed.key), None);
    Ok(())
}

/// Of failures at 20,000 places of four sites nearly all are found again.
#[test]
fn a_table_that_grows_keeps_its_failures(rt: HostRuntime) -> Result<(), Fail> {
    let mut memo = Memo::new(rt.alloc());
    memo.open(20_000);
    for place in 0..20_000u64 {
        for site in 0..4u32 {
            memo.put(failure(site, place, 9));
        }
    }
    let mut found = 0u32;
    for place in 0..20_000u64 {
        for site in 0..4u32 {
            if memo.get(&failure(site, place, 9).key).is_some() {
                found = found.saturating_add(1);
            }
        }
    }
    assert!(rt; found > 79_000);
    Ok(())
}

#[test]
fn a_full_table_keeps_the_latest(rt: HostRuntime) -> Result<(), Fail> {
    let mut memo = Memo::new(rt.alloc());
    memo.open(1_000_000);
    for place in 0..1_000_000u64 {
        memo.put(failure(1, place, 9));
    }
    let last = failure(1, 999_999, 9);
    assert_eq!(rt; memo.get(&last.key), Some(last.cost));
    Ok(())
}

#[test]
fn a_table_waits_and_closes(rt: HostRuntime) -> Result<(), Fail> {
    let mut memo = Memo::new(rt.alloc());
    memo.open(10);
    assert_eq!(rt; memo.wait(), 4_416);
    memo.leave(4_000);
    assert_eq!(rt; memo.wait(), 416);
    let failed = failure(2, 8, 40);
    memo.put(failed);
    for place in 0..16u64 {
        assert!(rt; memo.is_open());
        for site in 0..16u32 {
            let _ = memo.get(&failure(site, place + 100, 1).key);
        }
        memo.leave(1_000);
    }
    assert!(rt; !memo.is_open());
    assert_eq!(rt; memo.wait(), 0);
    assert_eq!(rt; memo.get(&failed.key), None);
    Ok(())
}
