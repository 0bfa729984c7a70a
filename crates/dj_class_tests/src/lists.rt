use dj_pool::Indexes;
use std::alloc::Global;

const EACH: [&[u16]; 3] = [&[], &[0], &[1, 65_535, 1]];

// Whether the indexes are there, after each was appended.
fn are_pushed(alloc: Global, items: &[u16]) -> bool {
    let mut indexes = Indexes::new(alloc);
    for item in items {
        if indexes.push(*item).is_err() {
            return false;
        }
    }
    indexes.as_slice() == items
}

#[test]
fn indexes_pushed(rt: HostRuntime) {
    for items in &EACH {
        assert!(rt; are_pushed(rt.alloc(), items));
    }
}
