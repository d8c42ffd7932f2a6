// The kernels at each length around the width of a vector, through the bound as other crates call
// them.
use awk_kernels::{Kernels, Plain};
use std::process::Abort;

const PLACES: [i64; 19] = [
    0, 1, 2, 3, 4, 5, 6, 7, 8, 9, 10, 11, 12, 13, 14, 15, 16, 17, 18,
];

/// Of the places up to n, n alone is not below n, and it is the greatest.
fn try_lengths<K: Kernels>(rt: &impl Abort, kernels: &K) {
    for n in 0..19 {
        let places = &PLACES[..n + 1];
        let last = n as i64;
        assert!(rt; kernels.first_outside(places, 0, last + 1) == None);
        assert!(rt; kernels.first_outside(places, 0, last) == Some(n));
        assert!(rt; kernels.first_out_of_order(places, places) == None);
        assert!(rt; kernels.greatest(places) == Some(last));
    }
    assert!(rt; kernels.greatest(&[]) == None);
    assert!(rt; kernels.first_outside(&[], 0, 0) == None);
    assert!(rt; kernels.first_out_of_order(&[0, 5, 2], &[3, 4, 1]) == Some(1));
    assert!(rt; kernels.first_out_of_order(&[-1, -2], &[-1, 3]) == Some(1));
    assert!(rt; kernels.first_outside(&[i64::MIN, i64::MAX], i64::MIN, i64::MAX) == Some(1));
}

#[test]
fn kernels_find_the_last_item(rt: HostRuntime) {
    try_lengths(&rt, &Plain);
}
