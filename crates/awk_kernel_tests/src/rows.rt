// Seventy numbers, of which the one at a place is unlike all others: past the last place it is
// none.

pub(crate) fn numbers(place: usize, all: i64, one: i64) -> [i64; 70] {
    let mut xs = [all; 70];
    if place < 70 {
        xs[place] = one;
    }
    xs
}

pub(crate) fn sizes(place: usize, all: u64, one: u64) -> [u64; 70] {
    let mut xs = [all; 70];
    if place < 70 {
        xs[place] = one;
    }
    xs
}

pub(crate) fn bytes(place: usize, all: u8, one: u8) -> [u8; 70] {
    let mut xs = [all; 70];
    if place < 70 {
        xs[place] = one;
    }
    xs
}

// Numbers that rise by a step, or fall.
pub(crate) fn steps(step: i64) -> [i64; 70] {
    let mut xs = [0; 70];
    let mut x: i64 = 0;
    for i in 0..70 {
        xs[i] = x;
        x = x.wrapping_add(step);
    }
    xs
}
