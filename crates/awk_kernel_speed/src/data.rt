//! What the kernels are timed on.
use std::alloc::Global;
use std::io;

/// How many numbers each lane has.
const ITEMS: u64 = 65536;

#[derive(Drop)]
pub(crate) struct Lanes {
    pub(crate) a: Vec<i64>,
    pub(crate) b: Vec<i64>,
    pub(crate) stops: Vec<i64>,
    pub(crate) nat_a: Vec<u64>,
    pub(crate) nat_b: Vec<u64>,
    pub(crate) mask: Vec<u8>,
    pub(crate) out: Vec<i64>,
    pub(crate) nat_out: Vec<u64>,
    pub(crate) sums: Vec<u64>,
    pub(crate) flags: Vec<u8>,
}

impl Lanes {
    fn empty(alloc: Global) -> Lanes {
        Lanes {
            a: Vec::new(alloc),
            b: Vec::new(alloc),
            stops: Vec::new(alloc),
            nat_a: Vec::new(alloc),
            nat_b: Vec::new(alloc),
            mask: Vec::new(alloc),
            out: Vec::new(alloc),
            nat_out: Vec::new(alloc),
            sums: Vec::new(alloc),
            flags: Vec::new(alloc),
        }
    }

    /// Numbers of 30 and of 20 bits in no order: of two at a place the first is greater by far.
    fn push(&mut self, seed: u64) -> io::Result<()> {
        let a = seed >> 34;
        let b = (seed >> 44) + 1;
        self.a.push(i64::from(a as u32))?;
        self.b.push(i64::from(b as u32))?;
        self.stops.push(i64::from(b as u32) + 1)?;
        self.nat_a.push(a + 10000000)?;
        self.nat_b.push(b)?;
        self.mask.push((seed >> 63) as u8)?;
        self.out.push(0)?;
        self.nat_out.push(0)?;
        self.sums.push(0)?;
        self.flags.push(0)?;
        Ok(())
    }

    pub(crate) fn new(alloc: Global) -> io::Result<Lanes> {
        let mut lanes = Lanes::empty(alloc);
        let mut seed: u64 = 12345;
        for _ in 0..ITEMS {
            seed = seed
                .wrapping_mul(6364136223846793005)
                .wrapping_add(1442695040888963407);
            lanes.push(seed)?;
        }
        lanes.sums.push(0)?;
        Ok(lanes)
    }
}

/// Prints a line of a method.
pub(crate) fn report(rt: &HostRuntime, name: &str, method: &str, nanos: u128) -> io::Result<()> {
    println!(rt; "{name} {method} {}", nanos.saturating_mul(1000) / 65536)?;
    Ok(())
}
