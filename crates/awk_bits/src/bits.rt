//! Bits of borrowed bytes.
ghost use Rattle.std.specs.Prelude.{◌≡◌, ◌+◌, ◌*◌, ◌/◌, ◌%◌, ◌<◌, ◌≤◌, length, slice_range, get_or};
ghost use Rattle.std.specs.Prelude.{false, drop};
ghost use Rattle.awk_bits.specs.Bits.{bit, bits};

use awk_lanes::Steps;
use std::marker::Model;
use std::sync::ledger::Ledger;

/// Bit `first + i`. That sum may pass the greatest u64, so it is not formed.
fn bit_at(bytes: &[u8], lsb_order: bool, first: u64, i: u64) -> bool
    requires { first + i < 8 * length bytes.now }
    ensures { result ≡ bit lsb_order bytes.now (first + i) }
{
    let within = first % 8 + i % 8;
    let byte = bytes[(first / 8 + i / 8 + within / 8) as usize];
    let place = if lsb_order {
        within % 8
    } else {
        7 - within % 8
    };
    (byte >> place as u8) % 2 == 1
}

/// The bytes from that of bit `first + i` on, and the place of that bit in them.
fn bytes_from<'b>(bytes: &'b [u8], first: u64, i: u64) -> (&'b [u8], u64)
    requires { first + i ≤ 8 * length bytes.now }
    ensures bytes { result.0.now ≡ drop ((first + i) / 8) bytes.now }
    ensures place { result.1 ≡ (first + i) % 8 }
{
    let within = first % 8 + i % 8;
    let start = (first / 8 + i / 8 + within / 8) as usize;
    (&bytes[start..], within % 8)
}

/// Bits of borrowed bytes, from any bit on.
#[derive(Drop)]
pub struct Bits<'a> {
    bytes: &'a [u8],
    first: u64,
    n: u64,
    lsb_order: bool,
}

impl<'a> Model for Bits<'a> {
    ghost use Rattle.std.specs.Prelude.{List, Bool, ◌+◌, ◌*◌, ◌≤◌, length};

    ghost Value = { List Bool };

    ghost use Rattle.awk_bits.specs.Bits.{bits};

    ghost view = { λ a. bits a.lsb_order a.bytes.now a.first a.n };

    ghost invariant = { λ a. a.first + a.n ≤ 8 * length a.bytes.now };
}

impl<'a> Bits<'a> {
    /// The n bits of the bytes from bit `first` on: of each byte the least significant bit first,
    /// or the most significant.
    pub fn new(bytes: &'a [u8], first: u64, n: u64, lsb_order: bool) -> Bits<'a>
        requires { first + n ≤ 8 * length bytes.now }
        ensures { result ≡ bits lsb_order bytes.now first n }
    {
        Bits {
            bytes,
            first,
            n,
            lsb_order,
        }
    }

    /// How many bits.
    pub fn len(&self) -> u64
        ensures { result ≡ length self.now }
    {
        self.n
    }

    /// The bit at place i.
    pub fn at<L: Ledger>(&self, i: u64, steps: &mut Steps<L>) -> bool
        requires { i < length self.now }
        ensures value { result ≡ get_or self.now i false }
        ensures cost { steps.new ≡ steps.old + 1 }
    {
        steps.tick(); // one bit read
        bit_at(self.bytes, self.lsb_order, self.first, i)
    }

    /// The bits from place lo below place hi, over the same bytes.
    pub fn cut<L: Ledger>(&self, lo: u64, hi: u64, steps: &mut Steps<L>) -> Bits<'a>
        requires order { lo ≤ hi }
        requires within { hi ≤ length self.now }
        ensures value { result ≡ slice_range self.now lo hi }
        ensures cost { steps.new ≡ steps.old + 1 }
    {
        steps.tick(); // one cut
        let (bytes, first) = bytes_from(self.bytes, self.first, lo);
        Bits {
            bytes,
            first,
            n: hi - lo,
            lsb_order: self.lsb_order,
        }
    }

    /// The same bits, over the same bytes.
    pub fn copy(&self) -> Bits<'a>
        ensures { result ≡ self.now }
    {
        Bits {
            bytes: self.bytes,
            first: self.first,
            n: self.n,
            lsb_order: self.lsb_order,
        }
    }
}
