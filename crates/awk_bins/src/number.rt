//! Numbers of 64 bits, and edges among them.
ghost use Rattle.std.specs.Prelude.{◌≡◌, ◌≤ℤ◌, int_le, option_map};
ghost use Rattle.awk_lanes.specs.Numbers.{number};
ghost use Rattle.awk_lanes.specs.declared.kind.Kind.TheVariants as Kind;

/// A number of 64 bits.
pub(crate) trait Number: Copy + Drop {
    ghost use Rattle.std.specs.Prelude.{◌≡◌, ◌≤ℤ◌, ◌-ℤ◌, ℤ, pos, negsuc, int_le, option_map};
    ghost use Rattle.std.specs.Prelude.{IfSome};
    ghost use Rattle.awk_lanes.specs.Numbers.{nat_of};
    ghost use Rattle.awk_bins.specs.Near.{IsNear};

    /// The number.
    ghost number: { Self → ℤ };

    /// The least that there is.
    ghost least: { ℤ };

    /// The greatest that there is.
    ghost greatest: { ℤ };

    /// Shows that the number is one of these.
    fn show_range(&self)
        ensures least { least ≤ℤ number self.now }
        ensures greatest { number self.now ≤ℤ greatest };

    /// Whether an edge is no greater than the number.
    fn reaches(&self, edge: &Self) -> bool
        ensures { result ≡ int_le (number edge.now) (number self.now) };

    /// How far the number is above another, 0 where it is not.
    fn above(&self, other: &Self) -> u64
        ensures { result ≡ nat_of (number self.now -ℤ number other.now) };

    /// The number as one of 128 bits.
    fn wide(&self) -> i128
        ensures number { result ≡ number self.now }
        ensures least { negsuc 9223372036854775807 ≤ℤ result }
        ensures greatest { result ≤ℤ pos 18446744073709551615 };

    /// A number of 128 bits, if it is one of these.
    fn exact(z: i128) -> Option<Self>
        ensures { IfSome result (λ n. number n ≡ z) };

    /// An edge moved into the range of these numbers, or none where it is above all of them.
    fn near(edge: &i128) -> Option<Self>
        ensures { IsNear least greatest edge.now (option_map number result) };
}

impl Number for i64 {
    ghost use Rattle.std.specs.Prelude.{pos, negsuc};

    ghost number = { λ z. z };

    ghost least = { negsuc 9223372036854775807 };

    ghost greatest = { pos 9223372036854775807 };

    #[inline(always)]
    fn show_range(&self) {
        let _number = *self;
    }

    #[inline(always)]
    fn reaches(&self, edge: &i64) -> bool {
        *edge <= *self
    }

    #[inline(always)]
    fn above(&self, other: &i64) -> u64 {
        if *self <= *other {
            0
        } else {
            (i128::from(*self) - i128::from(*other)) as u64
        }
    }

    fn wide(&self) -> i128 {
        i128::from(*self)
    }

    fn exact(z: i128) -> Option<i64> {
        if z > i128::from(i64::MAX) {
            None
        } else if z < i128::from(i64::MIN) {
            None
        } else {
            Some(z as i64)
        }
    }

    fn near(edge: &i128) -> Option<i64> {
        if *edge > i128::from(i64::MAX) {
            None
        } else if *edge < i128::from(i64::MIN) {
            Some(i64::MIN)
        } else {
            Some(*edge as i64)
        }
    }
}

impl Number for u64 {
    ghost use Rattle.std.specs.Prelude.{pos};

    ghost number = { λ n. pos n };

    ghost least = { pos 0 };

    ghost greatest = { pos 18446744073709551615 };

    #[inline(always)]
    fn show_range(&self) {
        let _number = *self;
    }

    #[inline(always)]
    fn reaches(&self, edge: &u64) -> bool {
        *self >= *edge
    }

    #[inline(always)]
    fn above(&self, other: &u64) -> u64 {
        self.saturating_sub(*other)
    }

    fn wide(&self) -> i128 {
        i128::from(*self)
    }

    fn exact(z: i128) -> Option<u64> {
        if z > i128::from(u64::MAX) {
            None
        } else if z < 0 {
            None
        } else {
            Some(z as u64)
        }
    }

    fn near(edge: &i128) -> Option<u64> {
        if *edge > i128::from(u64::MAX) {
            None
        } else if *edge < 0 {
            Some(0)
        } else {
            Some(*edge as u64)
        }
    }
}

/// A number as its bytes.
fn bytes_of(z: i64) -> [u8; 8]
    ensures { number Kind.I64 result ≡ z }
{
    z.to_le_bytes()
}

/// The number that bytes are.
#[inline(always)]
fn number_of(bytes: &[u8; 8]) -> i64
    ensures { result ≡ number Kind.I64 bytes.now }
{
    i64::from_le_bytes(*bytes)
}

/// A number of 64 bits as it lies in a lane.
impl Number for [u8; 8] {
    ghost use Rattle.std.specs.Prelude.{pos, negsuc};
    ghost use Rattle.awk_lanes.specs.Numbers.{number as number_in};
    ghost use Rattle.awk_lanes.specs.declared.kind.Kind.TheVariants as Kind;

    ghost number = { number_in Kind.I64 };

    ghost least = { negsuc 9223372036854775807 };

    ghost greatest = { pos 9223372036854775807 };

    #[inline(always)]
    fn show_range(&self) {
        let _number = number_of(self);
    }

    #[inline(always)]
    fn reaches(&self, edge: &[u8; 8]) -> bool {
        number_of(edge) <= number_of(self)
    }

    #[inline(always)]
    fn above(&self, other: &[u8; 8]) -> u64 {
        number_of(self).above(&number_of(other))
    }

    fn wide(&self) -> i128 {
        i128::from(number_of(self))
    }

    fn exact(z: i128) -> Option<[u8; 8]> {
        match i64::exact(z) {
            Some(number) => Some(bytes_of(number)),
            None => None,
        }
    }

    fn near(edge: &i128) -> Option<[u8; 8]> {
        match i64::near(edge) {
            Some(number) => Some(bytes_of(number)),
            None => None,
        }
    }
}
