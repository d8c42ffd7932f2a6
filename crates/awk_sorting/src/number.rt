//! Numbers of which slices are brought in order by std's sort.

/// A whole number, or the bytes that it lies in.
pub(crate) trait Number: Copy {
    ghost use Rattle.std.specs.Prelude.{◌≡◌, ℤ, map, true};
    ghost use Rattle.std.specs.List.Sorted.{IsPermutation};
    ghost use Rattle.awk_sorting.specs.Order.{sort_numbers};

    /// The number.
    ghost number: { Self → ℤ };

    /// Brings numbers in rising order.
    fn sort(numbers: &mut [Self])
        ensures same { IsPermutation numbers.old numbers.new }
        ensures order { map number numbers.new ≡ sort_numbers true (map number numbers.old) };
}

impl Number for i64 {
    ghost number = { λ z. z };

    fn sort(numbers: &mut [i64]) {
        numbers.sort_unstable();
    }
}

impl Number for u128 {
    ghost use Rattle.std.specs.Prelude.{pos};

    ghost number = { λ n. pos n };

    fn sort(numbers: &mut [u128]) {
        numbers.sort_unstable();
    }
}

impl Number for u64 {
    ghost use Rattle.std.specs.Prelude.{pos};

    ghost number = { λ n. pos n };

    fn sort(numbers: &mut [u64]) {
        numbers.sort_unstable();
    }
}

// The bytes in which a lane holds an i64.
impl Number for [u8; 8] {
    ghost use Rattle.awk_lanes.specs.Numbers as spec;
    ghost use Rattle.awk_lanes.specs.declared.kind.Kind.TheVariants.{I64};

    ghost number = { spec.number I64 };

    fn sort(numbers: &mut [[u8; 8]]) {
        numbers.sort_unstable_by_key(|bytes| i64::from_le_bytes(*bytes));
    }
}
