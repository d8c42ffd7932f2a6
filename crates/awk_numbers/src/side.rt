//! The least and the greatest as types: a loop over numbers asks no more which is looked for.
ghost use Rattle.std.specs.Prelude.{◌≡◌, pos};

/// Which of two numbers is looked for.
pub trait Side {
    ghost use Rattle.awk_numbers.specs.Folds.{beats as is_before};
    ghost use Rattle.awk_numbers.specs.declared.extremes.Extreme.{Extreme};

    ghost how: { Extreme };

    /// Whether a number comes before another.
    fn beats(x: i64, y: i64) -> bool
        ensures { result ≡ is_before how x y };

    /// The same of numbers that are not negative.
    fn beats_natural(x: u64, y: u64) -> bool
        ensures { result ≡ is_before how (pos x) (pos y) };
}

/// The least.
pub struct Lesser;

impl Side for Lesser {
    ghost use Rattle.awk_numbers.specs.declared.extremes.Extreme.TheVariants.{Least};

    ghost how = { Least };

    #[inline(always)]
    fn beats(x: i64, y: i64) -> bool {
        x < y
    }

    #[inline(always)]
    fn beats_natural(x: u64, y: u64) -> bool {
        x < y
    }
}

/// The greatest.
pub struct Greater;

impl Side for Greater {
    ghost use Rattle.awk_numbers.specs.declared.extremes.Extreme.TheVariants.{Greatest};

    ghost how = { Greatest };

    #[inline(always)]
    fn beats(x: i64, y: i64) -> bool {
        y < x
    }

    #[inline(always)]
    fn beats_natural(x: u64, y: u64) -> bool {
        x > y
    }
}
