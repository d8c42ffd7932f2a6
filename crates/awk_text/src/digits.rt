//! The texts of numbers, set from the end of a room of bytes.
ghost use Rattle.std.specs.Prelude.{◌≡◌, ◌≤◌, ◌+◌, ◌++◌, drop, length, decimal};
ghost use Rattle.std.specs.Fmt.{signed_decimal};
ghost use Rattle.awk_layout.specs.Shown.{value_of_num};
ghost use Rattle.awk_text.specs.ValueText.{leaf_text};

use awk_lanes::Num;
use itoa::write_digits;

/// No text of a number or of a truth value is longer.
pub(crate) const LONGEST: usize = 20;

/// Sets a number in decimal, or a truth value, before an end, and tells where it starts.
pub(crate) fn set_leaf(number: Num, room: &mut [u8], end: usize) -> usize
    requires fits { LONGEST ≤ end }
    requires within { end ≤ length room.old }
    ensures text { drop result room.new ≡ leaf_text (value_of_num number) ++ drop end room.old }
    ensures start { end ≤ result + LONGEST }
    ensures within { result ≤ end }
{
    match number {
        Num::Int(z) => set_signed(z, room, end),
        Num::Nat(n) => set_digits(n, room, end),
        Num::Truth(true) => set_word(b"true", room, end),
        Num::Truth(false) => set_word(b"false", room, end),
    }
}

fn set_digits(n: u64, room: &mut [u8], end: usize) -> usize
    requires fits { LONGEST ≤ end }
    requires within { end ≤ length room.old }
    ensures text { drop result room.new ≡ decimal n ++ drop end room.old }
    ensures start { end ≤ result + LONGEST }
    ensures within { result ≤ end }
{
    write_digits(n, room, end)
}

fn set_signed(z: i64, room: &mut [u8], end: usize) -> usize
    requires fits { LONGEST ≤ end }
    requires within { end ≤ length room.old }
    ensures text { drop result room.new ≡ signed_decimal z ++ drop end room.old }
    ensures start { end ≤ result + LONGEST }
    ensures within { result ≤ end }
{
    let start = write_digits(z.unsigned_abs(), room, end);
    if z >= 0 {
        return start;
    }
    room[start - 1] = b'-';
    start - 1
}

fn set_word(word: &[u8], room: &mut [u8], end: usize) -> usize
    requires fits { length word.now ≤ end }
    requires within { end ≤ length room.old }
    ensures text { drop result room.new ≡ word.now ++ drop end room.old }
    ensures start { result + length word.now ≡ end }
{
    let start = end - word.len();
    room[start..end].copy_from_slice(word);
    start
}
