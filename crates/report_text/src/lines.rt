//! The parts of a line, written from its end on.

ghost use Rattle.std.specs.Prelude.{◌≡◌, ◌+◌, ◌≤◌, ◌++◌, false, codes, drop};
ghost use Rattle.std.specs.Fmt.{decimal, digits};

use itoa::write_digits;

/// The room of a line. The longest that is written into it is a guest's load, of 70 bytes where its
/// line's number is any word: a processor of 3 digits, a dot, 20 digits, ` load 0x`, 16 hexadecimal
/// digits, a space, 20 digits and a newline.
pub const ROOM: usize = 72;

static DIGITS: [u8; 16] = *b"0123456789abcdef";

/// Writes a processor, a dot, the number of a line and a word in front of the byte `end`, and gives
/// where they begin.
pub fn write_head(line: &mut [u8; ROOM], end: usize, word: &[u8; 8], lp: u8, number: u64) -> usize
    requires { (32 ≤ end) × (end ≤ 72) }
    ensures start { result ≤ 72 }
    ensures written { drop result line.new ≡ decimal lp ++ (codes "." ++ (decimal number ++ (word.now ++ drop end line.old))) }
{
    let space = end - 8;
    line[space..end].copy_from_slice(word);
    let dot = write_digits(number, line, space) - 1;
    line[dot] = b'.';
    write_digits(lp as u64, line, dot)
}

/// Writes a number and the newline behind it at the line's end, and a space in front of it, which it
/// gives.
pub fn write_last(line: &mut [u8; ROOM], number: u64) -> usize
    ensures start { (50 ≤ result) × (result ≤ 70) }
    ensures written { drop result line.new ≡ codes " " ++ (decimal number ++ codes "\n") }
{
    line[ROOM - 1] = b'\n';
    let space = write_digits(number, line, ROOM - 1) - 1;
    line[space] = b' ';
    space
}

/// Writes a number's hexadecimal digits in front of the byte `end`, and gives where they begin.
pub fn write_hexadecimal(n: u64, line: &mut [u8; ROOM], end: usize) -> usize
    requires { (16 ≤ end) × (end ≤ 72) }
    ensures start { (result ≤ end) × (end ≤ result + 16) }
    ensures written { drop result line.new ≡ digits 16 false n ++ drop end line.old }
{
    let mut at = end;
    let mut rest = n;
    while at > end - 16 {
        at -= 1;
        line[at] = DIGITS[(rest % 16) as usize];
        rest /= 16;
        if rest == 0 {
            break;
        }
    }
    at
}
