// Numbers as text.
ghost use Rattle.std.specs.Prelude.{◌≡◌, ◌<◌, ◌≤◌, ◌^◌, ◌++◌, ◌/◌, ◌%◌, take, drop, false, codes, OnOk};
ghost use Rattle.std.specs.Fmt.{decimal, digits, digit_glyph};
ghost use Rattle.stack_report.specs.Digits.{digits_of, hexadecimal, word};

use std::alloc::AllocError;

/// The two hexadecimal digits of each byte.
const PAIRS: [u8; 512] = *b"\
    000102030405060708090a0b0c0d0e0f101112131415161718191a1b1c1d1e1f\
    202122232425262728292a2b2c2d2e2f303132333435363738393a3b3c3d3e3f\
    404142434445464748494a4b4c4d4e4f505152535455565758595a5b5c5d5e5f\
    606162636465666768696a6b6c6d6e6f707172737475767778797a7b7c7d7e7f\
    808182838485868788898a8b8c8d8e8f909192939495969798999a9b9c9d9e9f\
    a0a1a2a3a4a5a6a7a8a9aaabacadaeafb0b1b2b3b4b5b6b7b8b9babbbcbdbebf\
    c0c1c2c3c4c5c6c7c8c9cacbcccdcecfd0d1d2d3d4d5d6d7d8d9dadbdcdddedf\
    e0e1e2e3e4e5e6e7e8e9eaebecedeeeff0f1f2f3f4f5f6f7f8f9fafbfcfdfeff\
";

/// The text of one digit.
fn glyph(digit: u64) -> u8
    requires { digit < 10 }
    ensures { result ≡ digit_glyph false digit }
{
    b'0' + digit as u8
}

/// The two hexadecimal digits of a byte.
fn pair(byte: u8) -> (u8, u8)
    ensures high { result.0 ≡ digit_glyph false (byte / 16) }
    ensures low { result.1 ≡ digit_glyph false (byte % 16) }
{
    let place = 2 * usize::from(byte);
    (PAIRS[place], PAIRS[place + 1])
}

/// Sixteen hexadecimal digits of a number, from the highest down.
fn sixteen_digits(number: u64) -> [u8; 16]
    ensures { result ≡ digits_of 16 number }
{
    let mut digits = [0u8; 16];
    let mut rest = number;
    for place in 0..8usize {
        let (high, low) = pair((rest % 256) as u8);
        digits[15 - 2 * place] = low;
        digits[14 - 2 * place] = high;
        rest /= 256;
    }
    digits
}

/// How many hexadecimal digits a number has without leading zeros.
fn digit_count(number: u64) -> usize
    ensures some { 1 ≤ result }
    ensures most { result ≤ 16 }
    ensures fits { number < 16 ^ result }
    ensures digits { digits 16 false number ≡ digits_of result number }
{
    let binary = 64 - number.leading_zeros() as usize;
    if number == 0 { 1 } else { (binary + 3) / 4 }
}

/// The hexadecimal digits of a number without leading zeros, at the head of sixteen bytes, and how many
/// they are.
pub(crate) fn head_digits(number: u64) -> ([u8; 16], usize)
    ensures most { result.1 ≤ 16 }
    ensures digits { take result.1 result.0 ≡ digits 16 false number }
{
    let count = digit_count(number);
    (sixteen_digits(number << (64 - 4 * count)), count)
}

/// The decimal digits of a number without leading zeros, at the end of twenty bytes, and how many bytes
/// stand before them.
pub(crate) fn decimal_digits(number: u64) -> ([u8; 20], usize)
    ensures start { result.1 ≤ 19 }
    ensures digits { drop result.1 result.0 ≡ decimal number }
{
    let mut buffer = [0u8; 20];
    let mut start = 19usize;
    buffer[start] = glyph(number % 10);
    let mut rest = number / 10;
    'digits: while rest > 0 {
        start -= 1;
        buffer[start] = glyph(rest % 10);
        rest /= 10;
    }
    (buffer, start)
}

/// Puts bytes after the text.
fn put_after(text: &mut Vec<u8>, bytes: &[u8]) -> Result<(), AllocError>
    ensures { OnOk result (text.new.items ≡ text.old.items ++ bytes.now) }
{
    text.extend_from_slice(bytes)
}

/// Puts `0x` and digits after the text.
fn put_marked(text: &mut Vec<u8>, digits: &[u8]) -> Result<(), AllocError>
    ensures { OnOk result (text.new.items ≡ text.old.items ++ (codes "0x" ++ digits.now)) }
{
    put_after(text, b"0x")?;
    put_after(text, digits)
}

/// Puts `0x` and the hexadecimal digits of the number after the text, without leading zeros.
#[tactic(auto, unfolding(crate::specs::Digits::hexadecimal))]
pub(crate) fn put_hexadecimal(text: &mut Vec<u8>, number: u64) -> Result<(), AllocError>
    ensures { OnOk result (text.new.items ≡ text.old.items ++ hexadecimal number) }
{
    let (digits, count) = head_digits(number);
    put_marked(text, &digits[..count])
}

/// Puts the decimal digits of the number after the text, without leading zeros.
pub(crate) fn put_decimal(text: &mut Vec<u8>, number: u64) -> Result<(), AllocError>
    ensures { OnOk result (text.new.items ≡ text.old.items ++ decimal number) }
{
    let (digits, start) = decimal_digits(number);
    put_after(text, &digits[start..])
}

/// Puts `0x` and the sixteen hexadecimal digits of the number after the text.
#[tactic(auto, unfolding(crate::specs::Digits::word))]
pub(crate) fn put_word(text: &mut Vec<u8>, number: u64) -> Result<(), AllocError>
    ensures { OnOk result (text.new.items ≡ text.old.items ++ word number) }
{
    let digits = sixteen_digits(number);
    put_marked(text, &digits)
}
