//! Numbers as words of a file.

ghost use Rattle.std.specs.Prelude.{◌≡◌, ◌^◌, ◌<◌, ◌==◌, ◌&&◌, pos, neg_ℤ, slice_index, nat_lt, nat_le, IfSome, Some, None, if◌then◌else◌};
ghost use Rattle.memchr.specs.Find.{IsFirstByte, is_byte};
ghost use Rattle.file_words.specs.WordReading.{ReadsNumber, number_of};

use core::dec2flt::read_digits;
use std::simd::prelude::*;

/// No number of 64 bits has more digits, and each value of so many fits 64 bits.
const MOST_DIGITS: usize = 19;

/// How many bytes are read at once. Fewer digits, and what ends them, are read without a loop.
const WORD: usize = 8;

/// How many bytes are looked at at once for the space behind a number.
const NEAR: usize = 16;

/// The number that a word writes. Each number has one text: no sign but a `-`, no leading 0.
pub(crate) fn parse_number(word: &[u8]) -> Option<i64>
    ensures { result ≡ number_of word.now }
{
    let sign = sign_len(word);
    let digits = &word[sign..];
    if !has_leading_digit(digits) {
        return if word == b"0".as_slice() {
            Some(0)
        } else {
            None
        };
    }
    if digits.len() > MOST_DIGITS {
        return None;
    }
    let (count, value) = read_digits(digits, 0, 0);
    if count == digits.len() {
        signed(sign, value)
    } else {
        None
    }
}

/// Whether a digit stands in front that isn't 0.
#[inline(always)]
fn has_leading_digit(bytes: &[u8]) -> bool
    ensures { result ≡ (nat_le 49 (slice_index bytes.now 0) && nat_le (slice_index bytes.now 0) 57) }
{
    matches!(bytes, [b'1'..=b'9', ..])
}

/// How many bytes the sign takes: no branch is guessed wrong where signs come by chance.
#[inline(always)]
fn sign_len(line: &[u8]) -> usize
    ensures { result ≡ (if slice_index line.now 0 == 45 then 1 else 0) }
{
    match line {
        [first, ..] => usize::from(*first == b'-'),
        [] => 0,
    }
}

/// The number of that value, which is negative where a sign stands before it.
#[inline(always)]
fn signed(sign: usize, value: u64) -> Option<i64>
    ensures positive { sign ≡ 0 → result ≡ (if nat_lt value (2 ^ 63) then Some (pos value) else None) }
    ensures negative { 0 < sign → result ≡ (if nat_le value (2 ^ 63) then Some (neg_ℤ (pos value)) else None) }
{
    if value <= i64::MAX as u64 {
        let size = value as i64;
        Some(if sign > 0 { -size } else { size })
    } else if sign > 0 && value == 1 << 63 {
        Some(i64::MIN)
    } else {
        None
    }
}

/// Where the first space stands, where that is near by.
#[inline(always)]
fn near_space(line: &[u8]) -> Option<usize>
    ensures { IfSome result (λ end. IsFirstByte (is_byte 32) line.now (Some end)) }
{
    if line.len() < NEAR {
        return None;
    }
    let spaces = u8x16::from_slice(line)
        .simd_eq(u8x16::splat(b' '))
        .to_bitmask();
    if spaces == 0 {
        return None;
    }
    Some(spaces.trailing_zeros() as usize)
}

/// The number that the first word of a line is, and what stands behind its space, where the word has eight digits at most.
///
/// The space tells where the next word begins: it is found without the digits, so the next word doesn't wait for them.
#[inline(always)]
pub(crate) fn near_number(line: &[u8]) -> Option<(Option<i64>, &[u8])>
    ensures { IfSome result (λ r. ReadsNumber line.now r.0 (Some r.1)) }
{
    let end = near_space(line)?;
    let sign = sign_len(line);
    let digits = &line[sign..];
    if digits.len() < WORD {
        return None;
    }
    if !has_leading_digit(digits) {
        return None;
    }
    let (count, value) = read_digits(&digits[..WORD], 0, 0);
    if sign + count == end {
        Some((signed(sign, value), &line[end + 1..]))
    } else {
        None
    }
}
