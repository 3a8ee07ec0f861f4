// Classes of bytes, how far a run or a quoted part goes, and what it holds.
ghost use Rattle.std.specs.Prelude.{◌≡◌, ◌≢◌, ◌<◌, ◌≤◌, ◌+◌, ◌-◌, ◌^◌, drop, length, min, take, slice_index, IfSome, IfOk, true, false};
ghost use Rattle.std.specs.Str.{IsUtf8};
ghost use Rattle.sql_lexer.specs.Bytes.{decimal, folded as folded_bytes};
ghost use Rattle.sql_lexer.specs.Scan as spec;

use crate::LexFault;
use cell_base::{Text, TextFault};
use std::alloc::Global;

/// A class of bytes.
#[derive(Clone, Copy, Debug)]
pub enum Class {
    /// White space.
    Space,
    /// Whatever doesn't end a line.
    Line,
    Digit,
    /// Whatever begins a word.
    Start,
    /// Whatever a word goes on with.
    Word,
}

/// Whether the byte is of the class.
pub fn is_in(class: Class, b: u8) -> bool
    ensures { result ≡ spec.is_in class b }
{
    match class {
        Class::Space => b == b' ' || (9 <= b && b <= 13),
        Class::Line => !(b == 10 || b == 13),
        Class::Digit => b.is_ascii_digit(),
        Class::Start => b.is_ascii_alphabetic() || b == b'_' || 128 <= b,
        Class::Word => b.is_ascii_alphanumeric() || b == b'_' || b == b'$' || 128 <= b,
    }
}

/// The byte at a place, or 0 past the end.
pub fn byte(z: &[u8], at: usize) -> u8
    ensures value { result ≡ slice_index z.now at }
    ensures within { result ≢ 0 → at < length z.now }
{
    if at < z.len() { z[at] } else { 0 }
}

/// The first place from `at` on whose byte isn't of the class.
pub fn past(class: Class, z: &[u8], at: usize) -> usize
    requires { at ≤ length z.now }
    ensures value { result ≡ spec.past class z.now at }
    ensures within { (at ≤ result) × (result ≤ length z.now) }
    ensures stops { result < length z.now → spec.is_in class (slice_index z.now result) ≡ false }
{
    let mut end = at;
    while end < z.len() && is_in(class, z[end]) {
        end += 1;
    }
    end
}

/// The place after the closing quote, for a text that begins at 1.
pub fn closing(quote: u8, mut z: &[u8]) -> Option<usize>
    requires { length z.now < 2 ^ 63 }
    ensures value { result ≡ spec.closing quote false 1 z.entry.now }
    ensures within { IfSome result (λ end. (2 ≤ end) × (end ≤ length z.entry.now + 1)) }
{
    let mut is_second = false;
    let mut at = 1;
    while let [b, rest @ ..] = z {
        if !is_second && *b == quote && byte(rest, 0) != quote {
            return Some(at + 1);
        }
        is_second = !is_second && *b == quote;
        at += 1;
        z = rest;
    }
    None
}

/// The place after the end of a comment, for a text that begins at 2.
pub fn comment(mut z: &[u8]) -> Option<usize>
    requires { length z.now < 2 ^ 63 }
    ensures value { result ≡ spec.comment_from 0 false 2 z.entry.now }
    ensures within { IfSome result (λ end. (2 ≤ end) × (end ≤ length z.entry.now + 2)) }
{
    let mut level: usize = 0;
    let mut is_second = false;
    let mut at = 2;
    while let [b, rest @ ..] = z {
        let next = byte(rest, 0);
        if is_second {
            is_second = false;
        } else if *b == b'*' && next == b'/' {
            if level == 0 {
                return Some(at + 2);
            }
            level -= 1;
            is_second = true;
        } else if *b == b'/' && next == b'*' {
            level += 1;
            is_second = true;
        }
        at += 1;
        z = rest;
    }
    None
}

/// The text that the bytes spell.
fn text_of(alloc: Global, bytes: &[u8]) -> Result<Text, LexFault>
    requires { IsUtf8 bytes.now }
    ensures value { IfOk result (λ text. text ≡ bytes.now) }
    ensures err { spec.IsMemory result }
{
    match Text::from_bytes(alloc, bytes) {
        Ok(text) => Ok(text),
        Err(TextFault::Memory) => Err(LexFault::Memory),
        Err(TextFault::NotUtf8) => unreachable!(),
    }
}

/// What stands between quotes, each doubled quote as one.
pub fn content(alloc: Global, quote: u8, mut z: &[u8]) -> Result<Text, LexFault>
    requires { IsUtf8 (spec.content quote false z.now) }
    ensures value { IfOk result (λ text. text ≡ spec.content quote false z.entry.now) }
    ensures err { spec.IsMemory result }
{
    let mut found = Vec::new(alloc);
    while let [b, rest @ ..] = z {
        found.push(*b)?;
        z = if *b == quote { after_first(rest) } else { rest };
    }
    text_of(alloc, &found)
}

fn after_first(z: &[u8]) -> &[u8]
    ensures { result.now ≡ drop 1 z.now }
{
    match z {
        [] => z,
        [_, rest @ ..] => rest,
    }
}

/// The text with ASCII capitals as small letters.
pub fn folded(alloc: Global, z: &[u8]) -> Result<Text, LexFault>
    requires { IsUtf8 z.now }
    ensures value { IfOk result (λ text. text ≡ folded_bytes z.now) }
    ensures err { spec.IsMemory result }
{
    let mut found = Vec::new(alloc);
    for b in z {
        found.push(b.to_ascii_lowercase())?;
    }
    text_of(alloc, &found)
}

/// The first n bytes, or all where there are fewer.
pub fn at_most(z: &[u8], n: usize) -> &[u8]
    ensures { result.now ≡ take n z.now }
{
    &z[..n.min(z.len())]
}

/// The number that the decimal digits spell, or the greatest one of 64 bits.
pub fn digits(z: &[u8]) -> u64
    ensures { result ≡ min (decimal z.now) (2 ^ 64 - 1) }
{
    let mut n: u64 = 0;
    for b in z {
        n = n
            .saturating_mul(10)
            .saturating_add(u64::from(b.saturating_sub(b'0')));
    }
    n
}
