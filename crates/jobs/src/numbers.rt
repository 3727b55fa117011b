//! Numbers that stand in words.

ghost use Rattle.std.specs.Prelude.{◌≡◌, ◌≤◌, IfOk, IfSome, option_map};
ghost use Rattle.std.specs.List.{list_all};
ghost use Rattle.jobs.specs.Numbers.{is_digit, is_number, number_of, within, parts_of, numbers_of, at_most};

use cr_base::{Items, Memory};
use std::alloc::Global;

// Whether each byte is an ASCII digit.
fn are_digits(bytes: &[u8]) -> bool
    ensures { result ≡ list_all is_digit bytes.now }
{
    for byte in bytes {
        if *byte < b'0' || b'9' < *byte {
            return false;
        }
    }
    true
}

// Whether a word is of at least one ASCII digit and at most so many.
fn is_number(word: &str, most: usize) -> bool
    ensures { result ≡ is_number most word.now }
{
    if word.is_empty() {
        return false;
    }
    if most < word.len() {
        return false;
    }
    are_digits(word.as_bytes())
}

/// The number that a word of at least one ASCII digit and at most `most` writes in decimal, or None
/// where the word is none.
pub(crate) fn number_of(word: &str, most: usize) -> Option<u64>
    requires { most ≤ 19 }
    ensures { result ≡ number_of most word.now }
{
    if !is_number(word, most) {
        return None;
    }
    match word.parse::<u64>() {
        Ok(number) => Some(number),
        Err(_) => None,
    }
}

/// The same number of a word of at most nine digits, which has 32 bits.
fn short_number_of(word: &str, most: usize) -> Option<u32>
    requires { most ≤ 9 }
    ensures { result ≡ number_of most word.now }
{
    if !is_number(word, most) {
        return None;
    }
    match word.parse::<u32>() {
        Ok(number) => Some(number),
        Err(_) => None,
    }
}

/// A number that lies between two bounds, both of them taken.
pub(crate) fn within(number: Option<u64>, least: u64, greatest: u64) -> Option<u64>
    ensures within { result ≡ within least greatest number }
    ensures most { IfSome result (λ found. found ≤ greatest) }
{
    let number = number?;
    if number < least {
        return None;
    }
    if greatest < number {
        return None;
    }
    Some(number)
}

/// The numbers of at most `digits` digits that stand in a word with a comma between two, at most
/// `most` of them, or None where they don't. Refused only for want of memory.
pub(crate) fn numbers_in(
    alloc: Global,
    word: &str,
    digits: usize,
    most: usize,
) -> Result<Option<Items<u32>>, Memory>
    requires { digits ≤ 9 }
    ensures { IfOk result (λ numbers. numbers ≡ at_most most (numbers_of digits (parts_of word.now))) }
{
    let mut numbers = Items::new(alloc);
    let mut left = word;
    while let Some((first, rest)) = left.split_once(',') {
        let Some(number) = short_number_of(first, digits) else {
            return Ok(None);
        };
        numbers.push(number)?;
        left = rest;
    }
    let Some(last) = short_number_of(left, digits) else {
        return Ok(None);
    };
    numbers.push(last)?;
    if most < numbers.len() {
        return Ok(None);
    }
    Ok(Some(numbers))
}
