ghost use Rattle.std.specs.Prelude.{◌≡◌, ◌+◌, ◌<◌, ◌≤◌, ◌^◌, not, find, length, position, IfSome, Some};
ghost use Rattle.std.specs.Option.{option_map};
ghost use Rattle.chain_addr.specs.Reading.{is_upper, lower, is_letter, place_of, value_of, is_printable, is_data, after_separator, bad_character, mixed_letter, mixed_after, is_other_case};

use crate::letters::place_of_letter;

fn is_upper(c: u8) -> bool
    ensures { result ≡ is_upper c }
{
    65 <= c && c <= 90
}

pub(crate) fn lower(c: u8) -> u8
    ensures { result ≡ lower c }
{
    if is_upper(c) { c + 32 } else { c }
}

fn is_letter(c: u8) -> bool
    ensures { result ≡ is_letter c }
{
    let c = lower(c);
    97 <= c && c <= 122
}

fn is_printable(c: u8) -> bool
    ensures { result ≡ is_printable c }
{
    33 <= c && c <= 126
}

fn is_data(c: u8) -> bool
    ensures { result ≡ is_data c }
{
    is_printable(c) && place_of_letter(lower(c)).is_some()
}

/// The value of five bits, where the character is one of the letters of bech32.
pub(crate) fn value_of(c: u8) -> u8
    ensures value { result ≡ value_of c }
    ensures small { result < 32 }
{
    match place_of_letter(lower(c)) {
        Some(place) => place as u8,
        None => 0,
    }
}

/// How many characters stand after the last `1`.
pub(crate) fn after_separator(text: &[u8]) -> Option<usize>
    ensures { result ≡ after_separator text.now }
{
    text.iter().rev().position(|c| *c == b'1')
}

pub(crate) fn bad_character(start: usize, text: &[u8]) -> Option<usize>
    requires { start ≤ length text.now }
    ensures { result ≡ bad_character start text.now }
{
    let (name, rest) = text.split_at(start);
    first_unprintable(name).or(later(start, first_foreign(rest)))
}

fn first_unprintable(text: &[u8]) -> Option<usize>
    ensures { result ≡ position (λ c. not (is_printable c)) text.now }
{
    text.iter().position(|c| !is_printable(*c))
}

fn first_foreign(text: &[u8]) -> Option<usize>
    ensures place { result ≡ position (λ c. not (is_data c)) text.now }
    ensures within { IfSome result (λ k. k < length text.now) }
{
    text.iter().position(|c| !is_data(*c))
}

fn later(start: usize, place: Option<usize>) -> Option<usize>
    requires { IfSome place (λ k. start + k < 2 ^ 64) }
    ensures { result ≡ option_map (λ k. start + k) place }
{
    match place {
        Some(k) => Some(start + k),
        None => None,
    }
}

pub(crate) fn mixed_letter(text: &[u8]) -> Option<usize>
    ensures { result ≡ mixed_letter text.now }
{
    match first_letter(text) {
        Some(first) => mixed_after(text, first),
        None => None,
    }
}

fn first_letter(text: &[u8]) -> Option<u8>
    ensures { result ≡ find is_letter text.now }
{
    text.iter().copied().find(|c| is_letter(*c))
}

fn mixed_after(text: &[u8], first: u8) -> Option<usize>
    ensures { result ≡ mixed_after text.now (Some first) }
{
    text.iter().position(|c| is_other_case(first, *c))
}

fn is_other_case(first: u8, c: u8) -> bool
    ensures { result ≡ is_other_case first c }
{
    if is_upper(first) {
        is_letter(c) && !is_upper(c)
    } else {
        is_upper(c)
    }
}
