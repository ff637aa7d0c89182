ghost use Rattle.std.specs.Prelude.{◌≡◌, ◌/◌, ◌%◌, ◌<◌, ◌≤◌, fold, length, take, map, IfSome, IfNone, MatchResult, Ok, Err};
ghost use Rattle.std.specs.Str.{bytes_eq};
ghost use Rattle.chain_addr.specs.Reading.{lower, value_of, groups_of, misread, fault_of, fault_after, fault_of_parts, remainder_of, ReadsAs};
ghost use Rattle.chain_addr.specs.Checksum.{step};

use crate::characters::{after_separator, bad_character, lower, mixed_letter, value_of};
use crate::checksum::step;
use crate::fault::{AddrKind, Misread};
use crate::unpack::unpack;

/// The most bytes that a text of 256 characters stands for.
pub(crate) const MOST_BYTES: usize = 160;

/// Reads an address into the front of the buffer, and says how many bytes it has.
pub(crate) fn read(
    prefix: &[u8],
    text: &[u8],
    bytes: &mut [u8; MOST_BYTES],
) -> Result<usize, Misread>
    ensures { MatchResult result
        (λ n. ReadsAs prefix.now text.now (Ok (take n bytes.new)))
        (λ fault. ReadsAs prefix.now text.now (Err fault)) }
{
    if let Some(fault) = fault_of(prefix, text) {
        return Err(fault);
    }
    let Some(count) = unpack(address_characters(text), bytes) else {
        return Err(Misread {
            kind: AddrKind::Padding,
            at: 0,
        });
    };
    if count == 0 || count > 64 {
        return Err(Misread {
            kind: AddrKind::Length,
            at: 0,
        });
    }
    Ok(count)
}

/// The characters after the last `1` but the six of the checksum.
#[tactic(auto, unfolding(crate::specs::Reading::groups_of))]
fn address_characters(text: &[u8]) -> &[u8]
    ensures groups { map value_of result.now ≡ groups_of text.now }
    ensures fewer { length result.now ≤ length text.now }
{
    let count = after_separator(text).unwrap_or(0);
    let (_, rest) = text.split_at(text.len() - count);
    &rest[..count.saturating_sub(6)]
}

#[tactic(auto, unfolding(crate::specs::Reading::fault_of))]
fn fault_of(prefix: &[u8], text: &[u8]) -> Option<Misread>
    ensures first { result ≡ fault_of prefix.now text.now }
    ensures short { IfNone result (length text.now ≤ 256) }
{
    if text.len() > 256 {
        return misread(AddrKind::TooLong, Some(0));
    }
    let separator = after_separator(text);
    let character = bad_character(text.len() - separator.unwrap_or(0), text);
    let mixed = mixed_letter(text);
    misread(AddrKind::Character, character)
        .or(misread(AddrKind::Mixed, mixed))
        .or(fault_after(prefix, text, separator))
}

fn misread(kind: AddrKind, place: Option<usize>) -> Option<Misread>
    ensures { result ≡ misread kind place }
{
    place.map(|at| Misread { kind, at })
}

fn fault_after(prefix: &[u8], text: &[u8], separator: Option<usize>) -> Option<Misread>
    requires { IfSome separator (λ n. n < length text.now) }
    ensures { result ≡ fault_after prefix.now text.now separator }
{
    match separator {
        Some(count) => fault_of_parts(prefix, text, count),
        None => misread(AddrKind::Separator, Some(0)),
    }
}

fn fault_of_parts(prefix: &[u8], text: &[u8], count: usize) -> Option<Misread>
    requires { count < length text.now }
    ensures { result ≡ fault_of_parts prefix.now text.now count }
{
    if text.len() == count + 1 || count < 6 {
        return misread(AddrKind::Separator, Some(0));
    }
    let name = &text[..text.len() - count - 1];
    if remainder_of(name, &text[text.len() - count..]) != 1 {
        return misread(AddrKind::Checksum, Some(0));
    }
    if !is_lower_of(name, prefix) {
        return misread(AddrKind::Prefix, Some(0));
    }
    None
}

fn remainder_of(name: &[u8], characters: &[u8]) -> u32
    ensures { result ≡ remainder_of name.now characters.now }
{
    let state = step(after_high_bits(name), 0);
    after_characters(after_low_bits(state, name), characters)
}

fn after_high_bits(name: &[u8]) -> u32
    ensures { result ≡ fold (λ s c. step s (lower c / 32)) 1 name.now }
{
    name.iter()
        .fold(1u32, |state, c| step(state, lower(*c) / 32))
}

fn after_low_bits(state: u32, name: &[u8]) -> u32
    ensures { result ≡ fold (λ s c. step s (lower c % 32)) state name.now }
{
    name.iter()
        .fold(state, |state, c| step(state, lower(*c) % 32))
}

fn after_characters(state: u32, characters: &[u8]) -> u32
    ensures { result ≡ fold (λ s c. step s (value_of c)) state characters.now }
{
    characters
        .iter()
        .fold(state, |state, c| step(state, value_of(*c)))
}

/// Whether the first text in lower case is the second.
fn is_lower_of(name: &[u8], prefix: &[u8]) -> bool
    ensures { result ≡ bytes_eq (map lower name.now) prefix.now }
{
    match (name.split_first(), prefix.split_first()) {
        (Some((c, name)), Some((d, prefix))) => lower(*c) == *d && is_lower_of(name, prefix),
        (None, None) => true,
        _ => false,
    }
}
