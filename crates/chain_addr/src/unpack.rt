ghost use Rattle.std.specs.Prelude.{ℕ, ◌*◌, ◌≤◌, List, MatchOption, map, take, length};
ghost use Rattle.chain_addr.specs.Groups.{IsGrouped};
ghost use Rattle.chain_addr.specs.Reading.{value_of};

use crate::characters::value_of;

/// Writes the bytes that the characters stand for, and says how many there are, or `None` where they
/// stand for no whole bytes.
pub(crate) fn unpack(characters: &[u8], bytes: &mut [u8]) -> Option<usize>
    requires { 5 * length characters.now ≤ 8 * length bytes.old }
    ensures { MatchOption result
        ((found : List ℕ) (padding : ℕ) → IsGrouped found (map value_of characters.now) padding → ⊥)
        (λ n. (padding : ℕ) × IsGrouped (take n bytes.new) (map value_of characters.now) padding
        × (n ≤ length bytes.new)) }
{
    let mut waiting = 0u32;
    let mut bits = 0u32;
    let mut count = 0usize;
    for c in characters {
        waiting = waiting * 32 + u32::from(value_of(*c));
        bits += 5;
        if bits >= 8 {
            bits -= 8;
            bytes[count] = (waiting >> bits) as u8;
            waiting %= 1 << bits;
            count += 1;
        }
    }
    if bits >= 5 || waiting != 0 {
        return None;
    }
    Some(count)
}
