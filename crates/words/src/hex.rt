ghost use Rattle.std.specs.Prelude.{◌≡◌, IfOk, vec_items};
ghost use Rattle.std.specs.Option.{option_map};
ghost use Rattle.words.specs.Hex.{digit_of, pair_of, pairs_of, bytes_of};

use std::alloc::{AllocError, Global};

/// The value of a hexadecimal digit, capital or small; none for another byte.
fn digit(byte: u8) -> Option<u8>
    ensures { result ≡ digit_of byte }
{
    match byte {
        b'0'..=b'9' => Some(byte - b'0'),
        b'A'..=b'F' => Some(byte - b'A' + 10),
        b'a'..=b'f' => Some(byte - b'a' + 10),
        _ => None,
    }
}

/// The byte that two digits write.
fn pair(high: u8, low: u8) -> Option<u8>
    ensures { result ≡ pair_of high low }
{
    Some(16 * digit(high)? + digit(low)?)
}

/// The bytes that a row of digits writes, two digits for each.
#[tactic(auto, unfolding(crate::specs::Hex::pairs_of))]
fn pairs(heap: Global, digits: &[u8]) -> Result<Option<Vec<u8>>, AllocError>
    ensures { IfOk result (λ o. option_map vec_items o ≡ pairs_of digits.now) }
{
    let mut all = Vec::new(heap);
    let mut left = digits;
    // a loop: of a `try_collect` it isn't known that it gives none where one pair is none
    while let [high, low, rest @ ..] = left {
        let Some(byte) = pair(*high, *low) else {
            return Ok(None);
        };
        all.push(byte)?;
        left = rest;
    }
    if left.is_empty() {
        Ok(Some(all))
    } else {
        Ok(None)
    }
}

/// The bytes that a word writes: two digits for each, or `-` for none at all.
pub fn bytes(heap: Global, word: &[u8]) -> Result<Option<Vec<u8>>, AllocError>
    ensures { IfOk result (λ o. option_map vec_items o ≡ bytes_of word.now) }
{
    match word {
        [] => Ok(None),
        b"-" => Ok(Some(Vec::new(heap))),
        _ => pairs(heap, word),
    }
}
