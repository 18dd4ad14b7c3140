ghost use Rattle.std.specs.Prelude.{◌≡◌, ◌^◌, ◌<◌, ◌≤◌, length};
ghost use Rattle.words.specs.Numbers.{number_of, reads, Within};

/// The number that decimal digits write; none if another byte stands among them.
#[tactic(auto, using(crate::proofs::Steps::ten_more), unfolding(crate::specs::Numbers::reads))]
fn value(digits: &[u8]) -> Option<u128>
    requires { length digits.now ≤ 20 }
    ensures { result ≡ reads 0 digits.now }
{
    let mut value: u128 = 0;
    // a loop and no `try_fold`: its invariant bounds the value, so that no step wraps
    for byte in digits {
        if !byte.is_ascii_digit() {
            return None;
        }
        value = 10 * value + u128::from(*byte - b'0');
    }
    Some(value)
}

/// The number that a word writes: 1 to 20 decimal digits, with a value from `low` to `high`.
pub fn number(word: &[u8], low: u64, high: u64) -> Option<u64>
    ensures value { result ≡ number_of low high word.now }
    ensures within { Within low high result }
{
    if word.is_empty() || word.len() > 20 {
        return None;
    }
    let n = value(word)?;
    if n < u128::from(low) || n > u128::from(high) {
        return None;
    }
    Some(n as u64)
}
