//! MurmurHash3 x86 32-bit.
#![tactic(auto)]

ghost use Rattle.std.specs.Prelude.{◌≡◌, true};
ghost use Rattle.murmur.specs.Hash.{murmur, mixed, folded, absorbed, finished, ByGroups};

/// The hash of a byte string of any length at any seed.
pub fn hash(seed: u32, bytes: &[u8]) -> u32
    ensures { result ≡ murmur seed bytes.now }
{
    finish(absorb(seed, bytes), (bytes.len() % 0x1_0000_0000) as u32)
}

/// Bytes enter the state in whole groups, one after the other.
pub fn groups_enter_in_turn() -> bool
    ensures { (ByGroups) × (result ≡ true) }
{
    true
}

/// The state after all bytes.
fn absorb(seed: u32, bytes: &[u8]) -> u32
    ensures { result ≡ absorbed seed bytes.now }
{
    let (groups, rest) = bytes.as_chunks::<4>();
    let mut h = seed;
    for group in groups {
        h = fold(h, u32::from_le_bytes(*group));
    }
    match rest {
        [a] => h ^ mix(u32::from_le_bytes([*a, 0, 0, 0])),
        [a, b] => h ^ mix(u32::from_le_bytes([*a, *b, 0, 0])),
        [a, b, c] => h ^ mix(u32::from_le_bytes([*a, *b, *c, 0])),
        _ => h,
    }
}

/// A group, before it enters the state.
fn mix(k: u32) -> u32
    ensures { result ≡ mixed k }
{
    k.wrapping_mul(0xCC9E_2D51)
        .rotate_left(15)
        .wrapping_mul(0x1B87_3593)
}

/// The state after one whole group.
fn fold(h: u32, k: u32) -> u32
    ensures { result ≡ folded h k }
{
    (h ^ mix(k))
        .rotate_left(13)
        .wrapping_mul(5)
        .wrapping_add(0xE654_6B64)
}

/// The hash from the last state and the length.
fn finish(mut h: u32, size: u32) -> u32
    ensures { result ≡ finished h size }
{
    h ^= size;
    h ^= h >> 16;
    h = h.wrapping_mul(0x85EB_CA6B);
    h ^= h >> 13;
    h = h.wrapping_mul(0xC2B2_AE35);
    h ^ (h >> 16)
}
