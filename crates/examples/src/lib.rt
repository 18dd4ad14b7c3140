//! Worked examples of the definitions, and tests against published values.
#![tactic(auto)]

ghost use Rattle.std.specs.Prelude.{◌≡◌};
ghost use Rattle.examples.specs.Examples.{Examples};

/// The worked examples hold; says how many there are.
pub fn worked_examples() -> u8
    ensures { (Examples) × (result ≡ 12) }
{
    let shown = 12;
    shown
}

#[cfg(test)]
mod tests {
    use std::process::Abort;

    fn check_hash(rt: &impl Abort, bytes: &[u8], seed: u32, want: u32) {
        assert_eq!(rt; murmur::hash(seed, bytes), want);
    }

    // Published values of MurmurHash3 x86 32-bit, of every tail length.
    #[test]
    fn published_hashes(rt: HostRuntime) {
        check_hash(&rt, b"", 0x0, 0x00000000);
        check_hash(&rt, b"", 0x1, 0x514E28B7);
        check_hash(&rt, b"", 0xFFFFFFFF, 0x81F16F39);
        check_hash(&rt, b"\xff\xff\xff\xff", 0x0, 0x76293B50);
        check_hash(&rt, b"!Ce\x87", 0x0, 0xF55B516B);
        check_hash(&rt, b"!Ce\x87", 0x5082EDEE, 0x2362F9DE);
        check_hash(&rt, b"!Ce", 0x0, 0x7E4A8634);
        check_hash(&rt, b"!C", 0x0, 0xA0F7B07A);
        check_hash(&rt, b"!", 0x0, 0x72661CF4);
        check_hash(&rt, b"\x00\x00\x00\x00", 0x0, 0x2362F9DE);
        check_hash(&rt, b"\x00\x00\x00", 0x0, 0x85F0B427);
        check_hash(&rt, b"\x00\x00", 0x0, 0x30F4C306);
        check_hash(&rt, b"\x00", 0x0, 0x514E28B7);
        check_hash(&rt, b"test", 0x0, 0xBA6BD213);
        check_hash(&rt, b"test", 0x9747B28C, 0x704B81DC);
        check_hash(&rt, b"Hello, world!", 0x0, 0xC0363E43);
        check_hash(&rt, b"Hello, world!", 0x9747B28C, 0x24884CBA);
        check_hash(
            &rt,
            b"The quick brown fox jumps over the lazy dog",
            0x0,
            0x2E4FF723,
        );
        check_hash(
            &rt,
            b"The quick brown fox jumps over the lazy dog",
            0x9747B28C,
            0x2FA826CD,
        );
        check_hash(&rt, b"aaa", 0x9747B28C, 0x283E0130);
        check_hash(&rt, b"ab", 0x9747B28C, 0x74875592);
    }
}
