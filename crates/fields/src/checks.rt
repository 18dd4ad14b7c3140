//! The check: the hash of all bytes before it.
ghost use Rattle.std.specs.Prelude.{◌≡◌, ◌≤◌, length, take};
ghost use Rattle.murmur.specs.Hash.{murmur};
ghost use Rattle.fields.specs.Reading.{four};
ghost use Rattle.fields.specs.Sealing.{sealed};

/// The tag of the field of the check.
pub const CHECK: u8 = 0xFF;

/// The check in a body of four bytes.
pub(crate) fn check_in(body: &[u8]) -> u32
    requires { 4 ≤ length body.now }
    ensures { result ≡ four body.now 0 }
{
    u32::from_be_bytes([body[0], body[1], body[2], body[3]])
}

/// The check of the bytes before a place: their hash.
pub(crate) fn check_of(bytes: &[u8], place: usize) -> u32
    requires { place ≤ length bytes.now }
    ensures { result ≡ murmur 0 (take place bytes.now) }
{
    murmur::hash(0, &bytes[0..place])
}

/// Writes the check of the bytes before a place behind them, and says where it ends; none, and nothing is written, if it does not
/// fit. The place stands beside the output, which is lent, since nothing allocates here.
pub fn seal(end: usize, out: &mut [u8]) -> Option<usize>
    ensures { (result, out.new) ≡ sealed end out.old }
{
    if out.len() < 7 || out.len() - 7 < end {
        return None;
    }
    let check = check_of(out, end).to_be_bytes();
    out[end..end + 7].copy_from_slice(&[CHECK, 0, 4, check[0], check[1], check[2], check[3]]);
    Some(end + 7)
}
