ghost use Rattle.std.specs.Prelude.{◌≡◌, if◌then◌else◌, Some, None};
ghost use Rattle.std.specs.Option.{option_map};
ghost use Rattle.words.specs.Names.{letter, lettered, is_name};

/// Whether a byte is a letter, a digit or an underscore.
fn is_letter(byte: u8) -> bool
    ensures { result ≡ letter byte }
{
    byte.is_ascii_alphanumeric() || byte == b'_'
}

/// Whether every byte of a word is such a letter.
fn all_letters(word: &[u8]) -> bool
    ensures { result ≡ lettered word.now }
{
    word.iter().all(|byte| is_letter(*byte))
}

/// The name that a word is: 1 to 16 letters, digits or underscores.
#[tactic(auto, using(crate::proofs::Steps::name_utf8))]
pub fn name(word: &[u8]) -> Option<&str>
    ensures { option_map (λ s. s.now) result ≡ (if is_name word.now then Some word.now else None) }
{
    if word.is_empty() || word.len() > 16 || !all_letters(word) {
        return None;
    }
    std::str::from_utf8(word).ok()
}
