//! The filter interface: what a filter means, and what every kind of filter keeps.
#![tactic(auto)]

ghost use Rattle.std.specs.Prelude.{◌≡◌, ℕ, true, length, None};
ghost use Rattle.filters.specs.Kind.{Kind, Rules, Alone, hashes_allowed, content_reason, allowed, judged};
ghost use Rattle.passes.specs.Outputs.{written_to};
ghost use Rattle.filters.specs.Answers.{answered, after_clear, after_put, after_load};

use passes::identifier::Identifier;
use refusals::{Reason, Refusal};

pub mod table;

/// The most hashes that a filter makes of an identifier.
pub const MOST_HASHES: u8 = 8;

/// Whether a hash count is one that filters allow.
pub fn allows_hashes(hashes: u8) -> bool
    ensures { result ≡ hashes_allowed hashes }
{
    (1..=MOST_HASHES).contains(&hashes)
}

/// How a filter hashes: what its saved bytes don't carry.
#[derive(Clone, Copy)]
pub struct Hashing {
    pub salt: u16,
    pub level: u8,
    pub hashes: u8,
}

impl Hashing {
    /// How a filter hashes before any clear.
    pub const FIRST: Hashing = Hashing {
        salt: 0,
        level: 1,
        hashes: 1,
    };

    /// How the first level of a pile hashes.
    pub fn at_top(salt: u16, hashes: u8) -> Hashing
        ensures { result ≡ record { salt = salt; level = 1; hashes = hashes } }
    {
        Hashing {
            salt,
            level: 1,
            hashes,
        }
    }
}

/// What clear sets: how the filter hashes, and the size of its table in bytes.
#[derive(Clone, Copy)]
pub struct Settings {
    pub hashing: Hashing,
    pub size: usize,
}

/// A filter: a set of identifiers that may say yes to more than were put in.
pub trait Filter: Sized {
    ghost View: { Type 0 };

    ghost kind: { Kind View };

    ghost rules: { Rules kind };

    ghost view: { Self → View };

    ghost sound: { (f : Self) → kind.sound (view f) ≡ true };

    /// A filter before any clear: it says yes to none.
    fn blank() -> Self
        ensures { view result ≡ kind.blank };

    // Table size, hash count or hashing, and saved bytes stand by themselves in the calls that judge and load: a filter's settings are what was judged.
    /// Whether this kind allows a table size and a hash count.
    fn allows(size: usize, hashes: u8) -> bool
        ensures { result ≡ kind.allows size hashes };

    /// Whether saved bytes of this length fit this kind.
    fn measures(len: usize) -> bool
        ensures { result ≡ kind.measures len };

    /// Judges the content of saved bytes of a fitting length.
    fn judge_content(body: &[u8]) -> Result<(), Refusal>
        ensures { result ≡ answered (content_reason (kind.judges body.now)) };

    /// The settings under which it stands.
    fn settings(&self) -> Settings
        ensures { result ≡ kind.settings (view self.now) };

    /// Sets settings that are allowed and empties it.
    fn empty(&mut self, settings: Settings)
        requires { allowed kind settings ≡ true }
        ensures { view self.new ≡ kind.cleared settings };

    /// Takes over saved bytes that are accepted, under this salt, level and hash count.
    fn take_over(&mut self, hashing: Hashing, body: &[u8])
        requires { judged kind hashing.hashes body.now ≡ None }
        ensures { view self.new ≡ kind.loaded hashing body.now };

    /// Adds an identifier, and says whether it was taken; one that isn't changes nothing.
    fn put<I: Identifier>(&mut self, id: &I) -> bool
        ensures { (result, view self.new) ≡ after_put kind (view self.old) (I.form id.now) };

    /// Whether it says yes to an identifier.
    fn ask<I: Identifier>(&self, id: &I) -> bool
        ensures { result ≡ kind.says (view self.now) (I.form id.now) };

    /// How many bytes it saves.
    fn saved_len(&self) -> usize
        ensures { result ≡ length (kind.saved (view self.now)) };

    /// Writes its bytes to the front of the output and says how many; none, and nothing written, if they don't fit. A kind may make them only
    /// here: one that holds them writes them by `write_saved`.
    fn save(&self, out: &mut [u8]) -> Option<usize>
        ensures { (result, out.new) ≡ written_to (kind.saved (view self.now)) out.old };

    /// Whether load would accept these bytes under this hash count.
    fn judge(hashes: u8, body: &[u8]) -> Result<(), Refusal>
        ensures { result ≡ answered (judged kind hashes body.now) }
    {
        if !allows_hashes(hashes) {
            return Err(Reason::BadSetting.into());
        }
        if !Self::measures(body.len()) {
            return Err(Reason::BadLength.into());
        }
        Self::judge_content(body)
    }

    /// Sets the settings and empties it; settings that aren't allowed change nothing.
    fn clear(&mut self, settings: Settings) -> Result<(), Refusal>
        ensures { (result, view self.new) ≡ after_clear kind (view self.old) settings }
    {
        if !Self::allows(settings.size, settings.hashing.hashes) {
            return Err(Reason::BadSetting.into());
        }
        self.empty(settings);
        Ok(())
    }

    /// Takes over saved bytes under this salt, level and hash count; bytes that aren't accepted change nothing.
    fn load(&mut self, hashing: Hashing, body: &[u8]) -> Result<(), Refusal>
        ensures { (result, view self.new) ≡ after_load kind (view self.old) hashing body.now }
    {
        Self::judge(hashing.hashes, body)?;
        self.take_over(hashing, body);
        Ok(())
    }
}

/// Writes saved bytes to the front of the output and says how many; none, and nothing written, if they don't fit.
pub fn write_saved(saved: &[u8], out: &mut [u8]) -> Option<usize>
    ensures { (result, out.new) ≡ written_to saved.now out.old }
{
    let n = saved.len();
    if n > out.len() {
        return None;
    }
    out[..n].copy_from_slice(saved);
    Some(n)
}

/// A filter that holds the bytes that it saves as one slice.
pub trait Stored: Filter {
    /// The bytes that it saves.
    fn saved(&self) -> &[u8]
        ensures { result.now ≡ Self.Filter.kind.saved (Self.Filter.view self.now) };
}

/// A filter whose put adds that identifier alone.
pub trait Exact: Filter {
    ghost alone: { Alone Self.Filter.kind };
}
