ghost use Rattle.std.specs.Prelude.{◌≡◌, ◌<◌, ◌≤◌};
ghost use Rattle.desk.specs.Spans.{numbered, kind_of, pass_at};

use crate::numbers::Numbers;
use crate::pass::Pass;
use passes::chip::ChipPass;
use passes::kind::PassKind;
use passes::tag::Tag;

/// What the numbers of a span are: the numbers of tags, or serials of a length.
#[derive(Clone, Copy)]
pub enum SpanKind {
    Tags,
    Chips(u8),
}

/// Many passes of one issuer.
#[derive(Drop)]
pub struct Span {
    kind: SpanKind,
    issuer: u16,
    numbers: Numbers,
}

/// The chip pass whose serial has the low bytes of a number, high byte first, with zeros in front of a longer one.
fn chip_pass(issuer: u16, length: u8, number: u64) -> ChipPass
    ensures { result ≡ numbered issuer length number }
{
    let mut bytes = [0; 20];
    bytes[12..20].copy_from_slice(&number.to_be_bytes());
    let start = 20 - (length as usize).min(20);
    let mut chip = ChipPass::new();
    let _ = chip.fill(issuer, &bytes[start..]);
    chip
}

impl Span {
    /// The span of these numbers.
    pub(crate) fn new(kind: SpanKind, issuer: u16, numbers: Numbers) -> Span
        ensures { (result.kind ≡ kind) × (result.issuer ≡ issuer) × (result.numbers ≡ numbers) }
    {
        Span {
            kind,
            issuer,
            numbers,
        }
    }

    /// How many passes it has.
    pub(crate) fn count(&self) -> u16
        ensures { result ≡ self.now.numbers.count }
    {
        self.numbers.count
    }

    /// The kind of its passes.
    pub(crate) fn kind(&self) -> PassKind
        ensures { result ≡ kind_of self.now.kind }
    {
        match self.kind {
            SpanKind::Tags => PassKind::Tag,
            SpanKind::Chips(_) => PassKind::Chip,
        }
    }

    /// The pass at a place, from 0.
    pub(crate) fn pass(&self, i: u16) -> Pass
        requires { i < self.now.numbers.count }
        ensures { result ≡ pass_at self.now i }
    {
        let number = self.numbers.at(i);
        match self.kind {
            SpanKind::Tags => Pass::Tag(Tag {
                issuer: self.issuer,
                number,
            }),
            SpanKind::Chips(length) => Pass::Chip(chip_pass(self.issuer, length, number)),
        }
    }

    /// Tries each of its passes in turn, and says for how many the test says yes.
    pub(crate) fn how_many<F: FnMut(&Pass) -> bool>(&self, mut test: F) -> u16
        requires { F.IsAlwaysCallable test }
        ensures { result ≤ self.now.numbers.count }
    {
        let mut well = 0;
        // by place: an iterator would be a type of its own with a state and a contract, for three loops that count as it would
        for i in 0..self.count() {
            if test(&self.pass(i)) {
                well += 1;
            }
        }
        well
    }
}
