ghost use Rattle.std.specs.Prelude.{◌≡◌};
ghost use Rattle.desk.specs.Shown.{in_sheet};

use levels::Side;
use std::fmt;

/// Bytes, to be written in capital hexadecimal digits. A chip pass writes its serial so, too: one loop, and no reason for a public type.
#[derive(Clone, Copy)]
pub struct Hex<'a>(pub &'a [u8]);

impl<'a> fmt::Display for Hex<'a> {
    fn fmt<W: fmt::Write>(&self, f: &mut fmt::Formatter<W>) -> fmt::Result {
        for byte in self.0 {
            write!(f, "{byte:02X}")?;
        }
        Ok(())
    }
}

/// What a sheet says of a pass of this side: blocked is for, good is against. Both types are of crates below, so no `From` can say it here.
pub(crate) fn in_sheet(side: Side) -> sheets::Side
    ensures { result ≡ in_sheet side }
{
    match side {
        Side::For => sheets::Side::Blocked,
        Side::Against => sheets::Side::Good,
    }
}
