//! Printing a line.
ghost use Rattle.std.specs.Prelude.{[], ◌∷◌, ◌++◌, OnOk};
ghost use Rattle.std.specs.Io.KnownBytes.{Appends};

use std::io;
use std::io::Write;

/// Writes a line and its line feed.
pub fn print_line<W: Write>(to: &mut W, line: &[u8]) -> io::Result<()>
    ensures { OnOk result (Appends (W.contents to.old) (W.contents to.new) (line.now ++ 10 ∷ [])) }
{
    to.write_all(line)?;
    to.write_all(b"\n")
}
