#![tactic(auto)]
// Writes the font on standard input as a font file (document 02, K8); or prints that it is no font, and nothing else.
// The stored input and output come from tests/depot.py; tests/depot_runs.py runs it over fonts and other inputs.
ghost use Rattle.std.specs.Prelude.{replicate, OnOk};
ghost use Rattle.limits.specs.Limits.{font_file_length};
ghost use Rattle.font_file.specs.FontFile.{write_font};
ghost use Rattle.depot.specs.Depot.{Packs};

use std::io;
use std::io::Write;

fn main(rt: HostRuntime) -> io::Result<()> {
    // one byte more than a font has, so that a longer one shows
    let mut input = [0u8; limits::FONT_LENGTH + 1];
    let n = streams::read_full(&mut rt.stdin(), &mut input)?;
    pack(&mut rt.stdout(), &input[..n])
}

fn pack<W: Write>(out: &mut W, font: &[u8]) -> io::Result<()>
    ensures { OnOk result (Packs (W.contents out.old) (W.contents out.new) (write_font font.now (replicate font_file_length 0))) }
{
    let mut file = [0u8; limits::FONT_FILE_LENGTH];
    match font_file::write(font, &mut file) {
        Ok(()) => out.write_all(&file),
        Err(_) => depot::tell_not_font(out),
    }
}
