#![tactic(auto)]
// Reads a font file (document 02, K8) on standard input and writes its font; or prints the line of font_check, and nothing else.
// The stored input and output come from tests/depot.py; tests/depot_runs.py runs it over every kind of file.
ghost use Rattle.std.specs.Prelude.{replicate, OnOk};
ghost use Rattle.limits.specs.Limits.{font_length};
ghost use Rattle.font_file.specs.FontFile.{read_font};
ghost use Rattle.depot.specs.Depot.{Unpacks};

use std::io;
use std::io::Write;

fn main(rt: HostRuntime) -> io::Result<()> {
    // one byte more than a file has, so that a longer one shows
    let mut input = [0u8; limits::FONT_FILE_LENGTH + 1];
    let n = streams::read_full(&mut rt.stdin(), &mut input)?;
    unpack(&mut rt.stdout(), &input[..n])
}

fn unpack<W: Write>(out: &mut W, file: &[u8]) -> io::Result<()>
    ensures { OnOk result (Unpacks (W.contents out.old) (W.contents out.new) (read_font file.now (replicate font_length 0))) }
{
    let mut font = [0u8; limits::FONT_LENGTH];
    match font_file::read(file, &mut font) {
        Ok(()) => out.write_all(&font),
        Err(refusal) => depot::tell(out, Err(refusal)),
    }
}
