#![tactic(auto)]
// What a depot's programs (font_check, font_unpack, font_pack) say of their input, in one line.
ghost use Rattle.std.specs.Prelude.{OnOk, OnErr};
ghost use Rattle.std.specs.Io.KnownBytes.{Appends};
ghost use Rattle.streams.specs.Streams.{AppendsPart};
ghost use Rattle.depot.specs.Depot.{line_of, not_font};

use refusals::FileRefusal;
use std::io;
use std::io::Write;

// Where the place of a block stands in a line. A place is 0 to 9; the remainder makes a digit of any byte.
const PLACE_AT: usize = 18;

// Printed here, so that font_check and font_unpack say the same. As bytes: `write!` promises nothing of what an error leaves. Each line is
// handed on whole: where the writer takes it all, that is one write, and lines of programs that share a log don't mix.
#[tactic(auto, unfolding(crate::specs::Depot::line_of, buffers::specs::Buffers::bytes_of))]
pub fn tell<W: Write>(out: &mut W, answer: Result<(), FileRefusal>) -> io::Result<()>
    ensures ok { OnOk result (Appends (W.contents out.old) (W.contents out.new) (line_of answer)) }
    ensures err { OnErr result (AppendsPart (W.contents out.old) (W.contents out.new) (line_of answer)) }
{
    match answer {
        Ok(()) => streams::write_all(out, b"good\n"),
        Err(refusal) => tell_refusal(out, refusal),
    }
}

#[tactic(auto, unfolding(crate::specs::Depot::line_of, buffers::specs::Buffers::bytes_of))]
fn tell_refusal<W: Write>(out: &mut W, refusal: FileRefusal) -> io::Result<()>
    ensures ok { OnOk result (Appends (W.contents out.old) (W.contents out.new) (line_of (Err refusal))) }
    ensures err { OnErr result (AppendsPart (W.contents out.old) (W.contents out.new) (line_of (Err refusal))) }
{
    match refusal {
        FileRefusal::Length => streams::write_all(out, b"refused 15: not 5120 bytes\n"),
        FileRefusal::Checks(place) => {
            let mut line = *b"refused 16: block 0: checks wrong\n";
            line[PLACE_AT] = b'0' + place % 10;
            streams::write_all(out, &line)
        }
        FileRefusal::Format(place) => {
            let mut line = *b"refused 17: block 0: other number, length or padding\n";
            line[PLACE_AT] = b'0' + place % 10;
            streams::write_all(out, &line)
        }
    }
}

#[tactic(auto, unfolding(crate::specs::Depot::not_font, buffers::specs::Buffers::bytes_of))]
pub fn tell_not_font<W: Write>(out: &mut W) -> io::Result<()>
    ensures ok { OnOk result (Appends (W.contents out.old) (W.contents out.new) not_font) }
    ensures err { OnErr result (AppendsPart (W.contents out.old) (W.contents out.new) not_font) }
{
    streams::write_all(out, b"refused 15: not 4608 bytes\n")
}
