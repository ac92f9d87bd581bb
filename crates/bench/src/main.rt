#![tactic(auto)]
// The bench of document 01: reads RAM, registers, font and a line count, and prints a heading and the lines of frame 0, or a refusal.
ghost use Rattle.std.specs.Prelude.{OnOk, replicate};
ghost use mathlib.Core.List.{flatten};
ghost use Rattle.std.specs.Io.KnownBytes.{Appends};
ghost use Rattle.report.specs.Report.{text_outcome, bench_text};
ghost use Rattle.report.specs.Parts.{printed, frame_parts};

use device::Device;
use refusals::Numbered;
use std::io;
use std::io::Write;

fn main(rt: HostRuntime) -> io::Result<()> {
    // one byte more than an input has, so that a longer one shows
    let mut input = [0u8; report::INPUT_LENGTH + 1];
    let n = streams::read_full(&mut rt.stdin(), &mut input)?;
    run(&mut rt.stdout(), &input[..n])
}

// test_bench has a `run` and a `show` like these, which leave lines out: no crate stands on a program.
fn run<W: Write>(out: &mut W, input: &[u8]) -> io::Result<()>
    ensures { OnOk result (Appends (W.contents out.old) (W.contents out.new) (bench_text input.now)) }
{
    match report::begin(input) {
        Ok(mut device) => show(
            out,
            &mut device,
            report::ram_part(input),
            report::font_part(input),
        ),
        Err(refused) => {
            let mut text = [0u8; 16];
            let n = report::refusal_text(refused.refusal.number(), &mut text);
            print(out, &text, n)
        }
    }
}

// A frame that is started: the heading, then every line.
fn show<W: Write>(out: &mut W, device: &mut Device, ram: &[u8], font: &[u8]) -> io::Result<()>
    ensures { OnOk result (Appends (W.contents out.old) (W.contents out.new) (flatten (frame_parts device.old ram.now font.now (replicate 1024 0)))) }
{
    let mut text = [0u8; 1024];
    let lines = device.frame.left;
    let n = report::heading(lines, device.width(), &mut text);
    print(out, &text, n)?;
    for _ in 0..lines {
        let n = report::next_text(device, ram, font, &mut text);
        print(out, &text, n)?;
    }
    Ok(())
}

// The first n bytes; nothing where there is no text.
fn print<W: Write>(out: &mut W, text: &[u8], n: Option<usize>) -> io::Result<()>
    ensures { OnOk result (Appends (W.contents out.old) (W.contents out.new) (printed (text_outcome n text.now))) }
{
    match n {
        Some(n) if n <= text.len() => out.write_all(&text[..n]),
        _ => Ok(()),
    }
}
