#![tactic(auto)]
// Runs inputs at the edges through the bench's functions: 0, 5,649 and 5,651 bytes, then counts of 0, 2,048, 2,049 and 65,535.
// Prints a refusal, or the heading, the first and the last line, and a digest of all lines.
// Standard input: the bench's input with the count 0, and one byte more. The stored output comes from tests/model.py
// (tests/test_bench.py).
use device::Device;
use refusals::Numbered;
use std::io;
use std::io::Write;
use test_script::Numbers;

const DIGEST: Numbers = Numbers {
    factor: 31,
    more: 0,
    last: 65520,
};

fn main(rt: HostRuntime) -> io::Result<()> {
    let mut input = [0u8; 5651];
    streams::read_full(&mut rt.stdin(), &mut input)?;
    let mut out = rt.stdout();
    for n in [0, 5649, 5651] {
        run(&mut out, test_script::first(&input, n))?;
    }
    for lines in [0, 2048, 2049, 65535] {
        // the line count, low byte first
        let [low, high] = u16::to_le_bytes(lines);
        input[5648] = low;
        input[5649] = high;
        run(&mut out, test_script::first(&input, 5650))?;
    }
    Ok(())
}

// Like `run` and `show` of the bench, but most lines go into the digest alone: no crate stands on a program.
fn run<W: Write>(out: &mut W, input: &[u8]) -> io::Result<()> {
    match report::begin(input) {
        Ok(mut device) => show(
            out,
            &mut device,
            report::ram_part(input),
            report::font_part(input),
        ),
        Err(refused) => {
            let mut text = [0u8; 16];
            let n = report::refusal_text(refused.refusal.number(), &mut text);
            out.write_all(written(&text, n))
        }
    }
}

// A frame that is started: the heading, the first and the last line, and the digest.
fn show<W: Write>(out: &mut W, device: &mut Device, ram: &[u8], font: &[u8]) -> io::Result<()> {
    let mut text = [0u8; 1024];
    let lines = device.frame.left;
    let n = report::heading(lines, device.width(), &mut text);
    out.write_all(written(&text, n))?;
    let mut sum = 0;
    for y in 0..lines {
        let n = report::next_text(device, ram, font, &mut text);
        let line = written(&text, n);
        if y == 0 || y == lines - 1 {
            out.write_all(line)?;
        }
        sum = test_script::mix_all(sum, line, DIGEST);
    }
    test_script::print_decimal(out, sum, b'\n')
}

// The text in a buffer; nothing where there is none.
fn written(text: &[u8], n: Option<usize>) -> &[u8] {
    test_script::first(text, n.unwrap_or(0))
}
