#![tactic(auto)]
// Feeds captures to a device, in chunks, and prints every answer. Standard input: steps; the first byte of each says which it is.
//
//  0              a fresh device, RAM all zero, a feed made anew; 1,024 bytes of RAM are lent from here on
//  1              a feed made anew
//  2 c            the RAM lent from here on: 1,024 bytes (c is 0), none (1), 1,023 (2) or 1,025 (3)
//  3 r n BYTES    a chunk of n bytes; its output has r bytes, each EE before the call
//  4 lo hi BYTES  a capture of lo + 256 * hi bytes, on a fresh device: whole, and then cut at every place with an empty chunk between.
//                 All is fresh again behind it
//
// The stored output comes from tests/model.py, which was written from request K1's words and not from this code
// (tests/test_feed.py has the steps).
ghost use Rattle.std.specs.Prelude.{◌≡◌, ◌*◌, ◌<◌, length, get_or, drop};
ghost use Rattle.capture.specs.Capture.{would_complete};

use capture::{Feed, FeedRefusal};
use device::Device;
use std::io;
use std::io::Write;
use test_script::Numbers;

// Cuts are shown one by one where a capture has so many bytes at the most.
const SHOWN_CUTS: usize = 40;

// What an output holds before a chunk.
const MARKER: u8 = 0xEE;

const DIGEST: Numbers = Numbers {
    factor: 65599,
    more: 1,
    last: 4294967290,
};

// A step with its bytes, fewer where the script ends in them.
#[derive(Clone, Copy)]
enum Step<'a> {
    Fresh,
    FreshFeed,
    // the choice of test_script::length
    Lend(u8),
    // how many bytes its output has, and the chunk
    Chunk(u8, &'a [u8]),
    Capture(&'a [u8]),
    Nothing,
}

// What a host keeps from call to call.
#[derive(Drop)]
struct Host {
    device: Device,
    // one byte more than a device has, to be lent too much of it
    ram: [u8; 1025],
    // how much of the RAM is lent: the choice of test_script::length
    lent: u8,
    feed: Feed,
    // the digest of all bytes that its chunks wrote
    written: u64,
}

// What a capture leaves: the feed, and the digests of output and RAM.
#[derive(Clone, Copy, Debug, PartialEq, Eq)]
struct Left {
    feed: Feed,
    written: u64,
    ram: u64,
}

// A capture in three chunks: what each answers, and what the last one leaves.
#[derive(Clone, Copy)]
struct Cut {
    answers: [Result<usize, FeedRefusal>; 3],
    left: Left,
}

fn main(rt: HostRuntime) -> io::Result<()> {
    let mut script = [0u8; 8192];
    let n = streams::read_full(&mut rt.stdin(), &mut script)?;
    run(&mut rt.stdout(), &script[..n])
}

// ---- steps

fn run<W: Write>(out: &mut W, script: &[u8]) -> io::Result<()> {
    let mut host = Host::fresh();
    let mut steps = script;
    while !steps.is_empty() {
        let (step, rest) = split(steps);
        take_step(out, &mut host, step)?;
        steps = rest;
    }
    Ok(())
}

// The first of the steps, and those behind it.
fn split(steps: &[u8]) -> (Step<'_>, &[u8])
    requires { 0 < length steps.now }
    ensures { length result.1.now < length steps.now }
{
    let bytes = behind(steps, 3);
    let (a, b) = (byte_at(steps, 1), byte_at(steps, 2));
    match byte_at(steps, 0) {
        0 => (Step::Fresh, behind(steps, 1)),
        1 => (Step::FreshFeed, behind(steps, 1)),
        2 => (Step::Lend(a), behind(steps, 2)),
        3 => {
            let n = usize::from(b);
            let chunk = test_script::first(bytes, n);
            (Step::Chunk(a, chunk), behind(bytes, n))
        }
        4 => {
            let n = usize::from(u16::from_le_bytes([a, b]));
            (
                Step::Capture(test_script::first(bytes, n)),
                behind(bytes, n),
            )
        }
        _ => (Step::Nothing, behind(steps, 1)),
    }
}

fn take_step<W: Write>(out: &mut W, host: &mut Host, step: Step<'_>) -> io::Result<()> {
    match step {
        Step::Fresh => *host = Host::fresh(),
        Step::FreshFeed => host.feed = Feed::fresh(),
        Step::Lend(choice) => host.lent = choice,
        Step::Chunk(room, chunk) => take_chunk(out, host, chunk, room)?,
        Step::Capture(capture) => {
            take_capture(out, capture)?;
            *host = Host::fresh();
        }
        Step::Nothing => {}
    }
    Ok(())
}

// The byte at a place, 0 where there is none.
fn byte_at(bytes: &[u8], i: usize) -> u8
    ensures { result ≡ get_or bytes.now i 0 }
{
    if i < bytes.len() { bytes[i] } else { 0 }
}

// The bytes behind the first n.
fn behind(bytes: &[u8], n: usize) -> &[u8]
    ensures { result.now ≡ drop n bytes.now }
{
    &bytes[n.min(bytes.len())..]
}

// ---- the host

impl Host {
    fn fresh() -> Host {
        let mut ram = [0; 1025];
        ram[..1024].copy_from_slice(&bus::fresh_ram());
        Host {
            device: Device::fresh(),
            ram,
            lent: 0,
            feed: Feed::fresh(),
            written: 0,
        }
    }

    fn take(&mut self, chunk: &[u8], out: &mut [u8]) -> Result<usize, FeedRefusal> {
        let lent = usize::from(test_script::length(1024, self.lent));
        let ram = test_script::first_mut(&mut self.ram, lent);
        let answer = self.feed.take(&mut self.device, ram, chunk, out);
        let written = test_script::first(out, capture::value_of(answer));
        self.written = test_script::mix_all(self.written, written, DIGEST);
        answer
    }

    // With just the room that the chunk needs.
    fn take_exactly(&mut self, chunk: &[u8]) -> Result<usize, FeedRefusal> {
        let mut space = [MARKER; 8192];
        let room = room_for(self.feed, chunk);
        self.take(chunk, test_script::first_mut(&mut space, room))
    }

    fn left(&self) -> Left {
        Left {
            feed: self.feed,
            written: self.written,
            ram: test_script::mix_all(0, test_script::first(&self.ram, 1024), DIGEST),
        }
    }
}

// Two bytes for each event that the chunk would complete.
fn room_for(feed: Feed, chunk: &[u8]) -> usize
    ensures { result ≡ 2 * would_complete feed (length chunk.now) }
{
    2 * ((feed.held_bytes() + chunk.len()) / 2)
}

// ---- a chunk

fn take_chunk<W: Write>(out: &mut W, host: &mut Host, chunk: &[u8], room: u8) -> io::Result<()> {
    let mut space = [MARKER; 255];
    let written = test_script::first_mut(&mut space, usize::from(room));
    let answer = host.take(chunk, written);
    say(out, b"chunk ", chunk.len())?;
    say(out, b" room ", usize::from(room))?;
    show_answer(out, answer)?;
    show_feed(out, host.feed)?;
    out.write_all(b" out ")?;
    for byte in written.iter() {
        show_byte(out, *byte)?;
    }
    out.write_all(b"\n")
}

// ---- a capture

// Whole, and then in every cut.
fn take_capture<W: Write>(out: &mut W, capture: &[u8]) -> io::Result<()> {
    let whole = feed_whole(out, capture)?;
    let cuts = capture.len() + 1;
    let mut same = 0;
    for place in 0..cuts {
        let cut = feed_cut(capture, place);
        if capture.len() <= SHOWN_CUTS {
            show_cut(out, place, cut)?;
        }
        same += usize::from(cut.left == whole);
    }
    say(out, b"cuts ", cuts)?;
    say(out, b": ", same)?;
    out.write_all(b" as the whole\n")
}

fn feed_whole<W: Write>(out: &mut W, capture: &[u8]) -> io::Result<Left> {
    let mut host = Host::fresh();
    let answer = host.take_exactly(capture);
    let left = host.left();
    say(out, b"capture ", capture.len())?;
    show_answer(out, answer)?;
    show_left(out, left)?;
    Ok(left)
}

// Up to a place, nothing, and from that place on.
fn feed_cut(capture: &[u8], place: usize) -> Cut {
    let mut host = Host::fresh();
    let head = host.take_exactly(test_script::first(capture, place));
    let empty = host.take_exactly(b"");
    let tail = host.take_exactly(behind(capture, place));
    Cut {
        answers: [head, empty, tail],
        left: host.left(),
    }
}

// ---- what is printed

fn say<W: Write>(out: &mut W, words: &[u8], number: usize) -> io::Result<()> {
    out.write_all(words)?;
    streams::write_decimal(out, number as u64)
}

fn show_answer<W: Write>(out: &mut W, answer: Result<usize, FeedRefusal>) -> io::Result<()> {
    say(out, b": refusal ", usize::from(capture::refusal_of(answer)))?;
    say(out, b" value ", capture::value_of(answer))
}

fn show_feed<W: Write>(out: &mut W, feed: Feed) -> io::Result<()> {
    let state = match feed {
        Feed::Open => 0,
        Feed::Half(_) => 1,
        Feed::Shut => 2,
    };
    say(out, b" feed ", state)?;
    out.write_all(b" ")?;
    show_byte(out, feed.held_kind())
}

fn show_left<W: Write>(out: &mut W, left: Left) -> io::Result<()> {
    let Left { feed, written, ram } = left;
    show_feed(out, feed)?;
    out.write_all(b" out ")?;
    test_script::print_hex(out, written, 8, b' ')?;
    out.write_all(b"ram ")?;
    test_script::print_hex(out, ram, 8, b'\n')
}

fn show_cut<W: Write>(out: &mut W, place: usize, cut: Cut) -> io::Result<()> {
    say(out, b"cut ", place)?;
    let mut before = b": ";
    for answer in cut.answers {
        say(out, before, usize::from(capture::refusal_of(answer)))?;
        say(out, b" ", capture::value_of(answer))?;
        before = b", ";
    }
    out.write_all(b"\n")
}

fn show_byte<W: Write>(out: &mut W, byte: u8) -> io::Result<()> {
    let mut text = [0u8; 2];
    test_script::hex_digits(u64::from(byte), &mut text);
    out.write_all(&text)
}
