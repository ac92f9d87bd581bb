#![tactic(auto)]
// A logger's capture, fed in chunks: two bytes an event go in, two bytes for each finished event come out.
ghost use Rattle.std.specs.Prelude.{◌≡◌, false, ◌+◌, ◌*◌, ◌^◌, ◌≤◌, ◌<◌, length};
ghost use Rattle.std.proofs.lemmas.List.Edits.{sets};
ghost use Rattle.refusals.specs.Refusals.{value_in};
ghost use Rattle.bus.specs.Bus.{bus_reply};
ghost use Rattle.capture.specs.Capture.{fresh_feed, is_shut, held_bytes, held_kind, would_complete, output_of, feed_verdict, verdict_in, chip, chunk_fed, feed_chunk, feed_reply};
ghost use Rattle.capture.specs.Places.{kind_at, feed_at};

use bus::Event;
use device::Device;
use refusals::{Numbered, Refusal};

#[derive(Clone, Copy, Debug, PartialEq, Eq)]
pub enum Feed {
    // nothing held
    Open,
    // half an event: its kind
    Half(u8),
    // after a bad kind, until the feed is made anew
    Shut,
}

// Why a chunk is refused, and the number of output bytes written all the same: before a bad kind, else 0.
#[derive(Clone, Copy, Debug, PartialEq, Eq)]
pub struct FeedRefusal {
    pub refusal: Refusal,
    pub written: usize,
}

// Refused before any event.
impl From<Refusal> for FeedRefusal {
    ghost from_gives = { λ r f. f ≡ record { refusal = r; written = value_in r } };

    fn from(refusal: Refusal) -> FeedRefusal {
        FeedRefusal {
            refusal,
            written: refusal.value() as usize,
        }
    }
}

impl Feed {
    // Made anew.
    pub fn fresh() -> Feed
        ensures { result ≡ fresh_feed }
    {
        Feed::Open
    }

    pub fn shut(self) -> bool
        ensures { result ≡ is_shut self }
    {
        matches!(self, Feed::Shut)
    }

    // 1 while half an event is held.
    pub fn held_bytes(self) -> usize
        ensures { result ≡ held_bytes self }
    {
        match self {
            Feed::Half(_) => 1,
            Feed::Open | Feed::Shut => 0,
        }
    }

    // The kind that is held, else 0.
    pub fn held_kind(self) -> u8
        ensures { result ≡ held_kind self }
    {
        match self {
            Feed::Half(kind) => kind,
            Feed::Open | Feed::Shut => 0,
        }
    }

    // The tests before any event, by the lengths that are lent. Refusals 1, 9, 10.
    #[tactic(auto, unfolding(crate::specs::Capture::feed_verdict))]
    pub fn test(self, ram: usize, chunk: usize, out: usize) -> Result<(), Refusal>
        requires { chunk < 2 ^ 63 }
        ensures { verdict_in result ≡ feed_verdict self ram chunk out }
    {
        if ram != limits::RAM_LENGTH {
            return Err(Refusal::RamLength);
        }
        if self.shut() {
            return Err(Refusal::FeedShut);
        }
        if out < 2 * ((self.held_bytes() + chunk) / 2) {
            return Err(Refusal::OutputRoom);
        }
        Ok(())
    }

    // Takes a chunk; answers the number of output bytes written. Refusals 1, 9, 10; then 9 for a bad kind.
    #[tactic(auto, using(crate::proofs::Laws::passed_takes), unfolding(crate::specs::Capture::feed_by, crate::specs::Capture::feed_chunk))]
    pub fn take(
        &mut self,
        device: &mut Device,
        ram: &mut [u8],
        chunk: &[u8],
        out: &mut [u8],
    ) -> Result<usize, FeedRefusal>
        ensures { record { chip = chip device.new ram.new; feed = self.new; out = out.new; reply = feed_reply result } ≡ feed_chunk (chip device.old ram.old) self.old chunk.now out.old }
    {
        self.test(ram.len(), chunk.len(), out.len())?;
        self.take_events(device, ram, chunk, out)
    }

    fn take_events(
        &mut self,
        device: &mut Device,
        ram: &mut [u8],
        chunk: &[u8],
        out: &mut [u8],
    ) -> Result<usize, FeedRefusal>
        requires self_value { is_shut self.old ≡ false }
        requires chunk_in_bounds { 2 * would_complete self.old (length chunk.now) ≤ length out.old }
        ensures { record { chip = chip device.new ram.new; feed = self.new; out = out.new; reply = feed_reply result } ≡ chunk_fed (chip device.old ram.old) self.old chunk.now out.old }
    {
        let mut written = 0;
        for byte in chunk {
            match *self {
                Feed::Open => {
                    *self = Feed::Half(*byte);
                }
                Feed::Half(kind) => {
                    if kind > bus::STOP {
                        *self = Feed::Shut;
                        return Err(FeedRefusal {
                            refusal: Refusal::FeedShut,
                            written,
                        });
                    }
                    let answer = device.hear(ram, Event::of_kind(kind, *byte));
                    put_output(out, written, answer);
                    written += 2;
                    *self = Feed::Open;
                }
                // a shut feed takes none
                Feed::Shut => {}
            }
        }
        Ok(written)
    }
}

// Two bytes for an event: 1 or 0 for acknowledged, then the byte.
fn put_output(out: &mut [u8], n: usize, answer: Result<u8, Refusal>)
    requires { n + 1 < length out.old }
    ensures { out.new ≡ sets out.old n (output_of (bus_reply answer)) }
{
    out[n] = u8::from(answer.is_ok());
    out[n + 1] = answer.unwrap_or_else(|refusal| refusal.value());
}

// The kind of the event that the byte at a place completes: it stands before it, or was held.
pub fn kind_at(chunk: &[u8], held: u8, i: usize) -> u8
    requires { i ≤ length chunk.now }
    ensures { result ≡ kind_at chunk.now held i }
{
    if i == 0 {
        return held;
    }
    chunk[i - 1]
}

// The feed where the byte at a place would complete an event: behind the chunk's end its kind has come, or not yet.
pub fn feed_at(chunk: &[u8], held: u8, i: usize) -> Feed
    ensures { result ≡ feed_at chunk.now held i }
{
    if i > chunk.len() {
        return Feed::Open;
    }
    Feed::Half(kind_at(chunk, held, i))
}

// The refusal's number in a feed's answer; 0 where the chunk is taken to its end.
pub fn refusal_of(answer: Result<usize, FeedRefusal>) -> u8
    ensures { result ≡ (feed_reply answer).refusal }
{
    match answer {
        Ok(_) => 0,
        Err(refused) => refused.refusal.number(),
    }
}

// The number of output bytes written.
pub fn value_of(answer: Result<usize, FeedRefusal>) -> usize
    ensures { result ≡ (feed_reply answer).value }
{
    match answer {
        Ok(n) => n,
        Err(refused) => refused.written,
    }
}
