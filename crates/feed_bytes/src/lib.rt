#![tactic(auto)]
// The events of a chunk on the device record's lent bytes, in place. Data bytes and fetches, nearly all of a capture's events, go in runs.
ghost use Rattle.std.specs.Prelude.{◌≡◌, false, ◌+◌, ◌*◌, ◌≤◌, ◌<◌, ℕ, List, length};
ghost use Rattle.std.proofs.lemmas.List.Edits.{sets};
ghost use Rattle.limits.specs.Limits.{ram_length, address_space};
ghost use Rattle.bus.specs.declared.BusState.{BusState};
ghost use Rattle.bus.specs.declared.BusState.TheVariants.{Write, Read};
ghost use Rattle.capture.specs.Capture.{is_shut, would_complete, taken_reply, play_chunk};
ghost use Rattle.layout.specs.Layout.{record_length, put_bus};
ghost use Rattle.interface.specs.Interface.{answer_of, BusDone, chunk_max, lent, bus_calls};
ghost use Rattle.feed_bytes.specs.Turns.{output_in, took, Place, Ran};
ghost use Rattle.feed_bytes.specs.Events.{stores, loads, RunLaws};
ghost use Rattle.feed_bytes.specs.Laws.{stores_laws, loads_laws};

use bus::{Bus, BusState, Event};
use capture::Feed;
use refusals::{Numbered, Refusal};

// The feed after a chunk, and the number of output bytes that its events wrote.
#[derive(Clone, Copy)]
pub struct Taken {
    pub feed: Feed,
    pub written: u16,
}

// Two bytes for an event's answer: 1 or 0 for acknowledged, then the byte.
fn put_output(out: &mut [u8], n: usize, answer: u32)
    requires { n + 1 < length out.old }
    ensures { out.new ≡ sets out.old n (output_in answer) }
{
    out[n] = u8::from(answer < interface::VALUE_BOUND);
    out[n + 1] = (answer % 256) as u8;
}

// The end of a run: the bus part is written once, with the counter that was kept apart.
fn end_run(device: &mut [u8], state: BusState, counter: u16)
    requires { length device.old ≡ record_length }
    ensures { device.new ≡ put_bus (record { state = state; counter = counter }) device.old }
{
    layout::write_bus(device, Bus { state, counter });
}

// Events of one kind that the bus hears in one state, as a run of them has them: what an event does apart from the bus part, which counts
// the address up, and the byte that it answers.
trait EventKind {
    ghost STATE: { BusState };

    ghost KIND: { ℕ };

    ghost does: { ℕ → ℕ → List ℕ → List ℕ → BusDone };

    ghost laws: { RunLaws STATE KIND does };

    const STATE: BusState;

    const KIND: u8;

    fn hear(device: &mut [u8], ram: &mut [u8], address: u16, x: u8) -> u8
        requires { (length device.old ≡ record_length) × (length ram.old ≡ ram_length) × (address < address_space) }
        ensures device { device.new ≡ (does address x device.old ram.old).device }
        ensures ram { ram.new ≡ (does address x device.old ram.old).ram }
        ensures answer { result ≡ (does address x device.old ram.old).answer };
}

// Data bytes, each stored.
struct Writes;

impl EventKind for Writes {
    ghost STATE = { Write };

    ghost KIND = { 1 };

    ghost does = { stores };

    ghost laws = { stores_laws };

    const STATE: BusState = BusState::Write;

    const KIND: u8 = bus::HOST_BYTE;

    fn hear(device: &mut [u8], ram: &mut [u8], address: u16, x: u8) -> u8 {
        bus_bytes::store(device, ram, address, x);
        0
    }
}

// Fetches, each answered by the byte at the address.
struct Reads;

impl EventKind for Reads {
    ghost STATE = { Read };

    ghost KIND = { 2 };

    ghost does = { loads };

    ghost laws = { loads_laws };

    const STATE: BusState = BusState::Read;

    const KIND: u8 = bus::FETCH;

    fn hear(device: &mut [u8], ram: &mut [u8], address: u16, _x: u8) -> u8 {
        bus_bytes::load(device, ram, address)
    }
}

// A run, where a byte at place i would complete the next event; answers the place behind the run. Most of a capture's events lie in runs, so
// the counter is kept apart from the record until the run ends. It is gone through by the places of kinds, at 32 bits, which small
// processors count by in one instruction; two places a turn, up to a kind that ends it, so it is no `for`.
fn run<K: EventKind>(
    device: &mut [u8],
    ram: &mut [u8],
    chunk: &[u8],
    out: &mut [u8],
    i: usize,
    first: usize,
) -> usize
    requires device_len { (length device.old ≡ record_length) × (length ram.old ≡ ram_length) × (length chunk.now ≤ chunk_max) }
    requires place { Place chunk.now out.old first i }
    ensures { Ran chunk.now first (lent device.old ram.old) out.old i (lent device.new ram.new) out.new result }
{
    if device[layout::BUS_AT] != layout::state_number(K::STATE) {
        return i;
    }
    if i >= chunk.len() {
        return i;
    }
    if chunk[i - 1] != K::KIND {
        return i;
    }
    let mut address = layout::counter_of(device) % limits::ADDRESS_SPACE;
    let last = (chunk.len() - 1) as u32;
    let base = first as u32;
    let mut k = (i - 1) as u32;
    while k < last {
        if chunk[k as usize] != K::KIND {
            end_run(device, K::STATE, address);
            return (k + 1) as usize;
        }
        let byte = K::hear(device, ram, address, chunk[(k + 1) as usize]);
        out[(k + 1 - base) as usize] = 1;
        out[(k + 2 - base) as usize] = byte;
        address = bus::next_address(address);
        k += 2;
    }
    end_run(device, K::STATE, address);
    (k + 1) as usize
}

// A turn is an event, and the run behind it: i is the place of the byte that completes it. Its kind stands before that byte, or is held.
pub fn take_events(
    device: &mut [u8],
    ram: &mut [u8],
    chunk: &[u8],
    out: &mut [u8],
    feed: Feed,
) -> Taken
    requires device_len { (length device.old ≡ record_length) × (length ram.old ≡ ram_length) × (length chunk.now ≤ chunk_max) }
    requires feed_value { is_shut feed ≡ false }
    requires chunk_in_bounds { 2 * would_complete feed (length chunk.now) ≤ length out.old }
    ensures { took result device.new ram.new out.new ≡ play_chunk bus_calls (lent device.old ram.old) feed chunk.now out.old }
{
    let held = feed.held_kind();
    let first = 1 - feed.held_bytes();
    let mut i = first;
    while i < chunk.len() {
        let kind = capture::kind_at(chunk, held, i);
        if kind > bus::STOP {
            return Taken {
                feed: Feed::Shut,
                written: (i - first) as u16,
            };
        }
        let answer = bus_bytes::hear(device, ram, Event::of_kind(kind, chunk[i]));
        put_output(out, i - first, answer);
        i = run::<Writes>(device, ram, chunk, out, i + 2, first);
        i = run::<Reads>(device, ram, chunk, out, i, first);
    }
    Taken {
        feed: capture::feed_at(chunk, held, i),
        written: (i - first) as u16,
    }
}

pub fn fed(feed: Feed, written: u16) -> u32
    ensures { result ≡ answer_of (taken_reply feed written) }
{
    match feed {
        Feed::Open | Feed::Half(_) => interface::answer(0, written),
        Feed::Shut => interface::answer(Refusal::FeedShut.number(), written),
    }
}
