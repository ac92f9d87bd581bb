#![tactic(auto)]
// The device record in 32 lent bytes, as parts at offsets, and the feed's record in 2 (include/osd.h has the tables). Any bytes are some
// record.
ghost use Rattle.std.specs.Prelude.{◌≡◌, cond, ◌∷◌, ◌+◌, ◌≤◌, ◌<◌, length};
ghost use Rattle.buffers.specs.Buffers.{word_bytes};
ghost use Rattle.layout.specs.Layout.{bus_at, bus_length, registers_length, frame_length, record_length, put, state_number, held_high, state_of, bus_in, registers_in, packed, strip_in, frame_with, frame_in, put_bus, put_registers, put_next, put_frame, device_bytes, device_in};
ghost use Rattle.layout.specs.FeedLayout.{feed_length, feed_state, feed_bytes, feed_of, feed_in};

use bus::{Bus, BusState};
use capture::Feed;
use device::{Device, Frame};
use raster::ScanLine;
use registers::Registers;
use walk::{Strip, Walk};

pub const DEVICE_LENGTH: usize = 32;

// Where each part begins, and its length.
pub const BUS_AT: usize = 0;

const BUS_LENGTH: usize = 4;

pub const REGISTERS_AT: usize = 4;

const REGISTERS_LENGTH: usize = 16;

const NEXT_AT: usize = 20;

const FRAME_AT: usize = 21;

const FRAME_LENGTH: usize = 11;

// A strip as its bytes have it.
#[derive(Clone, Copy)]
pub struct Packed {
    // 0 spacing; 1 characters, with 2 for ZY and 4 for DE; 8 more with the walk's `plain`
    pub kind: u8,
    // spacing: lines left; characters: height
    pub lines: u8,
    pub address: u16,
    pub line: u16,
}

// ---- the bus

// States by their numbers, for code that looks at the byte alone.
pub const DEAF: u8 = 1;

pub const WRITING: u8 = 5;

pub const READING: u8 = 6;

fn state_of(number: u8, held: u8) -> BusState
    ensures { result ≡ state_of number held }
{
    match number {
        DEAF => BusState::Deaf,
        2 => BusState::Slave,
        3 => BusState::High,
        4 => BusState::Low(held),
        WRITING => BusState::Write,
        READING => BusState::Read,
        _ => BusState::Idle,
    }
}

pub fn state_number(state: BusState) -> u8
    ensures { result ≡ state_number state }
{
    match state {
        BusState::Idle => 0,
        BusState::Deaf => DEAF,
        BusState::Slave => 2,
        BusState::High => 3,
        BusState::Low(_) => 4,
        BusState::Write => WRITING,
        BusState::Read => READING,
    }
}

fn held_high(state: BusState) -> u8
    ensures { result ≡ held_high state }
{
    match state {
        BusState::Low(held) => held,
        _ => 0,
    }
}

fn bus_in(bytes: &[u8]) -> Bus
    requires { length bytes.now ≡ bus_length }
    ensures { result ≡ bus_in bytes.now }
{
    Bus {
        state: state_of(bytes[0], bytes[1]),
        counter: buffers::word_at(bytes, 2),
    }
}

pub fn bus_of(device: &[u8]) -> Bus
    requires { length device.now ≡ record_length }
    ensures { result ≡ (device_in device.now).bus }
{
    bus_in(&device[BUS_AT..BUS_AT + BUS_LENGTH])
}

pub fn counter_of(device: &[u8]) -> u16
    requires { length device.now ≡ record_length }
    ensures { result ≡ (device_in device.now).bus.counter }
{
    buffers::word_at(&device[BUS_AT..BUS_AT + BUS_LENGTH], 2)
}

// The bus as numbers, put in its place.
fn put_bus(device: &mut [u8], number: u8, held: u8, counter: u16)
    requires { length device.old ≡ record_length }
    ensures { device.new ≡ put bus_at (number ∷ held ∷ word_bytes counter) device.old }
{
    let [low, high] = counter.to_le_bytes();
    device[BUS_AT] = number;
    device[BUS_AT + 1] = held;
    device[BUS_AT + 2] = low;
    device[BUS_AT + 3] = high;
}

pub fn write_bus(device: &mut [u8], bus: Bus)
    requires { length device.old ≡ record_length }
    ensures { device.new ≡ put_bus bus device.old }
{
    put_bus(
        device,
        state_number(bus.state),
        held_high(bus.state),
        bus.counter,
    );
}

// ---- the registers

fn registers_in(bytes: &[u8]) -> Registers
    requires { length bytes.now ≡ registers_length }
    ensures { result ≡ registers_in bytes.now }
{
    let mut copy = [0; REGISTERS_LENGTH];
    buffers::copy(bytes, &mut copy);
    Registers { bytes: copy }
}

fn registers_of(device: &[u8]) -> Registers
    requires { length device.now ≡ record_length }
    ensures { result ≡ (device_in device.now).registers }
{
    registers_in(&device[REGISTERS_AT..REGISTERS_AT + REGISTERS_LENGTH])
}

fn write_registers(device: &mut [u8], registers: Registers)
    requires { length device.old ≡ record_length }
    ensures { device.new ≡ put_registers registers device.old }
{
    buffers::put(device, REGISTERS_AT, &registers.bytes);
}

// ---- the frame

fn strip_in(kind: u8, lines: u8, address: u16, line: u16) -> Strip
    ensures { result ≡ strip_in kind lines address line }
{
    if kind % 2 == 0 {
        return Strip::Spacing { left: lines };
    }
    Strip::Characters {
        address,
        height: lines,
        zoom: kind / 2 % 2 == 1,
        enabled: kind / 4 % 2 == 1,
        line: ScanLine(line),
    }
}

fn frame_in(bytes: &[u8]) -> Frame
    requires { length bytes.now ≡ frame_length }
    ensures { result ≡ frame_in bytes.now }
{
    let address = buffers::word_at(bytes, 7);
    let line = buffers::word_at(bytes, 9);
    Frame {
        left: buffers::word_at(bytes, 1),
        number: bytes[0],
        walk: Walk {
            descriptor: buffers::word_at(bytes, 3),
            strip: strip_in(bytes[5], bytes[6], address, line),
            plain: bytes[5] / 8 % 2 == 1,
        },
    }
}

fn frame_of(device: &[u8]) -> Frame
    requires { length device.now ≡ record_length }
    ensures { result ≡ (device_in device.now).frame }
{
    frame_in(&device[FRAME_AT..FRAME_AT + FRAME_LENGTH])
}

fn kind_of(zoom: bool, enabled: bool) -> u8
    ensures { (result ≡ 1 + cond zoom 2 0 + cond enabled 4 0) × (result < 8) }
{
    1 + 2 * u8::from(zoom) + 4 * u8::from(enabled)
}

fn plain_bit(plain: bool) -> u8
    ensures { (result ≡ cond plain 8 0) × (result ≤ 8) }
{
    8 * u8::from(plain)
}

fn pack(plain: bool, strip: Strip) -> Packed
    ensures { result ≡ packed plain strip }
{
    match strip {
        Strip::Spacing { left } => Packed {
            kind: plain_bit(plain),
            lines: left,
            address: 0,
            line: 0,
        },
        Strip::Characters {
            address,
            height,
            zoom,
            enabled,
            line,
        } => Packed {
            kind: kind_of(zoom, enabled) + plain_bit(plain),
            lines: height,
            address,
            line: line.0,
        },
    }
}

// With its strip as numbers.
fn frame_bytes(frame: Frame, strip: Packed) -> [u8; FRAME_LENGTH]
    ensures { result ≡ frame_with frame strip }
{
    let [left, left_high] = frame.left.to_le_bytes();
    let [descriptor, descriptor_high] = frame.walk.descriptor.to_le_bytes();
    let [address, address_high] = strip.address.to_le_bytes();
    let [line, line_high] = strip.line.to_le_bytes();
    [
        frame.number,
        left,
        left_high,
        descriptor,
        descriptor_high,
        strip.kind,
        strip.lines,
        address,
        address_high,
        line,
        line_high,
    ]
}

pub fn write_frame(device: &mut [u8], frame: Frame)
    requires { length device.old ≡ record_length }
    ensures { device.new ≡ put_frame frame device.old }
{
    let bytes = frame_bytes(frame, pack(frame.walk.plain, frame.walk.strip));
    buffers::put(device, FRAME_AT, &bytes);
}

// The frame with the number that the next one takes.
pub fn write_start(device: &mut [u8], next: u8, frame: Frame)
    requires { length device.old ≡ record_length }
    ensures { device.new ≡ put_frame frame (put_next next device.old) }
{
    device[NEXT_AT] = next;
    write_frame(device, frame);
}

// ---- the whole record

pub fn device_in(device: &[u8]) -> Device
    requires { length device.now ≡ record_length }
    ensures { result ≡ device_in device.now }
{
    Device {
        bus: bus_of(device),
        registers: registers_of(device),
        frame: frame_of(device),
        next: device[NEXT_AT],
    }
}

pub fn write_device(device: &mut [u8], whole: Device)
    requires { length device.old ≡ record_length }
    ensures { device.new ≡ device_bytes whole }
{
    write_bus(device, whole.bus);
    write_registers(device, whole.registers);
    write_start(device, whole.next, whole.frame);
}

// ---- the feed's record, in 2 bytes of its own

pub const FEED_LENGTH: usize = 2;

fn feed_of(state: u8, held: u8) -> Feed
    ensures { result ≡ feed_of state held }
{
    match state {
        0 => Feed::Open,
        1 => Feed::Half(held),
        _ => Feed::Shut,
    }
}

pub fn feed_in(feed: &[u8]) -> Feed
    requires { length feed.now ≡ feed_length }
    ensures { result ≡ feed_in feed.now }
{
    feed_of(feed[0], feed[1])
}

fn feed_state(feed: Feed) -> u8
    ensures { result ≡ feed_state feed }
{
    match feed {
        Feed::Open => 0,
        Feed::Half(_) => 1,
        Feed::Shut => 2,
    }
}

pub fn write_feed(bytes: &mut [u8], feed: Feed)
    requires { length bytes.old ≡ feed_length }
    ensures { bytes.new ≡ feed_bytes feed }
{
    bytes[0] = feed_state(feed);
    bytes[1] = feed.held_kind();
}
