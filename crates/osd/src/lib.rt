#![tactic(auto)]
// The device for firmware to link: include/osd.h has each function as C sees it. The device's record crosses as 32 lent bytes, a feed's
// as 2, a font and its file as they are.
ghost use Rattle.std.specs.Prelude.{◌≡◌};
ghost use Rattle.refusals.specs.Refusals.{reply_of};
ghost use Rattle.layout.specs.Layout.{record_length};
ghost use Rattle.layout.specs.FeedLayout.{feed_length};
ghost use Rattle.interface.specs.Interface.{answer_of, fresh_on, bus_on, start_on, draw_on, cell_on, pixel_on, feed_fresh_on, feed_on, font_write_on, font_read_on};

use bus::Event;
use capture::Feed;
use device::Device;
use refusals::{Numbered, Refusal, Value};

// The longest chunk: a value has 16 bits.
const CHUNK_MAX: usize = 65534;

// Refusal 255, the interface's own.
const NOT_TAKEN: u32 = 0xFF0000;

// An answer in the number that C is given.
fn answer<T: Value + Copy, E: Numbered + Copy>(answer: Result<T, E>) -> u32
    ensures { result ≡ answer_of (reply_of T.own E.numbers answer) }
{
    interface::answer(refusals::refusal_of(answer), refusals::value_of(answer))
}

#[unsafe(no_mangle)]
pub extern "C" fn osd_device_len() -> u32
    ensures { result ≡ record_length }
{
    layout::DEVICE_LENGTH as u32
}

#[tactic(auto, unfolding(interface::specs::Interface::fresh_on))]
#[unsafe(no_mangle)]
pub extern "C" fn osd_fresh(device: &mut [u8]) -> u32
    ensures { record { device = device.new; answer = result } ≡ fresh_on device.old }
{
    if device.len() != layout::DEVICE_LENGTH {
        return NOT_TAKEN;
    }
    layout::write_device(device, Device::fresh());
    0
}

// A reset leaves a fresh device. RAM is not touched: none is lent.
#[unsafe(no_mangle)]
pub extern "C" fn osd_reset(device: &mut [u8]) -> u32
    ensures { record { device = device.new; answer = result } ≡ fresh_on device.old }
{
    osd_fresh(device)
}

// Of the record only the bus part and at most one register are read and written. Data bytes and fetches come most often, so they are
// looked for first.
#[unsafe(no_mangle)]
pub extern "C" fn osd_bus(device: &mut [u8], ram: &mut [u8], kind: u8, byte: u8) -> u32
    ensures { record { device = device.new; ram = ram.new; answer = result } ≡ bus_on device.old ram.old kind byte }
{
    if device.len() != layout::DEVICE_LENGTH {
        return NOT_TAKEN;
    }
    if kind > bus::STOP {
        return NOT_TAKEN;
    }
    if ram.len() != limits::RAM_LENGTH {
        return interface::refuse(Refusal::RamLength);
    }
    let state = device[layout::BUS_AT];
    if kind == bus::FETCH && state == layout::READING {
        return bus_bytes::read_next(device, ram);
    }
    if kind == bus::HOST_BYTE && state == layout::WRITING {
        return bus_bytes::write_next(device, ram, byte);
    }
    bus_bytes::hear(device, ram, Event::of_kind(kind, byte))
}

#[tactic(auto, unfolding(interface::specs::Interface::start_on, interface::specs::Interface::started_on))]
#[unsafe(no_mangle)]
pub extern "C" fn osd_frame_start(device: &mut [u8], lines: u32) -> u32
    ensures { record { device = device.new; answer = result } ≡ start_on device.old lines }
{
    if device.len() != layout::DEVICE_LENGTH {
        return NOT_TAKEN;
    }
    let mut next = layout::device_in(device);
    match next.start_frame(lines) {
        Ok(()) => {
            layout::write_start(device, next.next, next.frame);
            0
        }
        Err(refusal) => interface::refuse(refusal),
    }
}

#[tactic(auto, unfolding(interface::specs::Interface::draw_on, interface::specs::Interface::drawn_on))]
#[unsafe(no_mangle)]
pub extern "C" fn osd_draw<'a>(
    device: &mut [u8],
    ram: &'a [u8],
    font: &'a [u8],
    line: &mut [u8],
) -> u32
    ensures { record { device = device.new; line = line.new; answer = result } ≡ draw_on device.old ram.now font.now line.old }
{
    if device.len() != layout::DEVICE_LENGTH {
        return NOT_TAKEN;
    }
    let mut next = layout::device_in(device);
    match next.draw_line(ram, font, line) {
        Ok(cells) => {
            layout::write_frame(device, next.frame);
            u32::from(cells)
        }
        Err(refusal) => interface::refuse(refusal),
    }
}

#[tactic(auto, unfolding(interface::specs::Interface::cell_on))]
#[unsafe(no_mangle)]
pub extern "C" fn osd_cell(device: &[u8], ram: &[u8], cell: u32) -> u32
    ensures { result ≡ cell_on device.now ram.now cell }
{
    if device.len() != layout::DEVICE_LENGTH {
        return NOT_TAKEN;
    }
    answer(layout::device_in(device).ask(ram, cell))
}

// Of the record only the registers are looked at.
#[tactic(auto, unfolding(interface::specs::Interface::pixel_on))]
#[unsafe(no_mangle)]
pub extern "C" fn osd_pixel<'a>(
    device: &[u8],
    ram: &'a [u8],
    font: &'a [u8],
    lines: u32,
    frame: u32,
    x: u32,
    y: u32,
) -> u32
    ensures { result ≡ pixel_on device.now ram.now font.now lines frame x y }
{
    if device.len() != layout::DEVICE_LENGTH {
        return NOT_TAKEN;
    }
    answer(pixel::ask(&layout::device_in(device), ram, font, lines, frame, x, y))
}

#[unsafe(no_mangle)]
pub extern "C" fn osd_feed_len() -> u32
    ensures { result ≡ feed_length }
{
    layout::FEED_LENGTH as u32
}

// Makes a feed anew.
#[tactic(auto, unfolding(interface::specs::Interface::feed_fresh_on))]
#[unsafe(no_mangle)]
pub extern "C" fn osd_feed_fresh(feed: &mut [u8]) -> u32
    ensures { record { feed = feed.new; answer = result } ≡ feed_fresh_on feed.old }
{
    if feed.len() != layout::FEED_LENGTH {
        return NOT_TAKEN;
    }
    layout::write_feed(feed, Feed::fresh());
    0
}

#[unsafe(no_mangle)]
pub extern "C" fn osd_feed(
    device: &mut [u8],
    feed: &mut [u8],
    ram: &mut [u8],
    chunk: &[u8],
    out: &mut [u8],
) -> u32
    ensures { record { device = device.new; feed = feed.new; ram = ram.new; out = out.new; answer = result } ≡ feed_on device.old feed.old ram.old chunk.now out.old }
{
    if device.len() != layout::DEVICE_LENGTH {
        return NOT_TAKEN;
    }
    if feed.len() != layout::FEED_LENGTH {
        return NOT_TAKEN;
    }
    if chunk.len() > CHUNK_MAX {
        return NOT_TAKEN;
    }
    let before = layout::feed_in(feed);
    match before.test(ram.len(), chunk.len(), out.len()) {
        Ok(()) => {
            let taken = feed_bytes::take_events(device, ram, chunk, out, before);
            layout::write_feed(feed, taken.feed);
            feed_bytes::fed(taken.feed, taken.written)
        }
        Err(refusal) => interface::refuse(refusal),
    }
}

#[tactic(auto, unfolding(interface::specs::Interface::font_write_on))]
#[unsafe(no_mangle)]
pub extern "C" fn osd_font_write(font: &[u8], file: &mut [u8]) -> u32
    ensures { record { file = file.new; answer = result } ≡ font_write_on font.now file.old }
{
    answer(font_file::write(font, file))
}

#[tactic(auto, unfolding(interface::specs::Interface::font_read_on))]
#[unsafe(no_mangle)]
pub extern "C" fn osd_font_read(file: &[u8], font: &mut [u8]) -> u32
    ensures { record { font = font.new; answer = result } ≡ font_read_on file.now font.old }
{
    answer(font_file::read(file, font))
}
