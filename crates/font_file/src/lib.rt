#![tactic(auto)]
// Font files (document 02, K8): a font in ten blocks that can be checked. specs/FontFile.antt has the format.
ghost use Rattle.std.specs.Prelude.{◌≡◌, ◌+◌, ◌≤◌, ◌<◌, length, take, drop};
ghost use Rattle.std.proofs.lemmas.List.Edits.{sets};
ghost use Rattle.limits.specs.Limits.{font_length, font_file_length};
ghost use Rattle.font_file.specs.FontFile.{block_count, block_length, checked_length, heading_length, payload_length, used_length, checks_of, content_of, with_checks, file_of, checks_right, all_zero, format_right, block_test, blocks_test, font_in, file_reply, write_font, read_font};
ghost use Rattle.font_file.specs.Columns.{column_count, row_count, column_of};

use refusals::FileRefusal;

const BLOCKS: u8 = 10;

const BLOCK_LENGTH: usize = 512;

// Bytes of a block that its checks are over.
const CHECKED_LENGTH: usize = 508;

const HEADING_LENGTH: usize = 4;

const PAYLOAD_LENGTH: usize = 504;

// The last block, and the bytes of font that are left for it.
const LAST_BLOCK: u8 = BLOCKS - 1;

const LAST_LENGTH: usize = limits::FONT_LENGTH - LAST_BLOCK as usize * PAYLOAD_LENGTH;

// Rows and columns of a payload, as its checks are summed up.
const ROWS: u16 = 7;

const COLUMNS: u16 = 72;

// What stands in a block's bytes 0 to 507, or in a column of its payload: the sum, and the sum of each byte times its position counted from 1
// or, in a column, its row counted from 0.
#[derive(Clone, Copy, Debug, PartialEq, Eq)]
pub struct CheckSums {
    pub sum: u16,
    pub weighted: u16,
}

fn used_length(number: u8) -> usize
    ensures value { result ≡ used_length number }
    ensures upper_bound { result ≤ payload_length }
{
    if number == LAST_BLOCK {
        LAST_LENGTH
    } else {
        PAYLOAD_LENGTH
    }
}

// The payload is taken as seven rows of 72 bytes; this is the column that begins with byte `first`. Going up from the last row, the sum so
// far is added once a row, so each byte is added as often as there are rows above it.
fn column_at(block: &[u8; BLOCK_LENGTH], first: u16) -> CheckSums
    requires { first < heading_length + column_count }
    ensures { result ≡ column_of row_count (drop first block.now) }
{
    let mut sum = 0;
    let mut weighted = 0;
    for row in (0..ROWS).rev() {
        weighted += sum;
        sum += u16::from(block[usize::from(first + COLUMNS * row)]);
    }
    CheckSums { sum, weighted }
}

// Column by column: vector units do eight at a time, and seven bytes take one multiplication. Sums wrap around, modulo 65,536.
fn checks_of(block: &[u8; BLOCK_LENGTH]) -> CheckSums
    ensures { result ≡ checks_of (take checked_length block.now) }
{
    let mut sum = 0u16;
    let mut by_row = 0u16;
    let mut weighted = 0u16;
    for at in HEADING_LENGTH as u16..HEADING_LENGTH as u16 + COLUMNS {
        let column = column_at(block, at);
        sum = sum.wrapping_add(column.sum);
        by_row = by_row.wrapping_add(column.weighted);
        weighted = weighted.wrapping_add((at + 1).wrapping_mul(column.sum));
    }
    let a = u16::from(block[0]);
    let b = u16::from(block[1]);
    let c = u16::from(block[2]);
    let d = u16::from(block[3]);
    let below = COLUMNS.wrapping_mul(by_row);
    CheckSums {
        sum: sum.wrapping_add(a + b + c + d),
        weighted: weighted
            .wrapping_add(below)
            .wrapping_add(a + 2 * b + 3 * c + 4 * d),
    }
}

// ---- writing

// Number, used length, these bytes of font, and 0 where none is left.
fn put_content(block: &mut [u8], number: u8, font: &[u8])
    requires { (length block.old ≡ block_length) × (length font.now ≡ used_length number) }
    ensures { block.new ≡ sets block.old 0 (content_of number font.now) }
{
    let used = font.len();
    let [low, high] = (used as u16).to_le_bytes();
    buffers::put(block, 0, &[number, 0, low, high]);
    buffers::put(block, HEADING_LENGTH, font);
    buffers::fill(&mut block[HEADING_LENGTH + used..CHECKED_LENGTH], 0);
}

// The content, and behind it the checks over it. The block is a part of the file, and no array: what lends a part as an array doesn't say
// what the file ends as. Only to be summed up it is read as one.
fn write_block(block: &mut [u8], number: u8, font: &[u8])
    requires { (length block.old ≡ block_length) × (length font.now ≡ used_length number) }
    ensures { block.new ≡ with_checks (content_of number font.now) }
{
    put_content(block, number, font);
    let (blocks, _) = block.as_chunks();
    let checks = checks_of(&blocks[0]);
    buffers::put(block, CHECKED_LENGTH, &checks.sum.to_le_bytes());
    buffers::put(block, CHECKED_LENGTH + 2, &checks.weighted.to_le_bytes());
}

fn write_blocks(font: &[u8; limits::FONT_LENGTH], file: &mut [u8])
    requires { length file.old ≡ font_file_length }
    ensures { file.new ≡ file_of font.now }
{
    for (number, part) in (0..BLOCKS).zip(font.chunks(PAYLOAD_LENGTH)) {
        let at = BLOCK_LENGTH * usize::from(number);
        write_block(&mut file[at..at + BLOCK_LENGTH], number, part);
    }
}

// Writes the font as a file. Refusal 15.
#[tactic(auto, unfolding(crate::specs::FontFile::written_by, crate::specs::FontFile::write_font))]
pub fn write(font: &[u8], file: &mut [u8]) -> Result<(), FileRefusal>
    ensures { record { file = file.new; reply = file_reply result } ≡ write_font font.now file.old }
{
    if file.len() != limits::FONT_FILE_LENGTH {
        return Err(FileRefusal::Length);
    }
    if font.len() != limits::FONT_LENGTH {
        return Err(FileRefusal::Length);
    }
    write_blocks(buffers::array_of(font), file);
    Ok(())
}

// ---- reading

#[tactic(auto, unfolding(crate::specs::FontFile::checks_right))]
fn checks_right(block: &[u8; BLOCK_LENGTH]) -> bool
    ensures { result ≡ checks_right block.now }
{
    let checks = checks_of(block);
    buffers::word_at(block, CHECKED_LENGTH) == checks.sum
        && buffers::word_at(block, CHECKED_LENGTH + 2) == checks.weighted
}

// By their sum: without an early end, vector units do sixteen at a time.
fn all_zero(bytes: &[u8]) -> bool
    requires { length bytes.now ≤ payload_length }
    ensures { result ≡ all_zero bytes.now }
{
    let mut sum = 0;
    for byte in bytes {
        sum += u32::from(*byte);
    }
    sum == 0
}

#[tactic(auto, unfolding(crate::specs::FontFile::format_right))]
fn format_right(block: &[u8; BLOCK_LENGTH], place: u8) -> bool
    ensures { result ≡ format_right place block.now }
{
    let used = used_length(place);
    buffers::word_at(block, 0) == u16::from(place)
        && buffers::word_at(block, 2) == used as u16
        && all_zero(&block[HEADING_LENGTH + used..CHECKED_LENGTH])
}

#[tactic(auto, unfolding(crate::specs::FontFile::block_test))]
fn test_block(block: &[u8; BLOCK_LENGTH], place: u8) -> Result<(), FileRefusal>
    ensures { result ≡ block_test place block.now }
{
    if !checks_right(block) {
        return Err(FileRefusal::Checks(place));
    }
    if !format_right(block, place) {
        return Err(FileRefusal::Format(place));
    }
    Ok(())
}

// All blocks in turn; the first fault counts.
fn test_blocks(file: &[u8; limits::FONT_FILE_LENGTH]) -> Result<(), FileRefusal>
    ensures { result ≡ blocks_test block_count 0 file.now }
{
    let (blocks, _) = file.as_chunks();
    for (place, block) in blocks.iter().enumerate() {
        test_block(block, place as u8)?;
    }
    Ok(())
}

fn copy_font(file: &[u8; limits::FONT_FILE_LENGTH], font: &mut [u8])
    requires { length font.old ≡ font_length }
    ensures { font.new ≡ font_in file.now }
{
    for place in 0..BLOCKS {
        let from = BLOCK_LENGTH * usize::from(place) + HEADING_LENGTH;
        // in 32 bits, for small processors
        let at = (PAYLOAD_LENGTH as u32 * u32::from(place)) as usize;
        let used = used_length(place);
        buffers::put(font, at, &file[from..from + used]);
    }
}

// Reads the font of a file. Refusals 15, then of the first bad block 16 or 17. All blocks are tested before the first byte is written.
#[tactic(auto, unfolding(crate::specs::FontFile::read_by, crate::specs::FontFile::read_font))]
pub fn read(file: &[u8], font: &mut [u8]) -> Result<(), FileRefusal>
    ensures { record { font = font.new; reply = file_reply result } ≡ read_font file.now font.old }
{
    if font.len() != limits::FONT_LENGTH {
        return Err(FileRefusal::Length);
    }
    if file.len() != limits::FONT_FILE_LENGTH {
        return Err(FileRefusal::Length);
    }
    let file = buffers::array_of(file);
    test_blocks(file)?;
    copy_font(file, font);
    Ok(())
}
