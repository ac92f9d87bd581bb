#![tactic(auto)]
// What code does with bytes in a buffer, whatever they mean: a number of two bytes, low byte first, is read; bytes are put at a place; a part
// is filled. And the digit that shows four bits.
ghost use Rattle.std.specs.Prelude.{◌≡◌, ◌+◌, ◌≤◌, ◌<◌, ◌++◌, length, replicate, min, take, drop};
ghost use Rattle.std.proofs.lemmas.List.Edits.{sets};
ghost use Rattle.buffers.specs.Buffers.{word, hex_digit};

pub fn word_at(bytes: &[u8], i: usize) -> u16
    requires { i + 1 < length bytes.now }
    ensures { result ≡ word bytes.now i }
{
    u16::from_le_bytes([bytes[i], bytes[i + 1]])
}

// A slice of a known length as an array. The library's `as_array` answers an Option of an address, which the ports do without.
pub fn array_of<const N: usize>(bytes: &[u8]) -> &[u8; N]
    requires some { 0 < N }
    requires long { length bytes.now ≡ N }
    ensures { result.now ≡ bytes.now }
{
    let (arrays, _) = bytes.as_chunks();
    &arrays[0]
}

// Bytes put at an offset; all others stay.
pub fn put(out: &mut [u8], at: usize, bytes: &[u8])
    requires { at + length bytes.now ≤ length out.old }
    ensures { out.new ≡ sets out.old at bytes.now }
{
    copy(bytes, &mut out[at..]);
}

// As many bytes as there is room for, and how many; the bytes behind them stay. A loop, since `copy_from_slice` would need memcpy, which the
// ports do without, and since nothing is known of what a `zip` over `iter_mut` has written.
pub fn copy(from: &[u8], to: &mut [u8]) -> usize
    ensures count { result ≡ min (length from.now) (length to.old) }
    ensures bytes { to.new ≡ take result from.now ++ drop result to.old }
{
    let n = from.len().min(to.len());
    for i in 0..n {
        to[i] = from[i];
    }
    n
}

// A loop, since the library's `fill` has a branch that traps, which the ports do without.
pub fn fill(out: &mut [u8], byte: u8)
    ensures { out.new ≡ replicate (length out.old) byte }
{
    for x in out.iter_mut() {
        *x = byte;
    }
}

pub fn hex_digit(n: u8) -> u8
    ensures { result ≡ hex_digit n }
{
    let digit = n % 16;
    if digit < 10 {
        return b'0' + digit;
    }
    b'A' - 10 + digit
}
