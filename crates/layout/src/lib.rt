// Little-endian numbers at any place of a lent slice of bytes. A byte past the end reads as 0 and is not
// stored: so no public access needs a `requires`, and a record's reader tests its length once.
//
// The bytes of a number are taken out, or put in, as an array of its width: within the slice that is one
// access to memory, and only a number that reaches past the end goes byte by byte.
#![tactic(auto)]

ghost use Rattle.std.specs.Prelude.{◌≡◌, ◌≤◌, ◌+◌, length, take, drop};
ghost use Rattle.std.proofs.lemmas.List.Edits.{sets};
ghost use Rattle.layout.specs.Bytes.{le, un, bytes_at, num_at};

// ---- by value

// The number that 4 bytes stand for.
pub fn u32_of(bytes: [u8; 4]) -> u32
    ensures { result ≡ un bytes }
{
    u32::from_le_bytes(bytes)
}

// The number that 8 bytes stand for.
pub fn u64_of(bytes: [u8; 8]) -> u64
    ensures { result ≡ un bytes }
{
    u64::from_le_bytes(bytes)
}

// The 4 bytes of a number.
pub fn u32_bytes(v: u32) -> [u8; 4]
    ensures { result ≡ le 4 v }
{
    u32::to_le_bytes(v)
}

// The 8 bytes of a number.
pub fn u64_bytes(v: u64) -> [u8; 8]
    ensures { result ≡ le 8 v }
{
    u64::to_le_bytes(v)
}

// ---- any place; a width stands in the name, as the layout at the call has it

// The bytes of a slice; those past its end are 0. A byte at a time: a copy would call the host's `memcpy`.
#[cold]
#[inline(never)]
fn cut_bytes<const N: usize>(s: &[u8]) -> [u8; N]
    ensures { result ≡ bytes_at 0 N s.now }
{
    let mut bytes = [0u8; N];
    for i in 0..N {
        bytes[i] = get_u8(s, i);
    }
    bytes
}

// The bytes from a place on; those past the end are 0.
fn get_bytes<const N: usize>(s: &[u8], at: usize) -> [u8; N]
    ensures { result ≡ bytes_at at N s.now }
{
    if s.len() <= at {
        return [0u8; N];
    }
    let rest = &s[at..];
    if let Some(whole) = rest.first_chunk() {
        return *whole;
    }
    cut_bytes(rest)
}

// The byte at a place.
pub fn get_u8(s: &[u8], at: usize) -> u8
    ensures { result ≡ num_at at 1 s.now }
{
    if at < s.len() { s[at] } else { 0 }
}

// The number in the 2 bytes at a place.
pub fn get_u16(s: &[u8], at: usize) -> u16
    ensures { result ≡ num_at at 2 s.now }
{
    u16::from_le_bytes(get_bytes(s, at))
}

// The number in the 4 bytes at a place.
#[tactic(auto, unfolding(crate::specs::Bytes::num_at))]
pub fn get_u32(s: &[u8], at: usize) -> u32
    ensures { result ≡ num_at at 4 s.now }
{
    u32_of(get_bytes(s, at))
}

// The number in the 8 bytes at a place.
#[tactic(auto, unfolding(crate::specs::Bytes::num_at))]
pub fn get_u64(s: &[u8], at: usize) -> u64
    ensures { result ≡ num_at at 8 s.now }
{
    u64_of(get_bytes(s, at))
}

// A byte stored at a place.
pub fn put_u8(out: &mut [u8], at: usize, v: u8)
    ensures { out.new ≡ sets out.old at (le 1 v) }
{
    if at < out.len() {
        out[at] = v;
    }
}

// A whole slice within another, from a place on. A byte at a time: a copy would call the host's `memmove`.
fn copy(out: &mut [u8], at: usize, from: &[u8])
    requires { at + length from.now ≤ length out.old }
    ensures { out.new ≡ sets out.old at from.now }
{
    for i in 0..from.len() {
        out[at + i] = from[i];
    }
}

// A number's bytes that reach past the end, stored as far as it goes.
#[cold]
#[inline(never)]
fn put_cut(out: &mut [u8], at: usize, bytes: &[u8])
    requires { (at ≤ length out.old) × (length bytes.now ≤ 8) }
    ensures { out.new ≡ sets out.old at bytes.now }
{
    for i in 0..bytes.len() {
        put_u8(out, at + i, bytes[i]);
    }
}

// A number's bytes stored from a place on; those past the end are not.
fn put_number(out: &mut [u8], at: usize, bytes: &[u8])
    requires { length bytes.now ≤ 8 }
    ensures { out.new ≡ sets out.old at bytes.now }
{
    let n = out.len();
    if n <= at {
        return;
    }
    if bytes.len() <= n - at {
        copy(out, at, bytes);
        return;
    }
    put_cut(out, at, bytes);
}

// A number stored in the 2 bytes at a place.
pub fn put_u16(out: &mut [u8], at: usize, v: u16)
    ensures { out.new ≡ sets out.old at (le 2 v) }
{
    put_number(out, at, &u16::to_le_bytes(v));
}

// A number stored in the 4 bytes at a place.
pub fn put_u32(out: &mut [u8], at: usize, v: u32)
    ensures { out.new ≡ sets out.old at (le 4 v) }
{
    put_number(out, at, &u32_bytes(v));
}

// A number stored in the 8 bytes at a place.
pub fn put_u64(out: &mut [u8], at: usize, v: u64)
    ensures { out.new ≡ sets out.old at (le 8 v) }
{
    put_number(out, at, &u64_bytes(v));
}

// A whole slice, stored from a place on; bytes that reach past the end are not.
pub fn put_bytes(out: &mut [u8], at: usize, from: &[u8])
    ensures { out.new ≡ sets out.old at from.now }
{
    let n = out.len();
    if n <= at {
        return;
    }
    let room = n - at;
    if from.len() <= room {
        copy(out, at, from);
        return;
    }
    copy(out, at, &from[..room]);
}

// What there is of len bytes of a slice from an offset on.
pub fn part<'a>(s: &'a [u8], offset: usize, len: usize) -> &'a [u8]
    ensures { result.now ≡ take len (drop offset s.now) }
{
    let rest = &s[offset.min(s.len())..];
    &rest[..len.min(rest.len())]
}
