// The three tables, kept as the received records in one flat store of bytes.
ghost use Rattle.std.specs.Prelude.{◌≡◌, ◌+◌, ◌≤◌, leb, length};
ghost use Rattle.std.proofs.lemmas.List.Edits.{sets};
ghost use Rattle.layout.specs.Bytes.{bytes_at};
ghost use Rattle.tables.specs.Tables.{copied_in};

use crate::verdict::holds;

// Where each table stands in the store: 170 jacks, 127 streams, 170 channel maps.
pub const JACKS: usize = 0;

pub const STREAMS: usize = 4080;

pub const MAPS: usize = 8144;

// The bytes of the store.
pub const TABLES: usize = 12224;

// Byte 4 of a page and what follows, which compiles to one copy of memory.
fn copy(s: &mut [u8], at: usize, page: &[u8], n: usize)
    requires { 4 + n ≤ length page.now }
    ensures { s.new ≡ sets s.old at (bytes_at 4 n page.now) }
{
    layout::put_bytes(s, at, &page[4..4 + n]);
}

// So many bytes fit from a place on.
fn has_room(len: usize, at: usize, n: usize) -> bool
    ensures { result ≡ leb (at + n) len }
{
    if len < at {
        return false;
    }
    n <= len - at
}

// The records of a page are the table's own bytes. It is tested that the page holds so many and that
// the store has room for them: else nothing changes.
pub fn fill(tables: &mut [u8], at: usize, size: u32, count: u32, page: &[u8])
    ensures { tables.new ≡ copied_in at size count page.now tables.old }
{
    if !holds(page, count, size) {
        return;
    }
    let n = (count as usize) * (size as usize);
    if !has_room(tables.len(), at, n) {
        return;
    }
    copy(&mut *tables, at, page, n);
}
