// What is known of an answer, before any record of it is read.
ghost use Rattle.std.specs.Prelude.{◌≡◌, ◌+◌, ◌*◌};
ghost use Rattle.tables.specs.Tables.{covers, page_ok, judged, is_good, refused_by, fits};

use codes::{Refusal, both, status_is_ok};

// Why an answer is not good. Of a status that is not ok the header's word is kept: what it says
// depends on the call that asked.
#[derive(Clone, Copy)]
pub enum Fault {
    Status(u32),
    Refused(Refusal),
}

// Good, or a fault.
pub type Verdict = Result<(), Fault>;

// The bytes of an answer page.
pub const PAGE: usize = 4096;

// The header of an answer.
const HEADER: u64 = 4;

// How much of a page counts as written by the device: so many bytes, or all of it.
pub type Written = Option<u64>;

// The first so many bytes of a page count as written.
fn covers(w: Written, bytes: u64) -> bool
    ensures { result ≡ covers w bytes }
{
    match w {
        None => true,
        Some(n) => bytes <= n,
    }
}

// The bytes of an answer with so many records of a size: in 64 bits, so that no count wraps.
fn extent(count: u32, size: u32) -> u64
    ensures { result ≡ 4 + count * size }
{
    4 + (count as u64) * (size as u64)
}

// A page of its length, and no more bytes written than that.
pub fn page_ok(w: Written, page: &[u8]) -> bool
    ensures { result ≡ page_ok w page.now }
{
    let long = page.len() == PAGE;
    match w {
        None => long,
        Some(n) => both(long, n <= PAGE as u64),
    }
}

// The page's length, whether its header was written and what it says, then whether the records fit
// and were written.
pub fn judge(w: Written, page: &[u8], count: u32, size: u32) -> Verdict
    ensures { result ≡ judged w page.now count size }
{
    let bytes = extent(count, size);
    let word = layout::get_u32(page, 0);
    let ok = status_is_ok(word);
    let headed = covers(w, HEADER);
    let whole = covers(w, bytes);
    let long = page_ok(w, page);
    if !long {
        return Err(Fault::Refused(Refusal::BadLength));
    }
    if !headed {
        return Err(Fault::Refused(Refusal::Short));
    }
    if !ok {
        return Err(Fault::Status(word));
    }
    if 4096 < bytes {
        return Err(Fault::Refused(Refusal::TooMany));
    }
    if whole {
        Ok(())
    } else {
        Err(Fault::Refused(Refusal::Short))
    }
}

// Whether the page is good.
pub fn is_good(v: Verdict) -> bool
    ensures { result ≡ is_good v }
{
    v.is_ok()
}

// Whether it is the refusal of this number, whatever was asked.
pub fn refused_by(number: u32, v: Verdict) -> bool
    ensures { result ≡ refused_by number v }
{
    match v {
        Err(Fault::Refused(refusal)) => refusal.number() == number,
        _ => false,
    }
}

// A page that holds so many records of a size.
pub fn holds(page: &[u8], count: u32, size: u32) -> bool
    ensures { result ≡ fits page.now count size }
{
    let bytes = extent(count, size);
    if page.len() != PAGE {
        return false;
    }
    bytes <= 4096
}
