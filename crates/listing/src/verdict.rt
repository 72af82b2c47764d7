// What the listing says of an answer, before any line of it.
ghost use Rattle.std.specs.Prelude.{◌≡◌};
ghost use Rattle.listing.specs.Listing.{length_ok, judged, listing_of};

use codes::{Cause, Refusal, status_is_ok};
use records::PcmInfo;
use tables::PAGE;

// The status of an answer, before its records.
pub(crate) const HEADER: usize = 4;

fn length_ok(n: usize) -> bool
    ensures { result ≡ length_ok n }
{
    if n < HEADER {
        return false;
    }
    if PAGE < n {
        return false;
    }
    (n - HEADER) % PcmInfo::SIZE == 0
}

// How many streams there are, at most the 127 that a page holds. `n` is how many bytes of input
// there were, and `page` holds the first 4,096 of them. The length is judged before the header.
pub fn judge(n: usize, page: &[u8]) -> Result<u8, Refusal>
    ensures { judged result ≡ listing_of n page.now }
{
    let word = layout::get_u32(page, 0);
    let ok = status_is_ok(word);
    let fits = length_ok(n);
    if !fits {
        return Err(Refusal::BadLength);
    }
    if !ok {
        return Err(Refusal::IoError(Cause::Status(word)));
    }
    Ok(((n - HEADER) / PcmInfo::SIZE) as u8)
}
