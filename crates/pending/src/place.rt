// The places of a lent store: as many as there are tokens, of equal length, and what the last bytes leave over.
ghost use Rattle.std.specs.Prelude.{◌≡◌, length, Ok, Err};
ghost use Rattle.pending.specs.Places.{size_of, placed_in, spot_by};

use codes::Refusal;
use layout::{put_bytes, put_u32};

// As many submissions as 32 descriptors hold, two to each.
pub const PLACES: usize = 16;

// And where they are indirect, one to each.
pub const INDIRECT_PLACES: usize = 32;

// The bytes of each of so many places in a store of this length; of no places, 0.
pub fn place_size(len: usize, places: usize) -> usize
    ensures { result ≡ size_of len places }
{
    if places == 0 {
        return 0;
    }
    len / places
}

// The place of a submission: `k`, the lowest free one. The payload's length is tested, then the
// place's, then whether one is free.
pub fn find_spot(
    places: usize,
    k: usize,
    payload: usize,
    store: usize,
    period: u32,
) -> Result<usize, Refusal>
    ensures { result ≡ spot_by places k payload store period Err Ok }
{
    let size = place_size(store, places);
    let whole = period as usize;
    if payload != whole {
        return Err(Refusal::InvalidParam);
    }
    if size < whole + 4 {
        return Err(Refusal::BadLength);
    }
    if places <= k {
        return Err(Refusal::Full);
    }
    Ok(k)
}

// Stores a stream's number and a payload in one of so many places.
pub fn placed(store: &mut [u8], places: usize, k: usize, stream: u32, payload: &[u8])
    ensures { store.new ≡ placed_in store.old places k stream payload.now }
{
    let n = store.len();
    let size = place_size(n, places);
    if places <= k {
        return;
    }
    let at = k * size;
    put_u32(store, at, stream);
    put_bytes(store, at + 4, payload);
}
