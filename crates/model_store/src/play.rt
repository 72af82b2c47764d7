// Transfers, on the store by place.
ghost use Rattle.std.specs.Prelude.{◌≡◌, ◌≤◌, true, length};
ghost use Rattle.std.proofs.lemmas.List.Edits.{sets};
ghost use Rattle.model.specs.Device.{within_of};
ghost use Rattle.model.specs.Transfer.{status_by, device_after};
ghost use Rattle.model_store.specs.Store.{device_size, counts_at, device_of, device_bytes};

use crate::place::{PLAYED, WORD};
use codes::StatusCode;
use model::Counts;
use model::transfer::plays;
use records::Transfer;
use std::num::wrapping_add_u64;

// The status of a transfer. The stream's count grows by the payload's length.
pub(crate) fn play(counts: Counts, device: &mut [u8], request: &[u8]) -> u32
    requires { (device_size ≤ length device.old) × (counts ≡ counts_at device.old) × (within_of counts ≡ true) }
    ensures { (result ≡ status_by (device_of device.old) request.now) × (device.new ≡ sets device.old 0 (device_bytes (device_after (device_of device.old) request.now))) }
{
    if plays(counts, request) {
        let at = PLAYED + layout::get_u32(request, 0) as usize * WORD;
        let n = layout::get_u64(&device[..], at);
        let more = request.len() - Transfer::SIZE;
        layout::put_u64(device, at, wrapping_add_u64(n, more as u64));
        return StatusCode::OK;
    }
    StatusCode::BAD_MSG
}
