// Transfers.
ghost use Rattle.std.specs.Prelude.{◌≡◌, ◌≤◌, length};
ghost use Rattle.layout.specs.Layout.{size};
ghost use Rattle.records.specs.Records.{transfer_status};
ghost use Rattle.model.specs.Device.{most_streams};
ghost use Rattle.model.specs.Control.{given};
ghost use Rattle.model.specs.Transfer.{plays, payload_of, status_given, status_by, device_after, transfer_call};

use crate::device::{Counts, Device, within};
use crate::said::Answered;
use codes::{Refusal, StatusCode};
use records::{Transfer, TransferStatus};
use std::num::wrapping_add_u64;

// A request that names a stream of the device.
pub fn plays(n: Counts, request: &[u8]) -> bool
    ensures { result ≡ plays n request.now }
{
    if request.len() < Transfer::SIZE {
        return false;
    }
    layout::get_u32(request, 0) < n.streams
}

// The status, with no latency.
fn tell(d: Device, status: u32, answer: &mut [u8]) -> Answered
    requires { size transfer_status ≤ length answer.old }
    ensures { given result answer.new ≡ status_given d status answer.old }
{
    let t = TransferStatus { status, latency: 0 };
    let _ = t.write(answer);
    Answered {
        device: d,
        said: Ok(TransferStatus::SIZE),
    }
}

fn done(d: Device, request: &[u8], answer: &mut [u8]) -> Answered
    requires { (size transfer_status ≤ length answer.old) × (d.counts.streams ≤ most_streams) }
    ensures { given result answer.new ≡ status_given (device_after d request.now) (status_by d request.now) answer.old }
{
    let counts = d.counts;
    if plays(counts, request) {
        let i = layout::get_u32(request, 0) as usize;
        let n = request.len() - Transfer::SIZE;
        let mut after = d;
        after.played[i] = wrapping_add_u64(d.played[i], n as u64);
        return tell(after, StatusCode::OK, answer);
    }
    tell(d, StatusCode::BAD_MSG, answer)
}

// One transfer, one status. The stream's count grows by the payload's length.
pub fn transfer(d: Device, request: &[u8], answer: &mut [u8]) -> Answered
    ensures { given result answer.new ≡ transfer_call d request.now answer.old }
{
    if answer.len() < TransferStatus::SIZE {
        return Answered {
            device: d,
            said: Err(Refusal::BadLength),
        };
    }
    let counts = d.counts;
    if within(counts) {
        return done(d, request, answer);
    }
    Answered {
        device: d,
        said: Err(Refusal::InvalidParam),
    }
}

// What the request plays: a part of the request itself.
pub fn payload<'a>(d: Device, request: &'a [u8]) -> &'a [u8]
    ensures { result.now ≡ payload_of d request.now }
{
    let counts = d.counts;
    if plays(counts, request) {
        return &request[Transfer::SIZE..];
    }
    &request[..0]
}
