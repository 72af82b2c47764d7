// Control requests, answered from the store by place: no table is read as records.
ghost use Rattle.std.specs.Prelude.{◌≡◌, ◌+◌, ◌*◌, ◌≤◌, true, length, ◌==◌};
ghost use Rattle.layout.specs.Lent.{page_size};
ghost use Rattle.layout.specs.Bytes.{le};
ghost use Rattle.layout.specs.Layout.{size};
ghost use Rattle.codes.specs.Says.{pick};
ghost use Rattle.records.specs.Records.{pcm_command};
ghost use Rattle.model.specs.Device.{most_streams, within_of};
ghost use Rattle.model.specs.Control.{Laid, setting_of, answer_by, outcome_of};
ghost use Rattle.model_store.specs.Store.{device_size, counts_at, device_of};
ghost use Rattle.model_store.specs.Private.{range_bytes, Gave};

use crate::place::{HELD, JACKS, MAPS, PARAMS, PCMS, copy};
use codes::{RequestCode, StatusCode};
use model::control::{HEADER, asked};
use model::{Counts, Range};
use records::{ChannelMap, JackInfo, PcmCommand, PcmInfo, SetParameters};

// Where the stream stands in a request to set parameters.
const STREAM: usize = 4;

// An answer that is a status alone; its length.
fn tell(status: u32, page: &mut [u8]) -> usize
    requires { length page.old ≡ page_size }
    ensures { Laid (le 4 status) page.old result page.new }
{
    layout::put_u32(page, 0, status);
    HEADER
}

// A query of the table of `n` records that stands at a place: an ok header, then a copy of the
// records' bytes.
fn rows(device: &[u8], place: usize, size: usize, n: u32, request: &[u8], page: &mut [u8]) -> usize
    requires { (length page.old ≡ page_size) × (4 + n * size ≤ page_size) × (place + n * size ≤ length device.now) }
    ensures { Laid (range_bytes request.now size n place device.now) page.old result page.new }
{
    let Some(Range { start, count }) = asked(request, size, n) else {
        return tell(StatusCode::BAD_MSG, page);
    };
    layout::put_u32(page, 0, StatusCode::OK);
    let bytes = count * size;
    copy(page, HEADER, device, place + start * size, bytes);
    HEADER + bytes
}

// All 24 bytes are kept as they came.
fn setting(streams: u32, device: &mut [u8], request: &[u8], page: &mut [u8]) -> usize
    requires { (length page.old ≡ page_size) × (device_size ≤ length device.old) × (streams ≡ (counts_at device.old).streams) × (streams ≤ most_streams) }
    ensures { Gave (setting_of request.now (device_of device.old)) device.old page.old result device.new page.new }
{
    if request.len() != SetParameters::SIZE {
        return tell(StatusCode::BAD_MSG, page);
    }
    let stream = layout::get_u32(request, STREAM);
    if streams <= stream {
        return tell(StatusCode::BAD_MSG, page);
    }
    let at = PARAMS + stream as usize * HELD;
    copy(device, at, request, 0, SetParameters::SIZE);
    layout::put_u8(device, at + SetParameters::SIZE, 1);
    tell(StatusCode::OK, page)
}

// The stream of a command is not tested.
fn command(request: &[u8], page: &mut [u8]) -> usize
    requires { length page.old ≡ page_size }
    ensures { Laid (pick (length request.now == size pcm_command) (le 4 0x8000) (le 4 0x8001)) page.old result page.new }
{
    if request.len() == PcmCommand::SIZE {
        return tell(StatusCode::OK, page);
    }
    tell(StatusCode::BAD_MSG, page)
}

// The device has no remap.
fn answer(code: RequestCode, n: Counts, device: &mut [u8], request: &[u8], page: &mut [u8]) -> usize
    requires { (length page.old ≡ page_size) × (device_size ≤ length device.old) × (n ≡ counts_at device.old) × (within_of n ≡ true) }
    ensures { Gave (answer_by code request.now (device_of device.old)) device.old page.old result device.new page.new }
{
    match code {
        RequestCode::RJackInfo => rows(&device[..], JACKS, JackInfo::SIZE, n.jacks, request, page),
        RequestCode::RJackRemap => tell(StatusCode::BAD_MSG, page),
        RequestCode::RPcmInfo => rows(&device[..], PCMS, PcmInfo::SIZE, n.streams, request, page),
        RequestCode::RPcmSetParams => setting(n.streams, device, request, page),
        RequestCode::RPcmPrepare => command(request, page),
        RequestCode::RPcmRelease => command(request, page),
        RequestCode::RPcmStart => command(request, page),
        RequestCode::RPcmStop => command(request, page),
        RequestCode::RChmapInfo => rows(&device[..], MAPS, ChannelMap::SIZE, n.maps, request, page),
    }
}

// A request without a code, or with one that is no request's, is a bad message.
pub(crate) fn outcome(counts: Counts, device: &mut [u8], request: &[u8], page: &mut [u8]) -> usize
    requires { (length page.old ≡ page_size) × (device_size ≤ length device.old) × (counts ≡ counts_at device.old) × (within_of counts ≡ true) }
    ensures { Gave (outcome_of request.now (device_of device.old)) device.old page.old result device.new page.new }
{
    if request.len() < HEADER {
        return tell(StatusCode::BAD_MSG, page);
    }
    let Ok(code) = RequestCode::try_from(layout::get_u32(request, 0)) else {
        return tell(StatusCode::BAD_MSG, page);
    };
    answer(code, counts, device, request, page)
}
