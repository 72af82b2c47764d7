// The model device as bytes in its owner's storage, looked at and changed by place. What a call
// leaves is what the call by value on the device in the store leaves, written over the store.
#![tactic(auto)]

mod answer;
mod made;
mod place;
mod play;

ghost use Rattle.std.specs.Prelude.{◌≡◌, [], ◌∷◌};
ghost use Rattle.std.proofs.lemmas.List.Edits.{sets};
ghost use Rattle.layout.specs.Layout.{write};
ghost use Rattle.layout.specs.Lent.{made, shown};
ghost use Rattle.model_store.specs.Store.{device_size};
ghost use Rattle.model_store.specs.Calls.{new_in, roomy_in, told, control_in, transferred, transfer_in, payload_in, params_in, played_in};

use answer::outcome;
use codes::words::{BAD_LENGTH, INVALID_PARAM};
use made::make;
use model::control::PAGE;
use model::transfer::plays;
use model::{Counts, few, stream_ok, within};
use place::{HELD, PARAMS, PLAYED, WORD, copy, counts_at};
use play::play;
use records::{ChannelMap, JackInfo, PcmInfo, SetParameters, Transfer, TransferStatus};

// The bytes of a device.
pub const SIZE: usize = 16427;

// The least length of a result slice.
const RESULT: usize = 512;

// What a call says, by its number: that is what the C entries hand out.
const OK: u64 = 0;

// A store and a result slice that are long enough.
fn roomy(device: &[u8], res: &[u8]) -> bool
    ensures { result ≡ roomy_in device.now res.now }
{
    SIZE <= device.len() && RESULT <= res.len()
}

pub fn size() -> u64
    ensures { result ≡ device_size }
{
    SIZE as u64
}

// A new device, from three tables as they stand in an answer. No stream has parameters, and nothing
// was played.
pub fn new(device: &mut [u8], jacks: &[u8], pcms: &[u8], maps: &[u8]) -> u64
    ensures { made result device.new ≡ new_in device.old jacks.now pcms.now maps.now }
{
    if device.len() < SIZE {
        return BAD_LENGTH;
    }
    if jacks.len() % JackInfo::SIZE != 0 {
        return BAD_LENGTH;
    }
    if pcms.len() % PcmInfo::SIZE != 0 {
        return BAD_LENGTH;
    }
    if maps.len() % ChannelMap::SIZE != 0 {
        return BAD_LENGTH;
    }
    let j = jacks.len() / JackInfo::SIZE;
    let p = pcms.len() / PcmInfo::SIZE;
    let m = maps.len() / ChannelMap::SIZE;
    if few(j, p, m) {
        let counts = Counts {
            jacks: j as u32,
            streams: p as u32,
            maps: m as u32,
        };
        make(device, counts, jacks, pcms, maps);
        return OK;
    }
    INVALID_PARAM
}

// One request, one answer in the page; the answer's length stands in the result.
pub fn control(device: &mut [u8], request: &[u8], page: &mut [u8], res: &mut [u8]) -> u64
    ensures { told result device.new page.new res.new ≡ control_in device.old request.now page.old res.old }
{
    if !roomy(&device[..], &res[..]) {
        return BAD_LENGTH;
    }
    if page.len() != PAGE {
        return BAD_LENGTH;
    }
    let counts = counts_at(&device[..]);
    if within(counts) {
        let n = outcome(counts, device, request, page);
        layout::put_u64(res, 0, n as u64);
        return OK;
    }
    INVALID_PARAM
}

// One transfer, one status in the answer slice.
pub fn transfer(device: &mut [u8], request: &[u8], answer: &mut [u8]) -> u64
    ensures { transferred result device.new answer.new ≡ transfer_in device.old request.now answer.old }
{
    if device.len() < SIZE {
        return BAD_LENGTH;
    }
    if answer.len() < TransferStatus::SIZE {
        return BAD_LENGTH;
    }
    let counts = counts_at(&device[..]);
    if within(counts) {
        let status = play(counts, device, request);
        let told = TransferStatus { status, latency: 0 };
        let _ = told.write(answer);
        return OK;
    }
    INVALID_PARAM
}

// A part of the request: its offset and its length.
fn put_part(res: &mut [u8], offset: u64, length: u64)
    ensures { res.new ≡ sets res.old 0 (write (8 ∷ 8 ∷ []) (offset ∷ length ∷ [])) }
{
    layout::put_u64(res, 0, offset);
    layout::put_u64(res, WORD, length);
}

// What a transfer plays, as a part of the request; 0 twice where it plays nothing.
pub fn payload(device: &[u8], request: &[u8], res: &mut [u8]) -> u64
    ensures { shown result res.new ≡ payload_in device.now request.now res.old }
{
    if !roomy(device, &res[..]) {
        return BAD_LENGTH;
    }
    let counts = counts_at(device);
    if within(counts) {
        if plays(counts, request) {
            let n = request.len() - Transfer::SIZE;
            put_part(res, Transfer::SIZE as u64, n as u64);
            return OK;
        }
        put_part(res, 0, 0);
        return OK;
    }
    INVALID_PARAM
}

// The parameters of a stream: 1 and the 24 bytes as received, or 0 where it has none.
pub fn params(device: &[u8], stream: u32, res: &mut [u8]) -> u64
    ensures { shown result res.new ≡ params_in device.now stream res.old }
{
    if !roomy(device, &res[..]) {
        return BAD_LENGTH;
    }
    let counts = counts_at(device);
    if stream_ok(counts, stream) {
        let at = PARAMS + stream as usize * HELD;
        if layout::get_u8(device, at + SetParameters::SIZE) == 0 {
            layout::put_u64(res, 0, 0);
            return OK;
        }
        layout::put_u64(res, 0, 1);
        copy(res, WORD, device, at, SetParameters::SIZE);
        return OK;
    }
    INVALID_PARAM
}

// How many bytes a stream has played, modulo 2^64.
pub fn played(device: &[u8], stream: u32, res: &mut [u8]) -> u64
    ensures { shown result res.new ≡ played_in device.now stream res.old }
{
    if !roomy(device, &res[..]) {
        return BAD_LENGTH;
    }
    let counts = counts_at(device);
    if stream_ok(counts, stream) {
        let n = layout::get_u64(device, PLAYED + stream as usize * WORD);
        layout::put_u64(res, 0, n);
        return OK;
    }
    INVALID_PARAM
}
