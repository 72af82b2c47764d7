// Control requests.
ghost use Rattle.std.specs.Prelude.{◌≡◌, ◌+◌, ◌*◌, ◌≤◌, ◌++◌, true, length};
ghost use Rattle.layout.specs.Lent.{page_size};
ghost use Rattle.model.specs.Device.{most_streams, within_of};
ghost use Rattle.model.specs.Control.{says_range, asked_says, Laid, given, answering, status_alone, setting_of, command_of, table, answer_by, outcome_of, control_of};
ghost use Rattle.layout.specs.Bytes.{le};
ghost use Rattle.layout.specs.Layout.{size, write};
ghost use Rattle.layout.specs.Rows.{rows_bytes};

use crate::device::{Counts, Device, Held, within};
use crate::row::Row;
use crate::said::Answered;
use codes::{Refusal, RequestCode, StatusCode};
use records::{ChannelMap, JackInfo, PcmCommand, PcmInfo, Query, SetParameters};

// An answer page.
pub const PAGE: usize = 4096;

// The code of a request, and the status of an answer.
pub const HEADER: usize = 4;

// The records that a query asks for: the first one, and how many.
#[derive(Clone, Copy)]
pub struct Range {
    pub start: usize,
    pub count: usize,
}

// An answer that is a status alone.
fn tell(d: Device, status: u32, page: &mut [u8]) -> Answered
    requires { length page.old ≡ page_size }
    ensures { given result page.new ≡ answering (status_alone d status) page.old }
{
    layout::put_u32(page, 0, status);
    Answered {
        device: d,
        said: Ok(HEADER),
    }
}

// What a query asks for, if that is within the table of `n` records. A start and a count of 32
// bits each are added in 64.
pub fn asked(request: &[u8], size: usize, n: u32) -> Option<Range>
    ensures { says_range result ≡ asked_says request.now size n }
{
    if request.len() != Query::SIZE {
        return None;
    }
    let Ok(q) = Query::read(request) else {
        return None;
    };
    if q.size as usize != size {
        return None;
    }
    if (n as u64) < q.start as u64 + q.count as u64 {
        return None;
    }
    let start = q.start as usize;
    let count = q.count as usize;
    Some(Range { start, count })
}

// An ok header, then records one after the other; how many bytes these are.
fn put_rows<R: Row>(rows: &[R], page: &mut [u8]) -> usize
    requires { (4 + length rows.now * size R.widths ≤ page_size) × (length page.old ≡ page_size) }
    ensures { Laid (le 4 0x8000 ++ rows_bytes (λ r. write R.widths (R.values r)) rows.now) page.old result page.new }
{
    layout::put_u32(page, 0, StatusCode::OK);
    let mut at = HEADER;
    for row in rows {
        row.put(&mut page[at..]);
        at += R::SIZE;
    }
    at
}

// A query of the table of `n` records.
fn rows<R: Row>(d: Device, rows: &[R], n: u32, request: &[u8], page: &mut [u8]) -> Answered
    requires { (length page.old ≡ page_size) × (n ≤ length rows.now) × (4 + n * size R.widths ≤ page_size) }
    ensures { given result page.new ≡ answering (table (λ r. write R.widths (R.values r)) request.now (size R.widths) n rows.now d) page.old }
{
    let Some(Range { start, count }) = asked(request, R::SIZE, n) else {
        return tell(d, StatusCode::BAD_MSG, page);
    };
    let length = put_rows(&rows[start..start + count], page);
    Answered {
        device: d,
        said: Ok(length),
    }
}

// All 24 bytes are kept, with no period rule.
fn setting(d: Device, request: &[u8], page: &mut [u8]) -> Answered
    requires { (length page.old ≡ page_size) × (d.counts.streams ≤ most_streams) }
    ensures { given result page.new ≡ answering (setting_of request.now d) page.old }
{
    if request.len() != SetParameters::SIZE {
        return tell(d, StatusCode::BAD_MSG, page);
    }
    let Ok(set) = SetParameters::read(request) else {
        return tell(d, StatusCode::BAD_MSG, page);
    };
    let counts = d.counts;
    if counts.streams <= set.stream {
        return tell(d, StatusCode::BAD_MSG, page);
    }
    let i = set.stream as usize;
    let mut after = d;
    after.params[i] = Held { known: 1, set };
    tell(after, StatusCode::OK, page)
}

// The stream of a command is not tested.
fn command(d: Device, request: &[u8], page: &mut [u8]) -> Answered
    requires { length page.old ≡ page_size }
    ensures { given result page.new ≡ answering (command_of request.now d) page.old }
{
    if request.len() == PcmCommand::SIZE {
        return tell(d, StatusCode::OK, page);
    }
    tell(d, StatusCode::BAD_MSG, page)
}

// The device has no remap.
fn answer(code: RequestCode, d: Device, request: &[u8], page: &mut [u8]) -> Answered
    requires { (length page.old ≡ page_size) × (within_of d.counts ≡ true) }
    ensures { given result page.new ≡ answering (answer_by code request.now d) page.old }
{
    match code {
        RequestCode::RJackInfo => rows(d, &d.jacks, d.counts.jacks, request, page),
        RequestCode::RJackRemap => tell(d, StatusCode::BAD_MSG, page),
        RequestCode::RPcmInfo => rows(d, &d.pcms, d.counts.streams, request, page),
        RequestCode::RPcmSetParams => setting(d, request, page),
        RequestCode::RPcmPrepare => command(d, request, page),
        RequestCode::RPcmRelease => command(d, request, page),
        RequestCode::RPcmStart => command(d, request, page),
        RequestCode::RPcmStop => command(d, request, page),
        RequestCode::RChmapInfo => rows(d, &d.maps, d.counts.maps, request, page),
    }
}

// A request without a code, or with one that is no request's, is a bad message.
fn outcome(d: Device, request: &[u8], page: &mut [u8]) -> Answered
    requires { (length page.old ≡ page_size) × (within_of d.counts ≡ true) }
    ensures { given result page.new ≡ answering (outcome_of request.now d) page.old }
{
    if request.len() < HEADER {
        return tell(d, StatusCode::BAD_MSG, page);
    }
    let Ok(code) = RequestCode::try_from(layout::get_u32(request, 0)) else {
        return tell(d, StatusCode::BAD_MSG, page);
    };
    answer(code, d, request, page)
}

// One request, one answer in the page. Only the answer's own bytes change.
pub fn control(d: Device, request: &[u8], page: &mut [u8]) -> Answered
    ensures { given result page.new ≡ control_of d request.now page.old }
{
    if page.len() != PAGE {
        return Answered {
            device: d,
            said: Err(Refusal::BadLength),
        };
    }
    let counts = d.counts;
    if within(counts) {
        return outcome(d, request, page);
    }
    Answered {
        device: d,
        said: Err(Refusal::InvalidParam),
    }
}
