// The fields of a trace: tag 1, length 2, contents.
ghost use Rattle.std.specs.Prelude.{◌≡◌, ◌+◌, ◌≤◌, length, leb, eqb, ◌&&◌};
ghost use Rattle.layout.specs.Bytes.{num_at};
ghost use Rattle.trace.specs.Field.{size_of};
ghost use Rattle.trace.specs.Fields.{tagged_at, field_at, scan_from, scan_of};

use crate::field::{Field, Judgement, TraceError};
use layout;

// The length says n, and as many bytes are there.
fn whole(s: &[u8], at: usize, n: usize) -> bool
    requires { (at + 3 ≤ length s.now) × (n ≤ 12) }
    ensures { result ≡ (eqb (num_at (at + 1) 2 s.now) n && leb (at + (3 + n)) (length s.now)) }
{
    let told = layout::get_u16(s, at + 1) as usize;
    told == n && 3 + n <= s.len() - at
}

// The field behind a tag. None: an unknown tag, a wrong length or a cut field. Each is read where it is known to be whole.
#[tactic(auto, unfolding(codes::specs::Says::guard))]
fn contents_at(s: &[u8], at: usize, tag: u8) -> Option<Field>
    requires { at + 3 ≤ length s.now }
    ensures { result ≡ tagged_at tag at s.now }
{
    match tag {
        0 if whole(s, at, 12) => Some(Field::Start {
            stream: layout::get_u32(s, at + 3),
            total: layout::get_u32(s, at + 7),
            period: layout::get_u32(s, at + 11),
        }),
        1 if whole(s, at, 9) => Some(Field::Submitted {
            slot: layout::get_u8(s, at + 3),
            offset: layout::get_u32(s, at + 4),
            len: layout::get_u32(s, at + 8),
        }),
        2 if whole(s, at, 5) => Some(Field::Completed {
            slot: layout::get_u8(s, at + 3),
            status: layout::get_u32(s, at + 4),
        }),
        3 if whole(s, at, 1) => Some(Field::End {
            answer: layout::get_u8(s, at + 3),
        }),
        _ => None,
    }
}

// The field at a place of a trace. None: an unknown tag, a wrong length or a cut field.
pub(crate) fn field_at(s: &[u8], at: usize) -> Option<Field>
    ensures { result ≡ field_at at s.now }
{
    let n = s.len();
    if n <= at {
        return None;
    }
    if n - at < 3 {
        return None;
    }
    contents_at(s, at, layout::get_u8(s, at))
}

// The bytes that a field takes.
pub(crate) fn size(f: Field) -> usize
    ensures { result ≡ size_of f }
{
    match f {
        Field::Start { .. } => 15,
        Field::Submitted { .. } => 12,
        Field::Completed { .. } => 8,
        Field::End { .. } => 4,
    }
}

// Every field is one: an unknown tag, a wrong length or a cut field is told by its place.
pub(crate) fn scan_fields(s: &[u8]) -> Judgement
    ensures { result ≡ scan_from (length s.now) 0 s.now }
{
    let mut at: usize = 0;
    // Each step is as long as its field, so the loop keeps its own place.
    while at != s.len() {
        let Some(f) = field_at(s, at) else {
            return Err(TraceError::BadTrace { at });
        };
        at += size(f);
    }
    Ok(())
}

// 18 of a trace: an empty one, or the first field that is none.
pub fn scan(s: &[u8]) -> Judgement
    ensures { result ≡ scan_of s.now }
{
    if s.len() == 0 {
        return Err(TraceError::BadTrace { at: 0 });
    }
    scan_fields(s)
}
