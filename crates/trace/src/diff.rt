// Two traces compared: the list of their differences, as rows in a lent room.
ghost use Rattle.std.specs.Prelude.{◌≡◌, ◌+◌, ◌*◌, ◌≤◌, ◌&&◌, eqb, length, true, Some};
ghost use Rattle.std.proofs.lemmas.List.Edits.{sets};
ghost use Rattle.layout.specs.Layout.{write};
ghost use Rattle.layout.specs.Rows.{rows_bytes};
ghost use Rattle.trace.specs.Compare.{contents_of, diffs_of};
ghost use Rattle.trace.specs.Listed.{row_by, row_widths, row_values, row_of, tallied_of, compared_of, listed_of};
ghost use Rattle.trace.specs.Gaps.{gap_of, gap_list, found_size, over_of};

use crate::difference::{CompareError, Contents, Difference, Gap, Row};
use crate::field::Field;
use crate::fields;
use layout;

// The bytes of a row.
pub const ROW: usize = 34;

fn contents(f: Field) -> Contents
    ensures { result ≡ contents_of f }
{
    match f {
        Field::Start {
            stream,
            total,
            period,
        } => Contents {
            tag: 0,
            a: stream,
            b: total,
            c: period,
        },
        Field::Submitted { slot, offset, len } => Contents {
            tag: 1,
            a: slot as u32,
            b: offset,
            c: len,
        },
        Field::Completed { slot, status } => Contents {
            tag: 2,
            a: slot as u32,
            b: status,
            c: 0,
        },
        Field::End { answer } => Contents {
            tag: 3,
            a: answer as u32,
            b: 0,
            c: 0,
        },
    }
}

fn row(d: Difference) -> Row
    ensures { result ≡ row_by d }
{
    match d {
        Difference::OnlyFirst { at, field } => {
            let f = contents(field);
            Row {
                position: at,
                kind: 0,
                tag: f.tag,
                a: f.a,
                b: f.b,
                c: f.c,
                x: 0,
                y: 0,
                z: 0,
            }
        }
        Difference::OnlySecond { at, field } => {
            let g = contents(field);
            Row {
                position: at,
                kind: 1,
                tag: g.tag,
                a: 0,
                b: 0,
                c: 0,
                x: g.a,
                y: g.b,
                z: g.c,
            }
        }
        Difference::Other { at, first, second } => {
            let f = contents(first);
            let g = contents(second);
            Row {
                position: at,
                kind: 2,
                tag: f.tag,
                a: f.a,
                b: f.b,
                c: f.c,
                x: g.a,
                y: g.b,
                z: g.c,
            }
        }
    }
}

// A row's bytes at a place of the room.
fn put_row(list: &mut [u8], at: usize, r: Row)
    requires { at + 34 ≤ length list.old }
    ensures { list.new ≡ sets list.old at (write row_widths (row_values r)) }
{
    let kind = at + 8;
    let tag = kind + 1;
    let a = tag + 1;
    let b = a + 4;
    let c = b + 4;
    let x = c + 4;
    let y = x + 4;
    let z = y + 4;
    layout::put_u64(list, at, r.position);
    layout::put_u8(list, kind, r.kind);
    layout::put_u8(list, tag, r.tag);
    layout::put_u32(list, a, r.a);
    layout::put_u32(list, b, r.b);
    layout::put_u32(list, c, r.c);
    layout::put_u32(list, x, r.x);
    layout::put_u32(list, y, r.y);
    layout::put_u32(list, z, r.z);
}

// The rows of what differs at one position.
fn put_gap(list: &mut [u8], at: usize, g: Gap)
    requires { at + length (gap_list g) * 34 ≤ length list.old }
    ensures { list.new ≡ sets list.old at (rows_bytes row_of (gap_list g)) }
{
    match g {
        Gap::Same => {}
        Gap::One { d } => {
            let r = row(d);
            put_row(list, at, r);
        }
        Gap::Two { d, e } => {
            let r = row(d);
            put_row(list, at, r);
            let q = row(e);
            put_row(list, at + ROW, q);
        }
    }
}

// Two fields at one position.
fn pair(i: u64, f: Field, g: Field) -> Gap
    ensures { result ≡ gap_of i (Some f) (Some g) }
{
    let x = contents(f);
    let y = contents(g);
    if x.tag != y.tag {
        return Gap::Two {
            d: Difference::OnlyFirst { at: i, field: f },
            e: Difference::OnlySecond { at: i, field: g },
        };
    }
    if x == y {
        return Gap::Same;
    }
    Gap::One {
        d: Difference::Other {
            at: i,
            first: f,
            second: g,
        },
    }
}

// What differs at one position.
fn gap(i: u64, x: Option<Field>, y: Option<Field>) -> Gap
    ensures { result ≡ gap_of i x y }
{
    match (x, y) {
        (Some(f), Some(g)) => pair(i, f, g),
        (Some(f), None) => Gap::One {
            d: Difference::OnlyFirst { at: i, field: f },
        },
        (None, Some(g)) => Gap::One {
            d: Difference::OnlySecond { at: i, field: g },
        },
        (None, None) => Gap::Same,
    }
}

fn weight(g: Gap) -> usize
    ensures { result ≡ length (gap_list g) }
{
    match g {
        Gap::Same => 0,
        Gap::One { d: _ } => 1,
        Gap::Two { d: _, e: _ } => 2,
    }
}

fn taken(x: Option<Field>) -> usize
    ensures { result ≡ found_size x }
{
    match x {
        Some(f) => fields::size(f),
        None => 0,
    }
}

fn is_over(x: Option<Field>, y: Option<Field>) -> bool
    ensures { result ≡ over_of x y }
{
    x.is_none() && y.is_none()
}

// How many differences there are. Each trace is walked by steps as long as its own fields.
fn count(first: &[u8], second: &[u8]) -> usize
    ensures { result ≡ length (diffs_of first.now second.now) }
{
    let mut at: usize = 0;
    let mut bt: usize = 0;
    let mut i: u64 = 0;
    let mut n: usize = 0;
    loop {
        let x = fields::field_at(first, at);
        let y = fields::field_at(second, bt);
        let over = is_over(x, y);
        if over {
            return n;
        }
        let g = gap(i, x, y);
        let more = weight(g);
        let u = taken(x);
        let v = taken(y);
        n += more;
        at += u;
        bt += v;
        i += 1;
    }
}

// The rows of all differences, at the front of a room that holds them: the same walk.
fn fill(first: &[u8], second: &[u8], list: &mut [u8])
    requires { length (diffs_of first.now second.now) * 34 ≤ length list.old }
    ensures { list.new ≡ sets list.old 0 (rows_bytes row_of (diffs_of first.now second.now)) }
{
    let mut at: usize = 0;
    let mut bt: usize = 0;
    let mut i: u64 = 0;
    let mut n: usize = 0;
    loop {
        let x = fields::field_at(first, at);
        let y = fields::field_at(second, bt);
        let over = is_over(x, y);
        if over {
            return;
        }
        let g = gap(i, x, y);
        let more = weight(g);
        let u = taken(x);
        let v = taken(y);
        put_gap(list, n * ROW, g);
        n += more;
        at += u;
        bt += v;
        i += 1;
    }
}

// How many differences two traces have. The first is judged first.
pub fn differences(first: &[u8], second: &[u8]) -> Result<usize, CompareError>
    ensures { result ≡ tallied_of first.now second.now }
{
    if let Err(e) = fields::scan(first) {
        return Err(CompareError::BadFirst { at: e.at() });
    }
    if let Err(e) = fields::scan(second) {
        return Err(CompareError::BadSecond { at: e.at() });
    }
    Ok(count(first, second))
}

// The differences of two traces, as rows at the front of the room; all of them, or none.
pub fn compare(first: &[u8], second: &[u8], list: &mut [u8]) -> Result<usize, CompareError>
    ensures { (result ≡ compared_of first.now second.now (length list.old)) × (list.new ≡ listed_of first.now second.now list.old) }
{
    let n = differences(first, second)?;
    if list.len() / ROW < n {
        return Err(CompareError::ListFull);
    }
    fill(first, second, list);
    Ok(n)
}
