// The listing of answers good and bad, each under a title.
#![tactic(auto)]

ghost use Rattle.std.specs.Prelude.{◌≤◌};

use std::io;

// Record `i` of the page: its direction, and its channels from `min` to `max`.
fn put_stream(page: &mut [u8], i: usize, direction: u8, min: u8, max: u8)
    requires { i ≤ 126 }
{
    let at = 4 + i * 32;
    layout::put_u8(page, at + 24, direction);
    layout::put_u8(page, at + 25, min);
    layout::put_u8(page, at + 26, max);
}

// As many streams as a page holds.
fn put_all(page: &mut [u8]) {
    for i in 0..127 {
        put_stream(page, i, (i % 3) as u8, 1, (i + 1) as u8);
    }
}

// Writes line `k`; past the last line there is none.
fn show(rt: &impl Print, n: usize, page: &[u8; 4096], k: usize) -> io::Result<bool> {
    let mut text = [0u8; 32];
    let Ok(len) = listing::line_at(n, page, k, &mut text) else {
        return Ok(false);
    };
    rt.write_all(&text[..len])?;
    Ok(len > 0)
}

fn list(rt: &impl Print, title: &str, n: usize, page: &[u8; 4096]) -> io::Result<()> {
    println!(rt; "{title}:")?;
    for k in 0..128 {
        if !show(rt, n, page, k)? {
            break;
        }
    }
    Ok(())
}

fn main(rt: HostRuntime) -> io::Result<()> {
    let mut page = [0u8; 4096];
    layout::put_u32(&mut page, 0, 0x8000);
    put_stream(&mut page, 0, 0, 1, 2);
    put_stream(&mut page, 1, 1, 1, 1);
    put_stream(&mut page, 2, 2, 0, 255);
    let lengths = [
        ("three directions", 100usize),
        ("no streams", 4),
        ("one byte short", 99),
        ("under 4 bytes", 3),
        ("one record too many", 4100),
    ];
    for (title, n) in lengths {
        list(&rt, title, n, &page)?;
    }
    layout::put_u32(&mut page, 0, 0x8002);
    list(&rt, "header not ok", 100, &page)?;
    list(&rt, "header not ok, and one byte short", 99, &page)?;
    layout::put_u32(&mut page, 0, 0x8000);
    put_all(&mut page);
    list(&rt, "127 streams", 4068, &page)
}
