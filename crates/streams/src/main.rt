// Lists the streams of a PCM info answer that is read from standard input.
#![tactic(auto)]

use std::io;
use std::io::Read;

// Reads until `buf` is full or the input ends, and gives how many bytes stand at its start. Not `read_to_end`: nothing is allocated, and
// a page that comes as one message is asked for whole.
fn read_full(input: &mut impl Read, buf: &mut [u8]) -> io::Result<usize> {
    let mut done: usize = 0;
    while done < buf.len() {
        let n = input.read(&mut buf[done..])?;
        if n == 0 {
            return Ok(done);
        }
        done += n;
    }
    Ok(done)
}

// One byte past the page tells an answer of 4,096 bytes from a longer one.
fn read_answer(input: &mut impl Read, page: &mut [u8]) -> io::Result<usize> {
    let n = read_full(input, page)?;
    if n < 4096 {
        return Ok(n);
    }
    let mut more = [0u8; 1];
    let extra = read_full(input, &mut more)?;
    Ok(if extra == 0 { 4096 } else { 4097 })
}

// Writes line `k`; past the last line there is none.
fn show(rt: &impl Print, n: usize, page: &[u8; 4096], k: usize) -> io::Result<bool> {
    let mut text = [0u8; 32];
    let Ok(len) = listing::line_at(n, page, k, &mut text) else {
        return Ok(false);
    };
    rt.write_all(&text[..len])?;
    Ok(len > 0)
}

fn main(rt: HostRuntime) -> io::Result<()> {
    let mut page = [0u8; 4096];
    let n = read_answer(&mut rt.reader(), &mut page)?;
    for k in 0..128 {
        if !show(&rt, n, &page, k)? {
            break;
        }
    }
    Ok(())
}
