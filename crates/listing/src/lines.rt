// The lines. Each is made as a text and copied out once: so a slice that is too short is as it was.
ghost use Rattle.std.specs.Prelude.{◌≡◌, ◌+◌, ◌≤◌, ◌<◌, length};
ghost use Rattle.listing.specs.Listing.{decimal, direction_word, count_line, refused_line, stream_line, line_at, record_at, Gives};
ghost use Rattle.listing.specs.Text.{Adds, text_of};

use crate::verdict::{HEADER, judge};
use codes::Refusal;
use records::PcmInfo;

// The longest line, "126 output 255-255", has 19 bytes. An array with its length, since there is no
// heap.
#[derive(Clone, Copy)]
struct Text {
    bytes: [u8; 32],
    len: usize,
}

impl Text {
    fn new() -> Text
        ensures { result.len ≡ 0 }
    {
        Text {
            bytes: [0; 32],
            len: 0,
        }
    }

    fn add(&mut self, word: &[u8])
        requires { self.old.len + length word.now ≤ 32 }
        ensures { Adds self.old word.now self.new }
    {
        layout::put_bytes(&mut self.bytes, self.len, word);
        self.len += word.len();
    }

    // Not `write!`: its contract does not say when it fails, and a line that fits never does.
    fn add_decimal(&mut self, n: u8)
        requires { self.old.len ≤ 29 }
        ensures adds { Adds self.old (decimal n) self.new }
        ensures len_bound { self.new.len ≤ self.old.len + 3 }
    {
        if n < 10 {
            return self.add(&[48 + n]);
        }
        if n < 100 {
            return self.add(&[48 + n / 10, 48 + n % 10]);
        }
        self.add(&[48 + n / 100, 48 + n / 10 % 10, 48 + n % 10]);
    }

    // The text, copied out: its length.
    fn give(&self, out: &mut [u8]) -> Result<usize, Refusal>
        requires { self.now.len ≤ 32 }
        ensures { Gives (text_of self.now) result out.old out.new }
    {
        if out.len() < self.len {
            return Err(Refusal::BadLength);
        }
        layout::put_bytes(out, 0, &self.bytes[..self.len]);
        Ok(self.len)
    }
}

fn add_direction(t: &mut Text, direction: u8)
    requires { t.old.len ≤ 24 }
    ensures adds { Adds t.old (direction_word direction) t.new }
    ensures len_bound { t.new.len ≤ t.old.len + 8 }
{
    match direction {
        0 => t.add(b" output "),
        1 => t.add(b" input "),
        _ => t.add(b" other "),
    }
}

// "streams N"
pub fn count_line(n: u8, out: &mut [u8]) -> Result<usize, Refusal>
    ensures { Gives (count_line n) result out.old out.new }
{
    let mut t = Text::new();
    t.add(b"streams ");
    t.add_decimal(n);
    t.add(b"\n");
    t.give(out)
}

// "refused N"
pub fn refused_line(r: Refusal, out: &mut [u8]) -> Result<usize, Refusal>
    ensures { Gives (refused_line r) result out.old out.new }
{
    let number = r.number();
    let mut t = Text::new();
    t.add(b"refused ");
    t.add_decimal(number as u8);
    t.add(b"\n");
    t.give(out)
}

// "ID DIRECTION MIN-MAX"
pub fn stream_line(i: u8, p: PcmInfo, out: &mut [u8]) -> Result<usize, Refusal>
    ensures { Gives (stream_line i p) result out.old out.new }
{
    let mut t = Text::new();
    t.add_decimal(i);
    add_direction(&mut t, p.direction);
    t.add_decimal(p.min);
    t.add(b"-");
    t.add_decimal(p.max);
    t.add(b"\n");
    t.give(out)
}

// The line of the stream whose record is number `i` of the page.
fn record_line(page: &[u8], i: u8, out: &mut [u8]) -> Result<usize, Refusal>
    requires { (length page.now ≡ 4096) × (i < 127) }
    ensures { Gives (stream_line i (record_at i page.now)) result out.old out.new }
{
    let at = HEADER + (i as usize) * PcmInfo::SIZE;
    let Ok(p) = PcmInfo::read(&page[at..]) else {
        return Err(Refusal::BadLength);
    };
    stream_line(i, p, out)
}

// Line `k` of the listing; past the last one, a line of no bytes.
pub fn line_at(n: usize, page: &[u8; 4096], k: usize, out: &mut [u8]) -> Result<usize, Refusal>
    ensures { Gives (line_at n page.now k) result out.old out.new }
{
    match judge(n, page) {
        Err(r) => { if k == 0 { refused_line(r, out) } else { Ok(0) } }
        Ok(count) => {
            if k == 0 {
                return count_line(count, out);
            }
            if (count as usize) < k {
                return Ok(0);
            }
            record_line(page, (k - 1) as u8, out)
        }
    }
}
