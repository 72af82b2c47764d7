// What a plan says, with its request written into a lent message.
ghost use Rattle.std.specs.Prelude.{◌≡◌, ◌≤◌, ◌++◌, length, drop};
ghost use Rattle.layout.specs.Lent.{message_size};
ghost use Rattle.sound_core.specs.Reply.{request_bytes, message_after, reply_of, tell_of, told_in};

use crate::plan::{Request, Say, Value};
use codes::Refusal;
use records::{PcmCommand, Query, Remap, SetParameters};

// A request of so many bytes to send, or a result.
#[derive(Clone, Copy)]
pub enum Reply {
    Send(usize),
    Done(Value),
}

// The least length of a message buffer: the longest request.
pub const MESSAGE: usize = SetParameters::SIZE;

// A request, written by its record; its length.
fn put_request(q: Request, message: &mut [u8]) -> usize
    requires { message_size ≤ length message.old }
    ensures { (result ≡ length (request_bytes q)) × (message.new ≡ request_bytes q ++ drop (length (request_bytes q)) message.old) }
{
    match q {
        Request::Query(record) => {
            let _ = record.write(message);
            Query::SIZE
        }
        Request::Remap(record) => {
            let _ = record.write(message);
            Remap::SIZE
        }
        Request::Command(record) => {
            let _ = record.write(message);
            PcmCommand::SIZE
        }
        Request::Set(record) => {
            let _ = record.write(message);
            SetParameters::SIZE
        }
    }
}

// Only a request is written.
fn put(say: Result<Say, Refusal>, message: &mut [u8]) -> Result<Reply, Refusal>
    requires { message_size ≤ length message.old }
    ensures { (result ≡ reply_of say) × (message.new ≡ message_after say message.old) }
{
    match say? {
        Say::Send(q) => Ok(Reply::Send(put_request(q, message))),
        Say::Done(v) => Ok(Reply::Done(v)),
    }
}

// What is said, with a lent message: a request's own bytes are written, and a result writes none. A
// short message is refused.
pub fn tell(say: Result<Say, Refusal>, message: &mut [u8]) -> Result<Reply, Refusal>
    ensures { (result ≡ tell_of say (length message.old)) × (message.new ≡ told_in say message.old) }
{
    if message.len() < MESSAGE {
        return Err(Refusal::BadLength);
    }
    put(say, message)
}
