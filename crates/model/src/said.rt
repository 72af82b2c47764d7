// What the device says to a request.
use crate::device::Device;
use codes::Refusal;

// What a request or a transfer leaves, and what was said: an answer of so many bytes stands in the
// lent slice, or nothing was looked at.
#[derive(Clone, Copy)]
pub struct Answered {
    pub device: Device,
    pub said: Result<usize, Refusal>,
}
