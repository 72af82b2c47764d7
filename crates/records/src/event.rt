// Records of the event queue.
ghost use Rattle.std.specs.Prelude.{◌≡◌};
ghost use Rattle.records.specs.Slice.{read_says, write_says, written, says_written};
ghost use Rattle.records.specs.Records.{event, event_values, says_event};
ghost use Rattle.records.specs.Notice.{says_notice, notice_says};

use codes::{NotificationType, Refusal};

// VirtIOSndEvent: a notification's code and its data.
#[derive(Clone, Copy)]
pub struct Event {
    pub code: u32,
    pub data: u32,
}

impl Event {
    pub const SIZE: usize = 8;

    // Writes the record at the front of a slice.
    pub fn write(self, out: &mut [u8]) -> Result<(), Refusal>
        ensures { (says_written result ≡ write_says event out.old) × (out.new ≡ written event (event_values self) out.old) }
    {
        if out.len() < Event::SIZE {
            return Err(Refusal::BadLength);
        }
        layout::put_u32(out, 0, self.code);
        layout::put_u32(out, 4, self.data);
        Ok(())
    }

    // The record at the front of a slice.
    pub fn read(s: &[u8]) -> Result<Event, Refusal>
        ensures { says_event result ≡ read_says event s.now }
    {
        if s.len() < Event::SIZE {
            return Err(Refusal::BadLength);
        }
        Ok(Event {
            code: layout::get_u32(s, 0),
            data: layout::get_u32(s, 4),
        })
    }
}

// What an event says: its kind and its data.
#[derive(Clone, Copy)]
pub enum Notice {
    Event(NotificationType, u32),
    // A change of a control element: which, and the mask of what changed.
    Control(u16, u16),
}

// Only a slice of an event's length is an event, and one of another length says nothing. A code
// that is unknown is refused.
pub fn latest_notification(s: &[u8]) -> Result<Option<Notice>, Refusal>
    ensures { says_notice result ≡ notice_says s.now }
{
    if s.len() != Event::SIZE {
        return Ok(None);
    }
    let event = Event::read(s)?;
    let kind = NotificationType::try_from(event.code)?;
    Ok(Some(Notice::Event(kind, event.data)))
}
