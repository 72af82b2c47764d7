// Records of the transfer queue.
ghost use Rattle.std.specs.Prelude.{◌≡◌};
ghost use Rattle.records.specs.Slice.{read_says, write_says, written, says_written};
ghost use Rattle.records.specs.Records.{transfer, transfer_values, says_transfer, transfer_status, transfer_status_values, says_transfer_status};

use codes::Refusal;

// VirtIOSndPcmXfer: the head of a transfer; the payload follows it.
#[derive(Clone, Copy)]
pub struct Transfer {
    pub stream: u32,
}

impl Transfer {
    pub const SIZE: usize = 4;

    // Writes the record at the front of a slice.
    pub fn write(self, out: &mut [u8]) -> Result<(), Refusal>
        ensures { (says_written result ≡ write_says transfer out.old) × (out.new ≡ written transfer (transfer_values self) out.old) }
    {
        if out.len() < Transfer::SIZE {
            return Err(Refusal::BadLength);
        }
        layout::put_u32(out, 0, self.stream);
        Ok(())
    }

    // The record at the front of a slice.
    pub fn read(s: &[u8]) -> Result<Transfer, Refusal>
        ensures { says_transfer result ≡ read_says transfer s.now }
    {
        if s.len() < Transfer::SIZE {
            return Err(Refusal::BadLength);
        }
        Ok(Transfer {
            stream: layout::get_u32(s, 0),
        })
    }
}

// VirtIOSndPcmStatus: how a transfer ended.
#[derive(Clone, Copy)]
pub struct TransferStatus {
    pub status: u32,
    pub latency: u32,
}

impl TransferStatus {
    pub const SIZE: usize = 8;

    // Writes the record at the front of a slice.
    pub fn write(self, out: &mut [u8]) -> Result<(), Refusal>
        ensures { (says_written result ≡ write_says transfer_status out.old) × (out.new ≡ written transfer_status (transfer_status_values self) out.old) }
    {
        if out.len() < TransferStatus::SIZE {
            return Err(Refusal::BadLength);
        }
        layout::put_u32(out, 0, self.status);
        layout::put_u32(out, 4, self.latency);
        Ok(())
    }

    // The record at the front of a slice.
    pub fn read(s: &[u8]) -> Result<TransferStatus, Refusal>
        ensures { says_transfer_status result ≡ read_says transfer_status s.now }
    {
        if s.len() < TransferStatus::SIZE {
            return Err(Refusal::BadLength);
        }
        Ok(TransferStatus {
            status: layout::get_u32(s, 0),
            latency: layout::get_u32(s, 4),
        })
    }
}
