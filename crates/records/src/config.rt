// The configuration of a device: how many it has of each.
ghost use Rattle.std.specs.Prelude.{◌≡◌};
ghost use Rattle.layout.specs.Layout.{size};
ghost use Rattle.records.specs.Slice.{says_written};
ghost use Rattle.records.specs.Config.{config_row, config_says, read_of, config_write_says, config_written};

use codes::Refusal;

// The count of control elements is 0 where there is none.
#[derive(Clone, Copy)]
pub struct Config {
    pub jacks: u32,
    pub streams: u32,
    pub chmaps: u32,
    pub controls: u32,
}

impl Config {
    pub const SIZE: usize = 12;

    // With control elements.
    pub const SIZE_CTLS: usize = 16;

    fn size_in(controls: bool) -> usize
        ensures { result ≡ size (config_row controls) }
    {
        if controls {
            Config::SIZE_CTLS
        } else {
            Config::SIZE
        }
    }

    // Past the end of 12 bytes nothing is stored.
    pub fn write(self, controls: bool, out: &mut [u8]) -> Result<(), Refusal>
        ensures { (says_written result ≡ config_write_says controls out.old) × (out.new ≡ config_written controls self out.old) }
    {
        if out.len() != Config::size_in(controls) {
            return Err(Refusal::BadLength);
        }
        layout::put_u32(out, 0, self.jacks);
        layout::put_u32(out, 4, self.streams);
        layout::put_u32(out, 8, self.chmaps);
        layout::put_u32(out, 12, self.controls);
        Ok(())
    }

    // Past the end of 12 bytes a number is 0.
    pub fn read(s: &[u8], controls: bool) -> Result<Config, Refusal>
        ensures { result ≡ read_of (config_says controls s.now) }
    {
        if s.len() != Config::size_in(controls) {
            return Err(Refusal::BadLength);
        }
        Ok(Config {
            jacks: layout::get_u32(s, 0),
            streams: layout::get_u32(s, 4),
            chmaps: layout::get_u32(s, 8),
            controls: layout::get_u32(s, 12),
        })
    }
}
