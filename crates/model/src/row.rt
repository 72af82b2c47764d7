// What the records of the three tables have in common.
ghost use Rattle.std.specs.Prelude.{◌≡◌, ℕ, List, refl};
ghost use Rattle.layout.specs.Layout.{size};
ghost use Rattle.records.specs.Records.{jack_info, jack_info_values, pcm_info, pcm_info_values, channel_map, channel_map_values};
ghost use Rattle.records.specs.Slice.{written};

use records::{ChannelMap, JackInfo, PcmInfo};

// A record of a table: how many bytes it takes in an answer, and how they are written.
pub(crate) trait Row: Copy {
    ghost widths: { List ℕ };

    ghost values: { Self → List ℕ };

    ghost SIZE: { ℕ };

    const SIZE: usize;

    fn put(self, out: &mut [u8])
        ensures { out.new ≡ written widths (values self) out.old };

    ghost sized: { SIZE ≡ size widths };
}

impl Row for JackInfo {
    ghost widths = { jack_info };

    ghost values = { jack_info_values };

    ghost SIZE = { 24 };

    const SIZE: usize = JackInfo::SIZE;

    ghost sized = { refl };

    fn put(self, out: &mut [u8]) {
        let _ = self.write(out);
    }
}

impl Row for PcmInfo {
    ghost widths = { pcm_info };

    ghost values = { pcm_info_values };

    ghost SIZE = { 32 };

    const SIZE: usize = PcmInfo::SIZE;

    ghost sized = { refl };

    fn put(self, out: &mut [u8]) {
        let _ = self.write(out);
    }
}

impl Row for ChannelMap {
    ghost widths = { channel_map };

    ghost values = { channel_map_values };

    ghost SIZE = { 24 };

    const SIZE: usize = ChannelMap::SIZE;

    ghost sized = { refl };

    fn put(self, out: &mut [u8]) {
        let _ = self.write(out);
    }
}
