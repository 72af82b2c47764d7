// Lines of the output.
use std::io;

// `NAME VALUE`
pub(crate) fn plain(rt: &impl Print, name: &[u8], value: u64) -> io::Result<()> {
    rt.write_all(name)?;
    println!(rt; " {value}")
}

// A constant of the header. Its prefix is written here, so that the many names stay short.
pub(crate) fn number(rt: &impl Print, name: &[u8], value: u64) -> io::Result<()> {
    rt.write_all(b"VIRTIO_SND_")?;
    plain(rt, name, value)
}

// Such constants, one after the other.
pub(crate) fn numbers(rt: &impl Print, table: &[(&str, u64)]) -> io::Result<()> {
    for (name, value) in table {
        number(rt, name.as_bytes(), *value)?;
    }
    Ok(())
}

// A bit of a mask.
pub(crate) fn mask(rt: &impl Print, name: &[u8], value: u64) -> io::Result<()> {
    rt.write_all(b"1 << ")?;
    number(rt, name, value)
}

// The size of a record.
pub(crate) fn size(rt: &impl Print, record: &str, bytes: usize) -> io::Result<()> {
    println!(rt; "virtio_snd_{record} {bytes}")
}

// `RECORD.FIELD OFFSET WIDTH`, of a record that was written with this one field all ones.
pub(crate) fn field(rt: &impl Print, record: &str, name: &str, bytes: &[u8]) -> io::Result<()> {
    let first = bytes.iter().position(|b| *b != 0).unwrap_or(bytes.len());
    let ones = bytes.iter().filter(|b| **b == 255).count();
    println!(rt; "virtio_snd_{record}.{name} {first} {ones}")
}
