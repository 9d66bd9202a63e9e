// Lines of output.
use std::io;

// A case and a number.
pub fn line(rt: &impl Print, text: &[u8], n: u32) -> io::Result<()> {
    rt.write_all(text)?;
    println!(rt; ": {n}")
}
