// Bytes on the output.
use rule_text::hex_digit;
use std::io;
use std::io::Write;

// A line of this text and then each byte as two upper-case hexadecimal digits.
// Kept: two digits in one write, since `{x:02X}` writes a zero and what follows it apart, and standard output has no buffer.
pub fn show_hex<W: Write>(bytes: &[u8], before: &str, out: &mut W) -> io::Result<()> {
    write!(out, "{before}")?;
    for x in bytes {
        out.write_all(&[hex_digit(x / 16), hex_digit(x % 16)])?;
    }
    writeln!(out)
}
