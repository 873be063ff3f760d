// What a case prints: to a writer.
use std::io;
use std::io::Write;

// A space and the bytes in hex, or nothing where there are none. (Three lines here, and
// for a digest in digest_vectors: a crate for both would be longer, and the kit's `encode_to_slice` needs a room.)
pub(crate) fn hex<W: Write>(writer: &mut W, bytes: &[u8]) -> io::Result<()> {
    if !bytes.is_empty() {
        write!(writer, " ")?;
    }
    for byte in bytes {
        write!(writer, "{byte:02x}")?;
    }
    Ok(())
}
