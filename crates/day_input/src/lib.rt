// A whole input, read into a lent buffer. Nothing is promised of the bytes read: they are the system's.
#![tactic(auto)]

ghost use Rattle.std.specs.Prelude.{MatchResult};
ghost use Rattle.io.specs.Counts.{IsPrefixLen};

use std::io::Read;

// A read failed, after so many bytes were put at the start of the buffer.
#[derive(Clone, Copy)]
pub struct ReadFailed {
    pub bytes: usize,
}

// Reads until the buffer is full, the input ends or a read fails. Answers how many bytes were put at its start.
pub fn read_whole<R: Read>(reader: &mut R, buf: &mut [u8]) -> Result<usize, ReadFailed>
    ensures { MatchResult result (λ bytes. IsPrefixLen bytes buf.new) (λ failed. IsPrefixLen failed.bytes buf.new) }
{
    let mut bytes = 0;
    while bytes < buf.len() {
        match reader.read(&mut buf[bytes..]) {
            Ok(0) => return Ok(bytes),
            Ok(more) => bytes += more,
            Err(_) => return Err(ReadFailed { bytes }),
        }
    }
    Ok(bytes)
}
