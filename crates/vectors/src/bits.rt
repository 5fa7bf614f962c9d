// Words of 8 bytes, the lowest byte first, as they are read; and why the reading stops.
use console::read_full;
use std::io;
use std::io::Read;

// Why no more is read: what stands there is no run, or the input failed.
#[derive(Clone, Copy)]
pub(crate) enum Stop {
    Malformed,
    Io(io::Error),
}

impl From<io::Error> for Stop {
    fn from(error: io::Error) -> Stop {
        Stop::Io(error)
    }
}

// The next words, as many as there are; None where the input has ended.
pub(crate) fn read_words<R: Read, const N: usize>(input: &mut R) -> Result<Option<[u64; N]>, Stop> {
    let mut bytes = [[0; 8]; N];
    let room = bytes.as_flattened_mut();
    let n = read_full(input, room)?;
    if n == 0 {
        return Ok(None);
    }
    if n < room.len() {
        return Err(Stop::Malformed);
    }
    let mut words = [0; N];
    for (word, bytes) in words.iter_mut().zip(bytes.iter()) {
        *word = u64::from_le_bytes(*bytes);
    }
    Ok(Some(words))
}
