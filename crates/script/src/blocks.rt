// Text that is written in blocks.
use std::io;
use std::io::Write;

// The bytes of a block.
const BLOCK_SIZE: usize = 16384;

// Keeps text until a block is full, and then writes it: a piece of text that does not fit is divided. What is kept is written by `flush`
// alone, and what a failed write was to write is kept no longer.
#[derive(Drop)]
pub(crate) struct Blocks<W: Write + Drop> {
    output: W,
    block: [u8; BLOCK_SIZE],
    length: usize,
}

impl<W: Write + Drop> Blocks<W> {
    // Nothing is kept.
    pub(crate) fn new(output: W) -> Blocks<W> {
        Blocks {
            output,
            block: [0; BLOCK_SIZE],
            length: 0,
        }
    }

    // Writes what is kept.
    fn write_block(&mut self) -> io::Result<()> {
        let length = self.length.min(BLOCK_SIZE);
        self.length = 0;
        self.output.write_all(&self.block[..length])
    }
}

impl<W: Write + Drop> Write for Blocks<W> {
    fn write(&mut self, bytes: &[u8]) -> io::Result<usize> {
        let length = self.length;
        let room = BLOCK_SIZE.saturating_sub(length);
        let count = bytes.len().min(room);
        if let Some(rest) = self.block.get_mut(length..length.saturating_add(count)) {
            rest.copy_from_slice(&bytes[..count]);
        }
        self.length = length.saturating_add(count);
        if BLOCK_SIZE <= self.length {
            self.write_block()?;
        }
        Ok(count)
    }

    fn flush(&mut self) -> io::Result<()> {
        self.write_block()?;
        self.output.flush()
    }
}
