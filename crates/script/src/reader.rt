// The run of a script: its lines, from the bytes that are read, and the counts at the end.
use crate::blocks::Blocks;
use crate::command::Command;
use crate::fault::LineError;
use crate::interpreter::Interpreter;
use crate::line::Line;
use std::alloc::{AllocError, Global};
use std::io;
use std::io::{ErrorKind, Read, Write};

#[cfg(test)]
mod tests;

// The longest line, and how many bytes are read at once.
const LONGEST_LINE: usize = 65536;

const BLOCK_SIZE: usize = 65536;

// The line at hand, with all that it is joined to: its bytes, how many of them are of lines that ended, and the number of the first line.
#[derive(Drop)]
struct Script {
    interpreter: Interpreter,
    text: Vec<u8>,
    joined: usize,
    number: u32,
}

impl Script {
    fn new(alloc: Global) -> Result<Script, AllocError> {
        Ok(Script {
            interpreter: Interpreter::new(alloc)?,
            text: Vec::new(alloc),
            joined: 0,
            number: 1,
        })
    }

    // Does what a line says that has words. Apart from the line's end: an empty line then costs no more than its line feed.
    #[inline(never)]
    fn run_words<W: Write>(&mut self, out: &mut W) -> io::Result<()> {
        let mut line = Line::new(&self.text);
        match Command::read(&mut line, &self.interpreter.held) {
            Ok(command) => self.interpreter.perform(command, out),
            Err(LineError::Fault(fault)) => {
                self.interpreter.counts.add_bad_line();
                writeln!(out, "line {}, {fault}", self.number)
            }
            Err(LineError::Memory(error)) => Err(io::Error::from(error)),
        }
    }

    // Runs a line that is whole.
    fn run_line<W: Write>(&mut self, out: &mut W) -> io::Result<()> {
        if LONGEST_LINE < self.text.len() {
            self.interpreter.counts.add_bad_line();
            let number = self.number;
            return writeln!(out, "line {number}: longer than {LONGEST_LINE} bytes");
        }
        if Line::new(&self.text).has_more() {
            self.run_words(out)
        } else {
            Ok(())
        }
    }

    // Ends a line. Where its last byte is `\`, a space takes its place and the line goes on, else it is run. An empty one only counts.
    fn end_line<W: Write>(&mut self, out: &mut W) -> io::Result<()> {
        self.interpreter.counts.add_line();
        if let Some(last) = self.text.last_mut() {
            if *last == b'\\' {
                *last = b' ';
                self.joined = self.text.len();
                return Ok(());
            }
            self.run_line(out)?;
            self.text.clear();
            self.joined = 0;
        }
        self.number = self.interpreter.counts.lines.wrapping_add(1);
        Ok(())
    }

    // Takes a byte of the script. In a line that is too long it takes the place of the last one.
    fn take<W: Write>(&mut self, byte: u8, out: &mut W) -> io::Result<()> {
        if byte == b'\n' {
            return self.end_line(out);
        }
        if LONGEST_LINE < self.text.len() {
            self.text.pop();
        }
        self.text.push(byte)?;
        Ok(())
    }

    // Runs a last line that no line feed ends, and says the counts.
    fn finish<W: Write>(&mut self, out: &mut W) -> io::Result<()> {
        if self.joined < self.text.len() {
            self.interpreter.counts.add_line();
        }
        self.run_line(out)?;
        write!(out, "{}", self.interpreter.counts)
    }
}

// Reads the next bytes of a script into a block, and runs the lines that they end; whether there were any.
fn run_block<R: Read, W: Write>(
    script: &mut Script,
    block: &mut [u8],
    input: &mut R,
    out: &mut W,
) -> io::Result<bool> {
    let length = input.read(block)?;
    for byte in block.iter().take(length) {
        script.take(*byte, out)?;
    }
    out.flush()?;
    Ok(0 < length)
}

// Reads a script to its end, and says the counts.
fn run_script<R: Read, W: Write>(alloc: Global, input: &mut R, out: &mut W) -> io::Result<()> {
    let mut script = Script::new(alloc)?;
    let mut block = vec![in alloc; 0; BLOCK_SIZE]?;
    for _ in 0..u64::MAX {
        if !run_block(&mut script, &mut block, input, out)? {
            break;
        }
    }
    script.finish(out)?;
    out.flush()
}

// Reads a script, and writes what is said to it. It ends where a read or a write fails. Behind a write that failed nothing is written;
// where no memory is left, what was said before is.
pub fn run<R, W>(alloc: Global, mut input: R, output: W) -> io::Result<()>
where
    R: Read + Drop,
    W: Write + Drop,
{
    let mut output = Blocks::new(output);
    let ran = run_script(alloc, &mut input, &mut output);
    match &ran {
        Err(error) if error.kind() == ErrorKind::OutOfMemory => {
            let _ = output.flush();
        }
        _ => {}
    }
    ran
}
