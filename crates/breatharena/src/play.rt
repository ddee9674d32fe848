// Playing a script: bytes to lines, lines to requests of the host, and their answers to standard output.
use crate::answer::Expected;
use crate::buffer::Buffer;
use crate::host::Host;
use crate::output::{Output, Stopped};
use std::fmt::Write;
use std::io::Read;

const NEWLINE: u8 = b'\n';

// The longest line, without the newline that ends it.
const LINE_BYTES: usize = 4096;

// The most that one read takes.
const INPUT_BYTES: usize = 65536;

// The player of one script.
#[derive(Drop)]
pub struct Player<'a, R: Print + Eprint + Drop> {
    host: Host,
    output: Output<'a, R>,
    // How many lines are played, and what is read of the next one.
    lines: u64,
    line: Buffer<LINE_BYTES>,
}

impl<'a, R: Print + Eprint + Drop> Player<'a, R> {
    // Before the first line, over a table that holds garbage.
    pub(crate) fn new(rt: &'a R) -> Self {
        Self {
            host: Host::new(),
            output: Output::new(rt),
            lines: 0,
            line: Buffer::new(),
        }
    }

    // Reads once and plays the lines that end in what came, or, where the input ended, what is left of a last line. The
    // name of the input is for a message.
    pub(crate) fn play_some(&mut self, input: &mut impl Read, name: &str) -> Result<(), Stopped> {
        let mut piece = [0; INPUT_BYTES];
        let played = match input.read(&mut piece) {
            Err(why) => return Err(self.output.fail(name, why)),
            Ok(0) => self.end(),
            Ok(n) => self.feed(&piece[..n]),
        };
        played.and(self.output.flush())
    }

    // Plays the lines that end in some bytes of the script, and keeps what follows the last of them.
    fn feed(&mut self, bytes: &[u8]) -> Result<(), Stopped> {
        for b in bytes {
            let played = self.feed_byte(*b);
            self.tell(played)?;
        }
        Ok(())
    }

    // Plays what the script has after its last newline, if anything. The player stops.
    fn end(&mut self) -> Result<(), Stopped> {
        if !self.line.is_empty() {
            let played = self.end_line();
            self.tell(played)?;
        }
        Err(Stopped)
    }

    // Takes in one byte of the script: the line's end, or one more byte of the line.
    fn feed_byte(&mut self, b: u8) -> Result<(), Expected> {
        if b == NEWLINE {
            return self.end_line();
        }
        if self.line.is_full() {
            return Err(Expected::AtMost(LINE_BYTES));
        }
        self.line.push(b);
        Ok(())
    }

    // Plays the line that was read, and begins the next one.
    fn end_line(&mut self) -> Result<(), Expected> {
        self.play_line()?;
        self.line.clear();
        self.lines = self.lines.wrapping_add(1);
        Ok(())
    }

    // Plays the line that was read. Its answer line is the request as it was written, with blanks made single, a colon, and
    // the answer.
    fn play_line(&mut self) -> Result<(), Expected> {
        let line = script::parse(self.line.as_slice()).ok_or(Expected::Line)?;
        if let Some(answer) = self.host.play(line)? {
            self.line.squeeze();
            self.output.put(self.line.as_slice());
            let _ = writeln!(self.output, ": {answer}");
        }
        Ok(())
    }

    // Where a line is not as it should be, names it and says what was expected there. The player stops.
    fn tell(&mut self, played: Result<(), Expected>) -> Result<(), Stopped> {
        let Err(expected) = played else {
            return Ok(());
        };
        let number = self.lines.wrapping_add(1);
        let _ = writeln!(self.output, "line {number}: expected {expected}");
        Err(Stopped)
    }
}
