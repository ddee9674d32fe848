// Answers on their way to standard output, in a buffer that is written when it is full and before each read.
ghost use Rattle.std.specs.Prelude.{◌≡◌, ◌<◌, [], length};

use crate::buffer::Buffer;
use std::{fmt, io};

// Answers are written when so many bytes of them wait, and before each read.
const OUTPUT_BYTES: usize = 65536;

// The player is not to go on, and what there was to say is said.
#[derive(Clone, Copy)]
pub struct Stopped;

// Says on standard error what failed, and why. Where that fails too, there is nowhere left to say so.
pub(crate) fn fail(rt: &impl Eprint, what: &str, why: io::Error) {
    let _ = eprintln!(rt; "{what}: {why}");
}

// Standard output, and the answers that wait to be written there. A failure is told on standard error.
#[derive(Drop)]
pub struct Output<'a, R: Print + Eprint + Drop> {
    rt: &'a R,
    waiting: Buffer<OUTPUT_BYTES>,
}

impl<'a, R: Print + Eprint + Drop> Output<'a, R> {
    pub(crate) fn new(rt: &'a R) -> Self {
        Self {
            rt,
            waiting: Buffer::new(),
        }
    }

    // Writes what waits. Where that fails it says so on standard error, and nothing waits any more either.
    pub fn flush(&mut self) -> Result<(), Stopped>
        ensures { self.new.waiting ≡ [] }
    {
        let written = self.rt.write_all(self.waiting.as_slice());
        self.waiting.clear();
        written.map_err(|why| self.fail("standard output", why))
    }

    // Says on standard error what failed, and why. Nothing more is to be played.
    pub(crate) fn fail(&self, what: &str, why: io::Error) -> Stopped {
        fail(self.rt, what, why);
        Stopped
    }

    // Writes what waits where there is no room for a byte more. Where that fails the player still goes on to the next read.
    fn make_room(&mut self)
        ensures { length self.new.waiting < 65536 }
    {
        if self.waiting.is_full() {
            let _ = self.flush();
        }
    }

    // Puts some bytes behind those that wait.
    pub(crate) fn put(&mut self, bytes: &[u8]) {
        for b in bytes {
            self.make_room();
            self.waiting.push(*b);
        }
    }
}

// Never fails: what can't be written is told on standard error.
impl<R: Print + Eprint + Drop> fmt::Write for Output<'_, R> {
    fn write_str(&mut self, s: &str) -> fmt::Result {
        self.put(s.as_bytes());
        Ok(())
    }
}
