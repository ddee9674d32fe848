// Bytes in a buffer of a fixed size: those of a line, and those of the answers that wait to be written.
use std::marker::Model;

// At most N bytes.
#[derive(Drop)]
pub struct Buffer<const N: usize> {
    bytes: [u8; N],
    count: usize,
}

impl<const N: usize> Model for Buffer<N> {
    ghost use Rattle.std.specs.Prelude.{ℕ, ◌≤◌, List, take};

    ghost Value = { List ℕ };

    ghost view = { λ b. take b.count b.bytes };

    ghost invariant = { λ b. b.count ≤ N };
}

impl<const N: usize> Buffer<N> {
    ghost use Rattle.std.specs.Prelude.{◌≡◌, ◌<◌, ◌≤◌, [], ◌∷◌, ◌++◌, length, MatchBool};

    pub fn new() -> Self
        ensures { result ≡ [] }
    {
        Self {
            bytes: [0; N],
            count: 0,
        }
    }

    pub fn is_full(&self) -> bool
        ensures { MatchBool result (length self.now ≡ N) (length self.now < N) }
    {
        self.count == N
    }

    pub fn is_empty(&self) -> bool
        ensures { MatchBool result (length self.now ≡ 0) (0 < length self.now) }
    {
        self.count == 0
    }

    pub fn push(&mut self, b: u8)
        requires { length self.old < N }
        ensures { self.new ≡ self.old ++ b ∷ [] }
    {
        self.bytes[self.count] = b;
        self.count += 1;
    }

    pub fn clear(&mut self)
        ensures { self.new ≡ [] }
    {
        self.count = 0;
    }

    pub fn as_slice(&self) -> &[u8]
        ensures { result.now ≡ self.now }
    {
        &self.bytes[..self.count]
    }

    // Keeps the words of the line's request alone, with one space between two of them.
    pub fn squeeze(&mut self)
        ensures { length self.new ≤ length self.old }
    {
        self.count = script::squeeze(&mut self.bytes[..self.count]);
    }
}
