// The ten small sizes (section 2).
ghost use Rattle.std.specs.Prelude.{◌≡◌, ◌≤◌, ◌<◌, MatchOption};
ghost use Rattle.std.proofs.Math.Option.{some};
ghost use Rattle.meaning.specs.Blocks.{size_count, small, small_most, slots};
ghost use Rattle.meaning.specs.Answers.{size_for};

use crate::arenas::PAGE_BYTES;

// The largest small size, and how many small sizes there are.
pub const SMALL_MOST: u64 = 512;

pub const SIZE_COUNT: u64 = 10;

const SMALL_SIZES: [u64; 10] = [16, 32, 48, 64, 96, 128, 192, 256, 384, 512];

// A small size, by its number.
#[derive(Clone, Copy, PartialEq, Eq)]
pub struct Size {
    pub number: u64,
    pub ghost in_range: { number < size_count },
}

impl Size {
    // The size of a number, if there is one.
    pub fn numbered(number: u64) -> Option<Size>
        ensures { MatchOption result (size_count ≤ number) (λ size. size.number ≡ number) }
    {
        if number < SIZE_COUNT {
            Some(Size { number })
        } else {
            None
        }
    }

    // The least small size for n bytes (section 3, take).
    pub fn least_for(n: u64) -> Size
        requires { n ≤ small_most }
        ensures { size_for n ≡ some result.number }
    {
        let number = SMALL_SIZES.iter().position(|bytes| n <= *bytes).unwrap();
        Size {
            number: number as u64,
        }
    }

    pub fn bytes(self) -> u64
        ensures { result ≡ small self.number }
    {
        SMALL_SIZES[self.number as usize]
    }

    // The slots of this size in a page.
    pub fn slots(self) -> u64
        ensures { result ≡ slots self.number }
    {
        PAGE_BYTES / self.bytes()
    }
}
