// The bytes of a line: where its request ends, which bytes stand between words, and its words with one space between two.
ghost use Rattle.std.specs.Prelude.{◌+◌, ◌≤◌, ◌<◌, length, ◌≡◌};
ghost use Rattle.script.specs.Counts.{IsPrefixLen};
ghost use Rattle.script.specs.Words.{is_blank};

// Words stand apart by these.
const SPACE: u8 = b' ';

const TAB: u8 = b'\t';

// At a line's end a blank, as files of other systems have it; anywhere else a byte of a word.
const CARRIAGE_RETURN: u8 = b'\r';

// What stands from here to the line's end is a comment.
const COMMENT: u8 = b'#';

// Whether a byte stands between words.
pub fn is_blank(b: u8) -> bool
    ensures { result ≡ is_blank b }
{
    b == SPACE || b == TAB
}

// Where the request of a line ends: at its comment, at a carriage return that is its last byte, or at its own end.
pub fn request_end(line: &[u8]) -> usize
    ensures within { IsPrefixLen result line.now }
{
    match line.iter().position(|b| *b == COMMENT) {
        Some(at) => at,
        None => line.strip_suffix(&[CARRIAGE_RETURN]).unwrap_or(line).len(),
    }
}

// Moves the words of a line's request to the line's start, with one space between two of them, and answers how many
// bytes that takes. The place that is written is never past the place that is read.
pub fn squeeze(line: &mut [u8]) -> usize
    ensures within { IsPrefixLen result line.new }
{
    let mut n = 0;
    // the spaces that are due before the next word
    let mut gap = 0;
    for i in 0..request_end(line) {
        let b = line[i];
        if is_blank(b) {
            gap = n.min(1);
        } else {
            line[n] = SPACE;
            line[n + gap] = b;
            n += gap + 1;
            gap = 0;
        }
    }
    n
}
