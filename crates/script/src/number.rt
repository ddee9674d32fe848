// Numbers of a script: plain decimal, up to 2^64 - 1.
ghost use Rattle.std.specs.Prelude.{◌≡◌, ◌-◌, ◌^◌, ◌<◌, ◌≤◌, length, take, Some};
ghost use Rattle.std.specs.Fmt.{decimal as displayed};
ghost use Rattle.script.specs.Counts.{IsPrefixLen};
ghost use Rattle.script.specs.Decimal.{last_digits, number_of, with_digit};

// The base of plain decimal.
const TEN: u64 = 10;

// The digits of 2^64 - 1.
pub const MOST_DIGITS: usize = 20;

// The number whose digits are those of `value` and then the byte b.
fn with_digit(value: u64, b: u8) -> Option<u64>
    ensures { result ≡ with_digit value b }
{
    match b {
        b'0'..=b'9' => value.checked_mul(TEN)?.checked_add(u64::from(b - b'0')),
        _ => None,
    }
}

// The number that the bytes of a word are.
#[tactic(auto, using(crate::proofs::Laws::reading))]
pub fn number_of(word: &[u8]) -> Option<u64>
    ensures { result ≡ number_of word.now }
{
    if word.is_empty() {
        return None;
    }
    let mut value = 0;
    for b in word {
        value = with_digit(value, *b)?;
    }
    Some(value)
}

// Puts the decimal digits of n at the start of out, and answers how many there are: those that `{}` writes, and they read back as n.
#[tactic(auto, using(crate::proofs::Laws::printing))]
pub fn decimal(n: u64, out: &mut [u8; MOST_DIGITS]) -> usize
    ensures within { IsPrefixLen result out.new }
    ensures reads_back { number_of (take result out.new) ≡ Some n }
    ensures as_displayed { take result out.new ≡ displayed n }
{
    let k = digit_count(n);
    put_digits(n, k, out);
    k
}

// How many decimal digits n has.
fn digit_count(n: u64) -> usize
    ensures some { 0 < result }
    ensures most { result ≤ 20 }
    ensures enough { n < 10 ^ result }
    ensures needed { 1 < result → 10 ^ (result - 1) ≤ n }
{
    n.checked_ilog10().map_or(1, |k| k as usize + 1)
}

// Puts the last k decimal digits of n at the start of out.
fn put_digits(n: u64, k: usize, out: &mut [u8])
    requires { k ≤ length out.old }
    ensures { take k out.new ≡ last_digits k n }
{
    let mut rest = n;
    for i in (0..k).rev() {
        out[i] = b'0' + (rest % TEN) as u8;
        rest /= TEN;
    }
}
