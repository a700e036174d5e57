// The bytes of a header outside its comments: each function answers for any place, the file's end too.
ghost use Rattle.std.specs.Prelude.{◌≡◌, ◌+◌, ◌*◌, ◌-◌, ◌≤◌, true, ◌&&◌, eqb, ltb, length, get_or};
ghost use Rattle.pbm.specs.Page.{blank, digit, ending, value_after};
ghost use Rattle.pbm.specs.Header.{run, past};
ghost use Rattle.pbm.specs.Inner.{letters_at, Stands, capped};

// A number of a header, 4,097 where it is larger than any side of a sheet, and the place after it. It is capped and no `Option`, since a
// header goes on after a number of any length.
#[derive(Clone, Copy, Debug, PartialEq, Eq, Hash)]
pub(crate) struct Number {
    pub value: u32,
    pub end: usize,
}

fn is_ending(byte: u8) -> bool
    ensures { result ≡ ending byte }
{
    (byte == b'\n') | (byte == b'\r')
}

fn is_blank(byte: u8) -> bool
    ensures { result ≡ blank byte }
{
    (byte == b' ') | ((b'\t' <= byte) & (byte <= b'\r'))
}

fn is_digit(byte: u8) -> bool
    ensures { result ≡ digit byte }
{
    (b'0' <= byte) & (byte <= b'9')
}

// The place of the first byte from a place on that stands outside comments.
#[tactic(auto, using(crate::proofs::Standing::goes_on, crate::proofs::Standing::at_last))]
pub(crate) fn find(file: &[u8], from: usize) -> usize
    ensures stands { Stands file.now (letters_at file.now from) result }
    ensures lower_bound { from ≤ length file.now → from ≤ result }
{
    let mut within = false;
    for at in from..file.len() {
        let byte = file[at];
        if !within & (byte != b'#') {
            return at;
        }
        within = !(within & is_ending(byte));
    }
    file.len()
}

// Whether a byte stands at a place.
pub(crate) fn is_at(file: &[u8], at: usize, byte: u8) -> bool
    ensures { result ≡ (ltb at (length file.now) && eqb byte (get_or file.now at 0)) }
{
    file.get(at).is_some_and(|b| *b == byte)
}

// Whether a blank does.
pub(crate) fn blank_at(file: &[u8], at: usize) -> bool
    ensures { result ≡ (ltb at (length file.now) && blank (get_or file.now at 0)) }
{
    file.get(at).is_some_and(|b| is_blank(*b))
}

// Whether a digit does.
fn digit_at(file: &[u8], at: usize) -> bool
    ensures { result ≡ (ltb at (length file.now) && digit (get_or file.now at 0)) }
{
    file.get(at).is_some_and(|b| is_digit(*b))
}

// The place after blanks.
#[tactic(auto, using(crate::proofs::Standing::skips_more, crate::proofs::Standing::skips_end))]
pub(crate) fn skip_blanks(file: &[u8], from: usize) -> usize
    ensures { Stands file.now (past blank (letters_at file.now from)) result }
{
    let mut at = find(file, from);
    while blank_at(file, at) {
        at = find(file, at + 1);
    }
    at
}

// A number with one more digit, in the same bound.
#[tactic(auto, unfolding(crate::specs::Inner::capped))]
fn appended(value: u32, byte: u8) -> u32
    requires { (value ≤ 4097) × (digit byte ≡ true) }
    ensures { result ≡ capped (10 * value + (byte - 48)) }
{
    let more = 10 * value + (byte - b'0') as u32;
    if more <= 4096 { more } else { 4097 }
}

// The digits from a place on, as a number.
pub(crate) fn read_number(file: &[u8], from: usize) -> Number
    ensures value_value { result.value ≡ capped (value_after 0 (run digit (letters_at file.now from))) }
    ensures stands { Stands file.now (past digit (letters_at file.now from)) result.end }
{
    let mut value = 0;
    let mut end = find(file, from);
    while digit_at(file, end) {
        value = appended(value, file[end]);
        end = find(file, end + 1);
    }
    Number { value, end }
}
