// Rescuing a damaged file: its records that read well are copied, and what is left out is listed.
ghost use Rattle.std.specs.Prelude.{◌≡◌, Some};
ghost use Rattle.sheet.specs.Reply.{told, number};
ghost use Rattle.record.specs.Rescue.{left_out_end, lent_of, Rescues, rescued_answer};
ghost use Rattle.record.specs.Inner.{refusal_at_end, Ends, Ran, HasRoom};

use crate::types::{Read, Rescued};
use crate::{read, word_at};
use sheet::Refusal;

/// Where records that read well one after another end, and why what stands there is refused; nothing does at the file's end.
#[derive(Clone, Copy, Debug, PartialEq, Eq, Hash)]
struct Run {
    end: usize,
    refusal: Option<Refusal>,
}

/// What a read refuses.
fn refusal_of(answer: Read) -> Option<Refusal>
    ensures { result ≡ refusal_at_end answer }
{
    match answer {
        Read::Record(_) => None,
        Read::End => None,
        Read::Refused(refusal, _) => Some(refusal),
    }
}

/// Reads from an offset on, as long as records read well.
fn sound_run(file: &[u8], from: usize) -> Run
    ensures { Ran file.now from result.end result.refusal }
{
    let mut end = from;
    loop {
        let answer = read(file, end);
        let Read::Record(record) = answer else {
            let refusal = refusal_of(answer);
            return Run { end, refusal };
        };
        end = record.next;
    }
}

/// Where what is left out at an offset ends.
#[tactic(auto, using(crate::proofs::Saving::counted_left))]
fn left_to(file: &[u8], at: usize, refusal: Refusal) -> usize
    requires { Ends file.now at (Some refusal) }
    ensures { result ≡ left_out_end file.now at (number refusal) }
{
    match refusal {
        Refusal::Short => file.len(),
        _ => at + 2 + usize::from(word_at(file, at)),
    }
}

/// Copies the records that read well, and lists the others.
fn save(file: &[u8], copy: &mut [u8], offsets: &mut [u64], numbers: &mut [u64]) -> Rescued
    requires { HasRoom file.now (lent_of copy.old offsets.old numbers.old) }
    ensures { Rescues file.now (lent_of copy.old offsets.old numbers.old)
        (rescued_answer result) (lent_of copy.new offsets.new numbers.new) }
{
    let mut at: usize = 0;
    let mut copied: usize = 0;
    let mut listed: usize = 0;
    while at < file.len() {
        let run = sound_run(file, at);
        let end = run.end;
        let more = end - at;
        copy[copied..copied + more].copy_from_slice(&file[at..end]);
        copied += more;
        at = end;
        if let Some(refusal) = run.refusal {
            offsets[listed] = at as u64;
            numbers[listed] = u64::from(refusal.number());
            listed += 1;
            at = left_to(file, at, refusal);
        }
    }
    Rescued { copied, listed }
}

/// Copies the records of a damaged file that read well, and lists the others: the offset of each one's first byte, and its number.
pub fn rescue(
    file: &[u8],
    copy: &mut [u8],
    offsets: &mut [u64],
    numbers: &mut [u64],
) -> Result<Rescued, Refusal>
    ensures { Rescues file.now (lent_of copy.old offsets.old numbers.old)
        (told rescued_answer result) (lent_of copy.new offsets.new numbers.new) }
{
    let bytes = file.len();
    if copy.len() < bytes {
        return Err(Refusal::Full);
    }
    if offsets.len() < bytes {
        return Err(Refusal::Room);
    }
    if numbers.len() < bytes {
        return Err(Refusal::Room);
    }
    Ok(save(file, copy, offsets, numbers))
}
