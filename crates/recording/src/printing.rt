// Printing the verdict on a recording.
ghost use Rattle.std.specs.Prelude.{◌≡◌, ◌≤◌, length, IfOk, MatchResult, Some, string_bytes};
ghost use Rattle.recording.specs.Texts.{Printed, TextOf, verdict_text};
ghost use Rattle.recording.specs.Unprinted.{unprinted_number, unprinted_words};
ghost use Rattle.recording.specs.declared.printing.Unprinted.TheVariants.{NoMemory};

use super::faults::Failure;
use super::reading::judge_recording;
use refusal::Refusal;
use replay::{Name, Verdict};
use std::alloc::{AllocError, Global};
use std::error::Error;
use std::fmt;
use std::fmt::Write;

// the fewest bytes that a page may have
const PAGE: usize = 2048;

// the most actions that a run has, as the definitions say; one constant over crates would be no plainer
const MOST: usize = 256;

// Why nothing was printed.
#[derive(Clone, Copy, PartialEq, Eq, Debug)]
pub enum Unprinted {
    // the page has fewer than 2,048 bytes
    PageTooShort,
    NoMemory,
}

impl Unprinted {
    // The number by which it is reported: 15 for a page that is too short, and 0 for want of memory, which is no refusal. A call, as a
    // refusal's number is.
    pub fn number(self) -> u8
        ensures { result ≡ unprinted_number self }
    {
        match self {
            Unprinted::PageTooShort => Refusal::TooShort.number(),
            Unprinted::NoMemory => 0,
        }
    }
}

impl From<AllocError> for Unprinted {
    ghost from_gives = { λ _ r. r ≡ NoMemory };

    fn from(_error: AllocError) -> Unprinted {
        Unprinted::NoMemory
    }
}

impl fmt::Display for Unprinted {
    ghost output = { λ unprinted. Some (unprinted_words unprinted) };

    fn fmt<W: fmt::Write>(&self, f: &mut fmt::Formatter<W>) -> fmt::Result {
        match self {
            Unprinted::PageTooShort => write!(f, "the page is too short"),
            Unprinted::NoMemory => write!(f, "no memory"),
        }
    }
}

impl Error for Unprinted {}

// Prints the verdict on a recording, or its fault, at the front of the page, and answers how many bytes that are. The page's later bytes
// are as before. A page of fewer than 2,048 bytes is refused, which is tested first, and is as before. The page is the caller's memory.
pub fn print_recording(heap: Global, recording: &[u8], page: &mut [u8]) -> Result<usize, Unprinted>
    ensures { Printed recording.now page.old result page.new }
{
    if page.len() < PAGE {
        return Err(Unprinted::PageTooShort);
    }
    let text = text_of(heap, recording)?;
    let count = text.len();
    page[0..count].copy_from_slice(text.as_bytes());
    Ok(count)
}

// The text of what reading the recording answers.
fn text_of(heap: Global, recording: &[u8]) -> Result<String, Unprinted>
    ensures { MatchResult result (λ text. TextOf recording.now (string_bytes text)) (λ why. why ≡ NoMemory) }
{
    let mut list = [Name::default(); MOST];
    match judge_recording(heap, recording, &mut list) {
        Ok(verdict) => Ok(verdict_text(heap, verdict, &list[..verdict.entries])?),
        Err(Failure::At(fault)) => Ok(format!(in heap; "{fault}\n")?),
        Err(Failure::Memory) => Err(Unprinted::NoMemory),
    }
}

fn verdict_text(heap: Global, verdict: Verdict, names: &[Name]) -> Result<String, AllocError>
    ensures { IfOk result (λ text. string_bytes text ≡ verdict_text verdict names.now) }
{
    let mut text = format!(in heap; "{verdict}\n")?;
    for name in names {
        writeln!(text, "{name}")?;
    }
    Ok(text)
}
