// Why a recording gets no verdict.
ghost use Rattle.std.specs.Prelude.{◌≡◌, Some};
ghost use Rattle.refusal.specs.Refusals.{layer_of, number_of};
ghost use Rattle.recording.specs.Texts.{failure_words, fault_words};
ghost use Rattle.recording.specs.declared.faults.Failure.TheVariants.{Memory};

use refusal::{Layer, Refusal};
use std::alloc::AllocError;
use std::error::Error;
use std::fmt;

// A record of a recording: its number, counted from 0, and the byte where it starts. Behind the last record these are the count of
// records and the length.
#[derive(Clone, Copy, PartialEq, Eq, Debug)]
pub struct Place {
    pub index: usize,
    pub byte: usize,
}

// What is wrong, and at which record.
#[derive(Clone, Copy, PartialEq, Eq, Debug)]
pub struct Fault {
    pub refusal: Refusal,
    pub place: Place,
}

// Why there is no verdict: the recording is at fault, or there was no memory to make something.
#[derive(Clone, Copy, PartialEq, Eq, Debug)]
pub enum Failure {
    At(Fault),
    Memory,
}

impl Fault {
    // The number of its refusal, by a call as there.
    pub fn number(self) -> u8
        ensures { result ≡ number_of self.refusal }
    {
        self.refusal.number()
    }

    // The layer that refuses.
    pub fn layer(self) -> Layer
        ensures { result ≡ layer_of self.refusal }
    {
        self.refusal.layer()
    }
}

impl From<AllocError> for Failure {
    ghost from_gives = { λ _ r. r ≡ Memory };

    fn from(_error: AllocError) -> Failure {
        Failure::Memory
    }
}

impl fmt::Display for Fault {
    ghost output = { λ fault. Some (fault_words fault) };

    fn fmt<W: fmt::Write>(&self, f: &mut fmt::Formatter<W>) -> fmt::Result {
        let refusal = self.refusal;
        let Place { index, byte } = self.place;
        write!(f, "refused {refusal} {index} {byte}")
    }
}

impl fmt::Display for Failure {
    ghost output = { λ failure. Some (failure_words failure) };

    fn fmt<W: fmt::Write>(&self, f: &mut fmt::Formatter<W>) -> fmt::Result {
        match self {
            Failure::At(fault) => write!(f, "{fault}"),
            Failure::Memory => write!(f, "no memory"),
        }
    }
}

impl Error for Fault {}

impl Error for Failure {}
