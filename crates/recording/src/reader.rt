// Reading a recording in place, record by record. An iterator would be no plainer: the first move is looked at twice, once to end the
// instructions, and a refusal needs the place of the record that is looked at.
ghost use Rattle.std.specs.Prelude.{◌≡◌, ◌+◌, ◌≤◌, length};
ghost use Rattle.recording.specs.Layout.{size as record_size};
ghost use Rattle.recording.specs.Steps.{Peeked, past_of, placed_at};

use super::faults::{Failure, Fault, Place};
use super::layout::first_record;
use super::records::Record;
use refusal::Refusal;

// A recording, and the place up to which it was read.
#[derive(Drop)]
pub struct Reader<'a> {
    recording: &'a [u8],
    place: Place,
    // a record has at least one byte
    ghost index: { place.index ≤ place.byte },
    ghost byte: { place.byte ≤ length recording.now },
}

impl<'a> Reader<'a> {
    pub(super) fn new(recording: &'a [u8]) -> Reader<'a>
        ensures recording { result.recording.now ≡ recording.now }
        ensures place { result.place ≡ record { index = 0; byte = 0 } }
    {
        Reader {
            recording,
            place: Place { index: 0, byte: 0 },
        }
    }

    // The record here, or none behind the last.
    pub(super) fn peek(&self) -> Result<Option<Record>, Failure>
        ensures { Peeked self.now.recording.now self.now.place result }
    {
        let rest = &self.recording[self.place.byte..];
        if rest.is_empty() {
            return Ok(None);
        }
        let found = self.placed(first_record(rest))?;
        Ok(Some(found))
    }

    // Goes past the record here. That the recording stays is said at each call that reads on, since no type can say it.
    pub(super) fn pass(&mut self, passed: Record)
        requires { self.old.place.byte + record_size passed ≤ length self.old.recording.now }
        ensures recording { self.new.recording.now ≡ self.old.recording.now }
        ensures place { self.new.place ≡ past_of self.old.place passed }
    {
        self.place = Place {
            index: self.place.index + 1,
            byte: self.place.byte + passed.size(),
        };
    }

    // What was answered of the record here, where a refusal is told with its place.
    pub(super) fn placed<T>(&self, answer: Result<T, Refusal>) -> Result<T, Failure>
        ensures { result ≡ placed_at self.now.place answer }
    {
        let place = self.place;
        answer.map_err(|refusal| Failure::At(Fault { refusal, place }))
    }
}
