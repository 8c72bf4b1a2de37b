// How names, verdicts and calls are written out.
ghost use Rattle.std.specs.Prelude.{Some};
ghost use Rattle.replay.specs.Texts.{call_text, name_text, verdict_text, word_text};

use super::calls::Call;
use super::names::Name;
use super::verdicts::{Verdict, Word};
use std::fmt;

impl fmt::Display for Name {
    ghost output = { λ a. Some (name_text a) };

    fn fmt<W: fmt::Write>(&self, f: &mut fmt::Formatter<W>) -> fmt::Result {
        let Name { thread, position } = *self;
        write!(f, "{thread} {position}")
    }
}

impl fmt::Display for Word {
    ghost output = { λ w. Some (word_text w) };

    fn fmt<W: fmt::Write>(&self, f: &mut fmt::Formatter<W>) -> fmt::Result {
        f.write_str(match self {
            Word::Sequential => "sequential",
            Word::Violation => "violation",
        })
    }
}

impl fmt::Display for Verdict {
    ghost output = { λ v. Some (verdict_text v) };

    fn fmt<W: fmt::Write>(&self, f: &mut fmt::Formatter<W>) -> fmt::Result {
        let Verdict {
            word,
            entries,
            delayed,
        } = *self;
        write!(f, "{word} {entries} {delayed}")
    }
}

impl fmt::Display for Call {
    ghost output = { λ c. Some (call_text c) };

    fn fmt<W: fmt::Write>(&self, f: &mut fmt::Formatter<W>) -> fmt::Result {
        match *self {
            Call::Offer(offered) => write!(f, "{offered}"),
            Call::StartOver => write!(f, "start over"),
            Call::Judge { places } => write!(f, "judge {places}"),
        }
    }
}
