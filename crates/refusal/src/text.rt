// How a refusal is reported: its number and the layer that refuses.
ghost use Rattle.std.specs.Prelude.{Some};
ghost use Rattle.refusal.specs.Texts.{layer_text, refusal_text};

use super::{Layer, Refusal};
use std::error::Error;
use std::fmt;

impl fmt::Display for Layer {
    ghost output = { λ l. Some (layer_text l) };

    fn fmt<W: fmt::Write>(&self, f: &mut fmt::Formatter<W>) -> fmt::Result {
        let word = match *self {
            Layer::Program => "program",
            Layer::Buffer => "buffer",
            Layer::Replay => "replay",
            Layer::Recording => "recording",
        };
        write!(f, "{word}")
    }
}

impl fmt::Display for Refusal {
    ghost output = { λ r. Some (refusal_text r) };

    fn fmt<W: fmt::Write>(&self, f: &mut fmt::Formatter<W>) -> fmt::Result {
        let number = self.number();
        let layer = self.layer();
        write!(f, "{number} {layer}")
    }
}

impl Error for Refusal {}
