// How a move is written out: a word for it, then its two numbers.
ghost use Rattle.std.specs.Prelude.{Some};
ghost use Rattle.ledger.specs.Texts.{move_text};

use super::moves::Move;
use std::fmt;

impl fmt::Display for Move {
    ghost output = { λ m. Some (move_text m) };

    fn fmt<W: fmt::Write>(&self, f: &mut fmt::Formatter<W>) -> fmt::Result {
        match *self {
            Move::Run {
                thread,
                instruction,
            } => write!(f, "run {thread} {instruction}"),
            Move::Drain { thread, cell } => write!(f, "drain {thread} {cell}"),
        }
    }
}
