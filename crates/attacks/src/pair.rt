// A store and a load of one thread, by their numbers in the program.
ghost use Rattle.std.specs.Prelude.{Some};
ghost use Rattle.attacks.specs.Texts.{pair_text};

use std::fmt;

#[derive(Clone, Copy, PartialEq, Eq, Debug)]
pub struct Pair {
    pub store: usize,
    pub load: usize,
}

// The two numbers, with one space between them.
impl fmt::Display for Pair {
    ghost output = { λ p. Some (pair_text p) };

    fn fmt<W: fmt::Write>(&self, f: &mut fmt::Formatter<W>) -> fmt::Result {
        let Pair { store, load } = *self;
        write!(f, "{store} {load}")
    }
}
