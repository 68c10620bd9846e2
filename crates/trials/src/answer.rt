// What a call answered, as text.
use std::fmt;
use zmap::{Fault, Sample};

// An outcome prints its value or its error.
#[derive(Drop)]
pub(crate) struct Outcome<T, E>(pub Result<T, E>);

impl<T: fmt::Display, E: fmt::Display> fmt::Display for Outcome<T, E> {
    fn fmt<W: fmt::Write>(&self, f: &mut fmt::Formatter<W>) -> fmt::Result {
        match &self.0 {
            Ok(value) => write!(f, "{value}"),
            Err(error) => write!(f, "{error}"),
        }
    }
}

// A value prints itself, and none that there is nothing.
#[derive(Drop)]
pub(crate) struct Perhaps<T>(pub Option<T>);

impl<T: fmt::Display> fmt::Display for Perhaps<T> {
    fn fmt<W: fmt::Write>(&self, f: &mut fmt::Formatter<W>) -> fmt::Result {
        match &self.0 {
            Some(value) => write!(f, "{value}"),
            None => f.write_str("nothing"),
        }
    }
}

// The number of a refusal.
#[derive(Clone, Copy)]
pub(crate) struct Number(pub Fault);

impl fmt::Display for Number {
    fn fmt<W: fmt::Write>(&self, f: &mut fmt::Formatter<W>) -> fmt::Result {
        let number = self.0.parts().number;
        write!(f, "{number}")
    }
}

// What was asked for was done, or made.
#[derive(Clone, Copy)]
pub(crate) struct Taken;

impl fmt::Display for Taken {
    fn fmt<W: fmt::Write>(&self, f: &mut fmt::Formatter<W>) -> fmt::Result {
        f.write_str("taken")
    }
}

// The height and the class of a sample.
#[derive(Clone, Copy)]
pub(crate) struct Told(pub Sample);

impl fmt::Display for Told {
    fn fmt<W: fmt::Write>(&self, f: &mut fmt::Formatter<W>) -> fmt::Result {
        let Sample { height, class } = self.0;
        write!(f, "{height} {class}")
    }
}

// That a call was taken, or the number of its refusal.
pub(crate) type Taking = Outcome<Taken, Number>;

// Whether a call was taken, whatever it made.
pub(crate) fn taking<T: Drop>(outcome: Result<T, Fault>) -> Taking {
    Outcome(outcome.map(|_| Taken).map_err(Number))
}

// The number as an index; a negative one stands for the greatest index.
pub(crate) fn index(n: i32) -> usize {
    usize::try_from(n).unwrap_or(usize::MAX)
}
