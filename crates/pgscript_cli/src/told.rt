//! What the program says on standard error: one line where its status isn't 0.
use pgs_world::Outcome;
use std::fmt;

/// The line of a run that ended with a status from 1 to 6.
#[derive(Clone, Copy)]
pub struct Told<'a> {
    pub outcome: &'a Outcome,
    /// The words of the command line.
    pub words: &'a [String],
}

impl Told<'_> {
    /// Whether the words ask for a sweep, which tells of no line.
    fn sweeps(&self) -> bool {
        self.words.iter().any(is_sweep)
    }
}

impl fmt::Display for Told<'_> {
    fn fmt<W: fmt::Write>(&self, f: &mut fmt::Formatter<W>) -> fmt::Result {
        let Outcome {
            status,
            call,
            errors,
            lines,
        } = *self.outcome;
        match status {
            1 if self.sweeps() => write!(f, "{} in all runs", Count(errors, "error")),
            1 => write!(f, "{} in {}", Count(errors, "error"), Count(lines, "line")),
            2 => write!(f, "refused words:{}", Words(self.words)),
            3 if self.sweeps() => write!(f, "the input failed"),
            3 => write!(f, "the input failed after line {lines}"),
            4 if lines == 0 => write!(f, "the output failed"),
            4 => write!(f, "the output failed at line {lines}"),
            5 if call == 0 => write!(f, "{NO_START}"),
            5 if self.sweeps() => write!(f, "not enough memory at call {call} of a run"),
            5 => write!(f, "not enough memory at call {call}, line {lines}"),
            6 if self.sweeps() => write!(
                f,
                "the script has more than 65536 bytes, the most of a sweep"
            ),
            6 => write!(
                f,
                "the script has more than 16777216 bytes: line {lines} was the last"
            ),
            _ => write!(f, "status {status}"),
        }
    }
}

/// What is said where memory was wanted before the run.
pub const NO_START: &str = "not enough memory to start";

/// A number of things.
#[derive(Clone, Copy)]
struct Count(u64, &'static str);

impl fmt::Display for Count {
    fn fmt<W: fmt::Write>(&self, f: &mut fmt::Formatter<W>) -> fmt::Result {
        let Count(number, thing) = *self;
        let ending = if number == 1 { "" } else { "s" };
        write!(f, "{number} {thing}{ending}")
    }
}

/// Words with a space before each.
#[derive(Clone, Copy)]
struct Words<'a>(&'a [String]);

impl fmt::Display for Words<'_> {
    fn fmt<W: fmt::Write>(&self, f: &mut fmt::Formatter<W>) -> fmt::Result {
        for word in self.0 {
            write!(f, " {word}")?;
        }
        Ok(())
    }
}

/// Whether a word of the command line is the option of a sweep.
pub fn is_sweep(word: &String) -> bool {
    word.as_str() == "--sweep"
}
