// Lines of requests of TFS and their answers.
#![tactic(auto)]

ghost use Rattle.std.specs.Prelude.{Some};
ghost use Rattle.answer_line.specs.Text.{refusal_text};

use std::fmt::Display;
use std::{fmt, io};
use tfs::{Error, Fault};

// A refusal by its number, with the slot or the block of a fault.
#[derive(Clone, Copy)]
pub struct Refused(pub Error);

impl Display for Refused {
    ghost output = { λ refused. Some (refusal_text refused.0) };

    fn fmt<W: fmt::Write>(&self, f: &mut fmt::Formatter<W>) -> fmt::Result {
        let error = self.0;
        let number = error.number();
        match error {
            Error::Inconsistent(Fault::BadSlot(slot) | Fault::BadInode(slot)) => {
                write!(f, "refused {number}, slot {slot}")
            }
            Error::Inconsistent(Fault::BlockTwice(block) | Fault::MapWrong(block)) => {
                write!(f, "refused {number}, block {block}")
            }
            _ => write!(f, "refused {number}"),
        }
    }
}

// Prints what a request is, and what it was granted or why it was refused.
pub fn print_answer<T: Display + Drop, E: Into<Error> + Drop>(
    rt: &impl Print,
    what: &str,
    answer: Result<T, E>,
) -> io::Result<()> {
    match answer {
        Ok(granted) => println!(rt; "{what}{granted}"),
        Err(error) => {
            let refused = Refused(error.into());
            println!(rt; "{what}{refused}")
        }
    }
}
