//! The answers to a client's commands, as text.
ghost use Rattle.std.specs.Prelude.{◌≡◌, ◌+◌, ◌<◌, [], ◌∷◌, ◌++◌, OnErr, OnOk};
ghost use Rattle.ca_cmd.specs.Answers.{answer_of, refusals};
ghost use Rattle.ca_cmd.specs.Output.{answer_line};

use crate::answer::Answer;
use crate::output::show_answer;
use std::alloc::{AllocError, Global};

/// What a client was answered: the lines that are printed of its answers, in order, and how many of its commands were refused. An answer is text as soon as it
/// was given, and its terms go: the memory of the next answer's is that of the last one's.
#[derive(Drop)]
pub struct Answers {
    pub text: Vec<u8>,
    pub refused: u64,
}

// 1 where a command was refused, else 0.
fn refusal(answer: &Answer) -> u64
    ensures { result ≡ refusals (answer_of answer.now ∷ []) }
{
    match answer {
        Answer::Replied(_) => 0,
        Answer::Full | Answer::Deep | Answer::Worn => 1,
    }
}

impl Answers {
    /// None yet. It takes no memory.
    pub fn new(alloc: Global) -> Answers
        ensures text { result.text.items ≡ [] }
        ensures refused { result.refused ≡ 0 }
    {
        Answers {
            text: Vec::new(alloc),
            refused: 0,
        }
    }

    /// Adds the answer to the command that stands in the line of this number, counted from 1. `Err` where memory wasn't found: then nothing is changed.
    pub fn add(&mut self, number: u32, answer: &Answer) -> Result<(), AllocError>
        requires { self.old.refused < 18446744073709551615 }
        ensures text { OnOk result (self.new.text.items ≡ self.old.text.items ++ answer_line number (answer_of answer.now)) }
        ensures refused { OnOk result (self.new.refused ≡ self.old.refused + refusals (answer_of answer.now ∷ [])) }
        ensures err { OnErr result ((self.new.text.items ≡ self.old.text.items) × (self.new.refused ≡ self.old.refused)) }
    {
        show_answer(number, answer, &mut self.text)?;
        self.refused += refusal(answer);
        Ok(())
    }
}
