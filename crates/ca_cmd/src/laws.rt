//! What follows from the definition of a command file alone.
ghost use Rattle.std.specs.Prelude.{◌≡◌, ℕ, List};
ghost use Rattle.ca_cmd.specs.declared.fault.LineWhy.{LineWhy};
ghost use Rattle.ca_cmd.specs.File.{Numbered, IsFileOf, IsRefusedAt};

use crate::answer::Answer;
use crate::answers::Answers;
use crate::line::Lines;

/// A file has one list of commands, or one first bad line with its byte and reason, and never both.
pub fn file_laws()
    ensures one_list { (file : List ℕ) (lines others : List Numbered) → IsFileOf file lines → IsFileOf file others → lines ≡ others }
    ensures one_line { (file : List ℕ) (line other at place : ℕ) (why reason : LineWhy) →
        IsRefusedAt file line at why → IsRefusedAt file other place reason → line ≡ other }
    ensures one_place { (file : List ℕ) (line other at place : ℕ) (why reason : LineWhy) →
        IsRefusedAt file line at why → IsRefusedAt file other place reason → at ≡ place }
    ensures one_reason { (file : List ℕ) (line other at place : ℕ) (why reason : LineWhy) →
        IsRefusedAt file line at why → IsRefusedAt file other place reason → why ≡ reason }
    ensures never_both { (file : List ℕ) (line at : ℕ) (why : LineWhy) (lines : List Numbered) → IsRefusedAt file line at why → IsFileOf file lines → ⊥ }
{}

/// The commands of a file, and answers, may be handed to another thread.
pub fn lines_cross() {
    may_cross::<Lines>();
    may_cross::<Answer>();
    may_cross::<Answers>();
}

fn may_cross<T: Send>() {}
