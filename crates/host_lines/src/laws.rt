//! What holds of the numbers of answers.

ghost use Rattle.host_lines.specs.Answers.{CodesTellAnswers};

/// No two answers have one number.
#[tactic(auto, using(crate::proofs::Codes::answers_told))]
pub fn codes_tell_answers()
    ensures { CodesTellAnswers }
{}
