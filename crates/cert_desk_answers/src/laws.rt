//! Laws about files of answers. Each function does nothing: its contract is the law.
ghost use Rattle.cert_desk_answers.specs.Laws.{AcceptedLinesJudgeAlike, KeptLinesAreRead};

/// `answers_in` parses each selection of the lines of a chain's questions, in any order, as exactly
/// these questions: no line is rejected, skipped, or parsed as another question. The trust anchors
/// are those of a file.
pub fn kept_lines_are_read()
    ensures { KeptLinesAreRead }
{}

/// If a verifier selects the lines that it accepts from the lines of a chain's questions, the
/// answers parsed from them give the same verdict as that verifier, and it is asked as often. The
/// verifier's other answers don't matter.
pub fn accepted_lines_judge_alike()
    ensures { AcceptedLinesJudgeAlike }
{}
