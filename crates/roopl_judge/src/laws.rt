// Laws of the check of texts, each the contract of a function that does nothing.
ghost use Rattle.roopl_judge.specs.Laws.{JudgedIsAccepted, OneJudgement};

/// A text has one result of the check: one program, or one first refusal. So a refusal with its
/// number and offset is reported exactly if the check of the text gives it.
pub fn one_judgement()
    ensures { OneJudgement }
{}

/// A program that the check of a text gives keeps the limits of syntax trees, and no rule refuses
/// it.
pub fn judged_is_accepted()
    ensures { JudgedIsAccepted }
{}
