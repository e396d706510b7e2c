//! Laws of findings.
//! Each function's contract is the law; calling it does nothing.
ghost use Rattle.findings.specs.FindingLaws.{AllAreByPlace, ErrorsAreFirst, MostAreShown, NumbersRise, OneIsShown};
ghost use Rattle.findings.specs.Shown.{FirstAreShown};

/// Of the findings that are counted, the first are shown, up to a number, or all.
#[tactic(auto, using(crate::proofs::ShownLaws::first_are_shown))]
pub fn first_are_shown()
    ensures { FirstAreShown }
{}

/// Of the findings that are collected, a warning is shown only if each error is.
pub fn errors_are_first()
    ensures { ErrorsAreFirst }
{}

/// Of the findings that are collected, as many are shown as the number allows.
#[tactic(auto, using(crate::proofs::FindingLawSteps::most_are_shown))]
pub fn most_are_shown()
    ensures { MostAreShown }
{}

/// Of the findings that are collected, one list can be shown.
pub fn one_is_shown()
    ensures { OneIsShown }
{}

/// Of the findings that are collected, all are shown by place alone, if no number is given.
pub fn all_are_by_place()
    ensures { AllAreByPlace }
{}

/// Findings that are collected are numbered as they are found.
pub fn numbers_rise()
    ensures { NumbersRise }
{}
