//! What is known of what `check` answers, and of the plans of accepted texts.

ghost use Rattle.c_check.specs.Check.{ChecksAreExact, CodeTellsStatements, PlansHaveItemsOfTexts};
ghost use Rattle.c_check.specs.Numbers.{NumbersAreOfDeclarations};
ghost use Rattle.c_check.specs.Temporaries.{NeedIsLeast};
ghost use Rattle.c_check.specs.WellFormed.{AcceptedPlansAreWellFormed};

/// A tree has one plan or one refusal, and never both. So what `check` answers is what the text has.
pub fn checks_are_exact()
    ensures { ChecksAreExact }
{}

/// A name stands for the declaration of its kind that has its number, which declares this name.
pub fn numbers_are_of_declarations()
    ensures { NumbersAreOfDeclarations }
{}

/// A thread of a plan runs the function that its creation names, and its code stands for the items of this function. Different
/// statements have different code, so a plan tells what its functions do.
pub fn plans_have_items_of_texts()
    ensures items { PlansHaveItemsOfTexts }
    ensures statements { CodeTellsStatements }
{}

/// The columns of a plan stand in order, with texts that differ; its threads run functions that it has, all that these name is
/// there, and its numbers fit.
pub fn accepted_plans_are_well_formed()
    ensures { AcceptedPlansAreWellFormed }
{}

/// As many temporaries as a function has are enough for the reads of its items, and fewer are not.
pub fn temporaries_are_least()
    ensures { NeedIsLeast }
{}
