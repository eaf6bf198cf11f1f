ghost use Rattle.annotation_form.specs.Passes.{PassingAnnotationsAreSafe, PassingAnnotationsCover};
ghost use Rattle.annotation_form.specs.Whole.{NamedCertificatesAreThere, WholeAnnotationsAreOfTheirProgram};
ghost use Rattle.annotation_form.specs.Laws.{OneLineIsBad, TextsHaveNoBadLine, TextsTellPredicates};

use transition_formula::{atom_texts_tell_atoms, runs_end_in_reached_states};

/// A text is that of one list of predicates at most: a law, and no code.
pub fn texts_tell_predicates()
    ensures { TextsTellPredicates }
{
    atom_texts_tell_atoms();
}

/// A text has one bad line at most, and none where it is the text of predicates: laws, and no code.
pub fn one_line_is_bad_at_most()
    ensures one { OneLineIsBad }
    ensures none { TextsHaveNoBadLine }
{}

/// Where an annotation passes, its facts describe every state that a run comes to, at each thread: a law, and no code.
pub fn passing_annotations_cover()
    ensures { PassingAnnotationsCover }
{}

/// Then no run of the program fails: a law, and no code.
pub fn passing_annotations_are_safe()
    ensures { PassingAnnotationsAreSafe }
{
    runs_end_in_reached_states();
}

/// A whole annotation speaks of its program, and the certificates that its groups name are there: laws, and no code.
pub fn whole_annotations_are_of_their_program()
    ensures of_program { WholeAnnotationsAreOfTheirProgram }
    ensures named { NamedCertificatesAreThere }
{}
