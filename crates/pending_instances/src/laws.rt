ghost use Rattle.pending_instances.specs.Laws.{BegunLead, ChangesReopen, ComersOpen, StaysForPrograms, TurnsLead};

use horn_rules::stored_values_tell_what_they_stand_for;

/// The turns and starts of a program's layout are exactly its instances that lead: a law, and no code.
pub fn turns_are_instances_that_lead()
    ensures { TurnsLead }
{
    stored_values_tell_what_they_stand_for();
}

/// Cursors that are for a program stay for it where facts at homes of it come and go: a law, and no code.
pub fn cursors_stay_for_their_program()
    ensures { StaysForPrograms }
{}

/// Where nothing is live exactly what leads is open: a law, and no code.
pub fn begun_cursors_have_what_leads()
    ensures { BegunLead }
{
    stored_values_tell_what_they_stand_for();
}

/// Where a fact comes exactly what leads and names it opens: a law, and no code.
pub fn comers_open_what_leads()
    ensures { ComersOpen }
{
    stored_values_tell_what_they_stand_for();
}

/// Where facts go and homes change, of what leads exactly that is open which was, or whose target changed: a law, and no code.
pub fn changed_homes_reopen_what_leads()
    ensures { ChangesReopen }
{
    stored_values_tell_what_they_stand_for();
}
