ghost use Rattle.step_meaning.specs.Laws.{WhatGoesIsAStep, WhatBlocksIsNoStep, StepsThatFitAreGiven, WhatFitsDoesNotOverflow, WhatIsGivenFits, FirstStopsAreTold, OrderIsKept};

/// What goes is a step of the program and what blocks is none, each step that fits is given, and of all that stops a step the
/// first in the stated order is told: laws, and no code.
pub fn outcomes_are_exact()
    ensures goes { WhatGoesIsAStep }
    ensures blocks { WhatBlocksIsNoStep }
    ensures given { StepsThatFitAreGiven }
    ensures fits { WhatFitsDoesNotOverflow }
    ensures numbers { WhatIsGivenFits }
    ensures first { FirstStopsAreTold }
    ensures order { OrderIsKept }
{}
