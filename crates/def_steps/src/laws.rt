//! Laws of steps, of updates taken whole and of the serial machine.
ghost use Rattle.def_steps.specs.Soundness.{CausedIsEvery, LooksAreFirst};
ghost use Rattle.def_steps.specs.Holding.{WholeRests, HoldAfter, HoldThroughout, SerialScopesAgree};
ghost use Rattle.def_steps.specs.Origins.{NullsComeFrom, RefusedWritesNothing};
ghost use Rattle.def_steps.specs.StepLaws.{StepsReplay, FitsDecideLacks, ChaseIsMachine};
ghost use Rattle.def_steps.specs.Shifting.{StepsShift, WholeShifts, SerialShifts, AttemptsAreOuter};

/// If the mappings in force hold in a repository, an attempt over it is the same in the scope of all violations and in the scope
/// of those that it caused. At every state that it reaches, each query of the next step has the same value in both, so the reads,
/// the states and the rest are the same.
pub fn caused_scope_is_full()
    ensures { CausedIsEvery }
{}

/// At every look over such a repository, the first violation that the update caused is the first of all mappings in force, and it
/// is the one that is repaired; if there is none, the attempt is done.
pub fn looks_are_first()
    ensures { LooksAreFirst }
{}

/// The chase meets the laws of a machine, so every theorem on machines holds for it. A query depends only on the relations that
/// it mentions, and an attempt ends within its budget.
pub fn chase_is_machine()
    ensures { ChaseIsMachine }
{}

/// A step depends only on its reads: if the queries get the logged answers, the step and its reads are the same.
pub fn steps_replay()
    ensures { StepsReplay }
{}

/// At a question the next answer is missing if there is none, and a misfit exactly if it does not fit; elsewhere nothing is
/// lacking.
pub fn fits_decide_lacks()
    ensures { FitsDecideLacks }
{}

/// An update taken whole comes to rest within its budget: at an end, or at a question with its lack.
pub fn whole_rests()
    ensures { WholeRests }
{}

/// After an update that is done, all mappings in force hold; after one that is spent or refused, the repository is as before.
pub fn mappings_hold_after()
    ensures { HoldAfter }
{}

/// So all mappings in force hold after each update of a timely session.
pub fn mappings_hold_throughout()
    ensures { HoldThroughout }
{}

/// On such a session the serial machine has the same result in the caused scope.
pub fn serial_scopes_agree()
    ensures { SerialScopesAgree }
{}

/// The values that an update writes are constants, values of the repository below it and its own fresh nulls.
pub fn nulls_come_from_below()
    ensures { NullsComeFrom }
{}

/// An update that is refused has written nothing.
pub fn refused_writes_nothing()
    ensures { RefusedWritesNothing }
{}

/// A shift of attempt numbers commutes with every step: its reads and its move are the shifted ones.
pub fn steps_shift()
    ensures { StepsShift }
{}

/// So an update taken whole with other attempt numbers comes to the shifted rest.
pub fn whole_shifts()
    ensures { WholeShifts }
{}

/// The serial machine with other attempt numbers comes to the shifted result.
pub fn serial_shifts()
    ensures { SerialShifts }
{}

/// Whatever the numbers of the attempts, the serial machine has the same result by outer forms as with attempt 0.
pub fn attempts_are_outer()
    ensures { AttemptsAreOuter }
{}
