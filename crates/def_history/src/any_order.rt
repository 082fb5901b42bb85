//! The headline: attempts in any order leave what the serial machine leaves.
ghost use Rattle.def_history.specs.AnyOrder.{AnyOrder};
ghost use Rattle.def_history.specs.Asked.{QuestionsAreOfViews};
ghost use Rattle.def_history.specs.Nulls.{NullsArePresent};
ghost use Rattle.def_history.specs.Sessions.{SessionsAreAdmissible};

/// Whatever the order of admissions, steps, deliveries, answers and withdrawals, with restarts and cascades: the committed
/// updates that are not withdrawn have the finishes of the serial machine and leave its repository, with nulls by their outer
/// forms. Every mapping in force holds in that repository. A quiet history has the serial machine's whole result.
pub fn any_order_is_serial()
    ensures { AnyOrder }
{}

/// If a null (u, a, k) of an update u stands in the trail of an update i, then u is at most i, a is the present attempt of u, and
/// k is at most the number of nulls that it drew. Update u is neither withdrawn nor spent nor refused. So different tuples of a
/// view have different outer forms.
pub fn nulls_are_of_present_attempts()
    ensures { NullsArePresent }
{}

/// There is a question exactly if an update is paused. A positive one has a generated tuple that is absent from the present view,
/// and all more specific tuples in the view, at least one. A negative one has the distinct tuples, at least two, of the first
/// violation in the view that the update caused. The next answer delivered, if there is one, does not fit.
pub fn questions_are_of_present_views()
    ensures { QuestionsAreOfViews }
{}

/// A timely session over a base that meets its mappings is admissible, and stays so with one more update that acts in time. The
/// sessions of the worked histories are admissible.
pub fn sessions_are_admissible()
    ensures { SessionsAreAdmissible }
{}
