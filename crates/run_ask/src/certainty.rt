//! Certain answers to conjunctive queries: the definition, naive evaluation, and the theorem that the two agree.
ghost use Rattle.run_ask.specs.Laws.{CertainIsComputed, MembersDecide, NaiveIsCertain};

/// The rows without nulls that naive evaluation gives are exactly the certain answers, if no constant of the query is a null.
pub fn naive_is_certain()
    ensures { NaiveIsCertain }
{}

/// `certain_answers` computes the certain answers of a safe query: in order, each once, and no others.
pub fn certain_is_computed()
    ensures { CertainIsComputed }
{}

/// Only the members of a repository decide the certain answers, not the order in which they are listed.
pub fn members_decide_answers()
    ensures { MembersDecide }
{}
