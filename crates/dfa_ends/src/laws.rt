//! Laws on the definitions, and worked rows.
ghost use Rattle.dfa_ends.specs.Answered.{AnswerLaw};
ghost use Rattle.dfa_ends.specs.DfaAnswer.{ReachLaw};
ghost use Rattle.dfa_ends.specs.EndList.{ListLaw};
ghost use Rattle.dfa_ends.specs.Rows.{WorkedRows};
ghost use Rattle.dfa_ends.specs.TwoMatchers.{EndsLaw};

/// The list of the ends has the spots of the relation and no others, for every tree: so the set of
/// ends is finite, and can be computed.
pub fn ends_are_listed()
    ensures { ListLaw }
{}

/// Whether some test on the way reaches the subject's end is computed.
pub fn reaching_is_tested()
    ensures { ReachLaw }
{}

/// Both matchers agree on the forms that they have in common, without partial matching: each state
/// of the ordered search stands at an end; where that search runs to its end each end is met; and
/// nothing else ends it but the depth and the frame limit.
pub fn ends_agree()
    ensures { EndsLaw }
{}

/// Where the ordered search from the place that decides runs to its end, the ends that a DFA match
/// answers are the admitted places of its states, each once, the longest first; under DFA_SHORTEST
/// the least of them alone.
pub fn answers_agree()
    ensures { AnswerLaw }
{}

/// The definitions computed: greedy and lazy repeats, atomic groups, lookarounds, conditions, ends
/// that are not admitted, and partial matches.
pub fn worked_rows()
    ensures { WorkedRows }
{}
