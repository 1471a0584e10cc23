//! Laws of what targets stand for.
ghost use Rattle.tool_io.specs.Laws.{ToldStandForOne};

/// Over files that are told, a run's targets stand for one list of inputs, so that its text is a function of the words,
/// the files and the standard input.
pub fn told_targets_stand_for_one_list()
    ensures { ToldStandForOne }
{}
