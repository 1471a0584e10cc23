//! Laws of the text of a run, and worked rows of the definitions.
ghost use Rattle.grep_main.specs.Laws.{NoneButStandard, SoundEndWell, ToldAskForOne};
ghost use Rattle.grep_main.specs.Worked.{WorkedRows};

/// A run of pcre2grep ends with status 0 or 1 where its words and patterns are accepted, each input
/// is there with its end, no line is longer than the maximum, and at most 20 of all lines have a
/// match error.
pub fn sound_runs_end_well()
    ensures { SoundEndWell }
{}

/// Over files that are told, the words of a run ask for one list of targets.
pub fn told_words_ask_for_one_list()
    ensures { ToldAskForOne }
{}

/// Over any files, told or not, a run whose words are accepted and name no file searches standard
/// input alone.
pub fn words_without_files_search_standard_input()
    ensures { NoneButStandard }
{}

/// Runs computed from the definition, each as pcre2grep has it.
pub fn worked_rows()
    ensures { WorkedRows }
{}
