//! Laws of the text of a run, and worked rows of its words.
ghost use Rattle.test_main.specs.Laws.{SoundEndWell};
ghost use Rattle.test_main.specs.Worked.{WorkedWords};

/// A run of pcre2test ends with status 0 where its words are accepted, its script is there and is
/// read to its end.
pub fn sound_scripts_end_well()
    ensures { SoundEndWell }
{}

/// What words ask for, computed from the definition.
pub fn worked_words()
    ensures { WorkedWords }
{}
