//! Laws on the definitions, and worked rows.
ghost use Rattle.std.specs.Prelude.{◌≡◌, [], ◌∷◌, false, true, codes};
ghost use Rattle.tool_io.specs.declared.target.Target.TheVariants.{Input, File, NoOpen, NoList, TooDeep, Unnamed};
ghost use Rattle.grep_targets.specs.Laws.{StandBelow, ToldMayStand};
ghost use Rattle.grep_targets.specs.Paths.{name_of, word_path};
ghost use Rattle.grep_targets.specs.Targets.{directory_targets, targets};
ghost use Rattle.grep_targets.specs.Worked.{any_name, odd_set, refused_set, worked_set};

/// The paths of words, and the names of paths.
pub fn worked_paths()
    ensures plain { word_path (codes "d/a.c") ≡ codes "d/a.c" }
    ensures trailing { word_path (codes "d//") ≡ codes "d" }
    ensures root { word_path (codes "/") ≡ codes "/" }
    ensures slashes { word_path (codes "//") ≡ codes "/" }
    ensures empty { word_path [] ≡ [] }
    ensures component { name_of (codes "d/sub/c.c") ≡ codes "c.c" }
    ensures whole { name_of (codes "a.c") ≡ codes "a.c" }
    ensures no_name { name_of (codes "/") ≡ [] }
{}

/// What words stand for. Entries are in the byte order of the components of their paths.
pub fn worked_words()
    ensures plain { targets any_name worked_set (codes "d/" ∷ codes "-" ∷ []) false
        ≡ File (codes "d") ∷ Input ∷ [] }
    ensures recursive { targets any_name worked_set (codes "d/" ∷ codes "-" ∷ []) true
        ≡ File (codes "d/.a") ∷ File (codes "d/b.h") ∷ File (codes "d/sub/c.c")
        ∷ File (codes "d/sub-x") ∷ Input ∷ [] }
    ensures nothing { targets any_name worked_set [] true ≡ Input ∷ [] }
    ensures missing { targets any_name worked_set (codes "e" ∷ codes "d/b.h" ∷ []) true
        ≡ NoOpen (codes "e") ∷ File (codes "d/b.h") ∷ [] }
{}

/// What stands for a directory that isn't listed, and for odd entries.
pub fn worked_directories()
    ensures refused { targets any_name refused_set (codes "d" ∷ []) true
        ≡ File (codes "d/.a") ∷ File (codes "d/b.h") ∷ NoList (codes "d/sub")
        ∷ File (codes "d/sub-x") ∷ [] }
    ensures deep { directory_targets any_name worked_set 1 (codes "d")
        ≡ File (codes "d/.a") ∷ File (codes "d/b.h") ∷ TooDeep (codes "d/sub")
        ∷ File (codes "d/sub-x") ∷ [] }
    ensures odd { targets any_name odd_set (codes "d" ∷ []) true
        ≡ Unnamed (codes "d") ∷ File (codes "d/b") ∷ [] }
    ensures closed { targets any_name odd_set (codes "e" ∷ codes "d/a" ∷ []) true
        ≡ NoList (codes "e") ∷ File (codes "d/a") ∷ [] }
{}

/// Over any set of files the word `-` stands for standard input alone, and each target of another word has the path of
/// that word or one below it.
pub fn targets_stand_below_their_words()
    ensures { StandBelow }
{}

/// Over files that are told, words may stand for what they do stand for.
pub fn told_targets_may_stand()
    ensures { ToldMayStand }
{}
