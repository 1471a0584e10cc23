//! Laws on the plan of words.
ghost use Rattle.std.specs.Prelude.{◌≡◌, ℕ, List, [], ◌∷◌, IsTrue, Ok, Err, Some, codes, true};
ghost use Rattle.grep_args.specs.Effects.{unset, plain_effect, number_effect, value_effect, group_shown};
ghost use Rattle.grep_args.specs.Words.{plan_of, fault};
ghost use Rattle.grep_args.specs.Kept.{keeps_one, in_turn};
ghost use Rattle.grep_args.specs.declared.plan.BinaryMode.{BinaryMode};
ghost use Rattle.grep_args.specs.declared.plan.GrepPlan.{GrepPlan};
ghost use Rattle.grep_args.specs.declared.plan.HelpKind.TheVariants.{Version};
ghost use Rattle.grep_args.specs.declared.plan.NameMode.{NameMode};
ghost use Rattle.grep_args.specs.declared.plan.OffsetMode.{OffsetMode};
ghost use Rattle.grep_args.specs.declared.plan.OffsetMode.TheVariants.{Lines, File};
ghost use Rattle.grep_args.specs.declared.options.PlainOption.TheVariants.{Names, Binary, Offsets};
ghost use Rattle.grep_args.specs.declared.options.NumberOption.TheVariants.{AfterContext, BeforeContext, Context};
ghost use Rattle.grep_args.specs.declared.options.ValuedOption.{ValuedOption};
ghost use Rattle.grep_args.specs.declared.usage.UsageKind.TheVariants.{UnknownOption, MissingValue, BadNumber};
ghost use Rattle.grep_args.specs.declared.usage.UsageKind.TheVariants.{BadValue, Exclude, NoPattern};

/// Lists of words with their plans.
#[tactic(auto, unfolding(crate::specs::Words::plan_of))]
pub fn worked_plans()
    ensures letters { plan_of (codes "-nC2" ∷ codes "x" ∷ codes "f" ∷ [])
        ≡ Ok (record unset {
          patterns = codes "x" ∷ [];
          line_number = true;
          after_context = 2;
          before_context = 2;
          files_from = 2;
        }) }
    ensures last { plan_of (codes "-C" ∷ codes "3" ∷ codes "--after-context=1K" ∷ codes "-ex"
        ∷ codes "--" ∷ codes "-f" ∷ [])
        ≡ Ok (record unset {
          patterns = codes "x" ∷ [];
          after_context = 1024;
          before_context = 3;
          files_from = 5;
        }) }
    ensures groups { plan_of (codes "-o5" ∷ codes "-on" ∷ codes "-" ∷ [])
        ≡ Ok (record unset {
          patterns = codes "-" ∷ [];
          only_matching = 5 ∷ 0 ∷ [];
          line_number = true;
          files_from = 3;
        }) }
    ensures help { plan_of (codes "-Vq" ∷ codes "--help" ∷ [])
        ≡ Ok (record unset { help = Some Version; quiet = true; files_from = 2 }) }
{}

/// Lists of words with the faults that are told.
#[tactic(auto, unfolding(crate::specs::Words::plan_of))]
pub fn worked_faults()
    ensures nothing { plan_of [] ≡ fault NoPattern 0 }
    ensures own_word { plan_of (codes "-A" ∷ codes "K" ∷ codes "x" ∷ []) ≡ fault BadNumber 1 }
    ensures joined { plan_of (codes "-nm0" ∷ codes "x" ∷ []) ≡ fault BadValue 0 }
    ensures excluded { plan_of (codes "--line-offsets" ∷ codes "-no" ∷ codes "-Z" ∷ [])
        ≡ fault Exclude 1 }
    ensures unknown { plan_of (codes "--help" ∷ codes "--quiet=" ∷ []) ≡ fault UnknownOption 1 }
    ensures missing { plan_of (codes "-n" ∷ codes "-qe" ∷ []) ≡ fault MissingValue 1 }
{}

/// An option that is given again takes its last value, whatever the plan before it. Patterns and their files add up
/// instead. `-C` is `-A` and `-B` in its place.
pub fn last_values_count()
    ensures values { (option : ValuedOption) (first last : List ℕ) (plan after : GrepPlan)
        → IsTrue (keeps_one option)
        → value_effect option first plan ≡ Ok after
        → value_effect option last after ≡ value_effect option last plan }
    ensures names { (first last : NameMode) (plan : GrepPlan)
        → in_turn (plain_effect (Names first)) (plain_effect (Names last)) plan
        ≡ plain_effect (Names last) plan }
    ensures binary { (first last : BinaryMode) (plan : GrepPlan)
        → in_turn (plain_effect (Binary first)) (plain_effect (Binary last)) plan
        ≡ plain_effect (Binary last) plan }
    ensures context { (text : List ℕ) (plan : GrepPlan)
        → number_effect Context text plan
        ≡ in_turn (number_effect AfterContext text) (number_effect BeforeContext text) plan }
{}

/// Of `-o`, `--line-offsets` and `--file-offsets` each excludes the others.
pub fn offsets_exclude_groups()
    ensures groups { (n : ℕ) (mode : OffsetMode) (plan after : GrepPlan)
        → group_shown n plan ≡ Ok after
        → plain_effect (Offsets mode) after ≡ Err Exclude }
    ensures lines { (n : ℕ) (plan after : GrepPlan)
        → plain_effect (Offsets Lines) plan ≡ Ok after → group_shown n after ≡ Err Exclude }
    ensures files { (n : ℕ) (plan after : GrepPlan)
        → plain_effect (Offsets File) plan ≡ Ok after → group_shown n after ≡ Err Exclude }
    ensures files_after_lines { (plan after : GrepPlan)
        → plain_effect (Offsets Lines) plan ≡ Ok after
        → plain_effect (Offsets File) after ≡ Err Exclude }
    ensures lines_after_files { (plan after : GrepPlan)
        → plain_effect (Offsets File) plan ≡ Ok after
        → plain_effect (Offsets Lines) after ≡ Err Exclude }
{}
