//! Laws on scripts.
ghost use Rattle.std.specs.Prelude.{◌≡◌, ◌≢◌, ℕ, ◌+◌, List, [], ◌∷◌, ◌++◌, length, true, false, Some, None, codes};
ghost use Rattle.std.specs.Option.{option_map};
ghost use Rattle.test_modifiers.specs.declared.refusal.Refusal.TheVariants as refusal;
ghost use Rattle.test_script.specs.declared.entries.Entry.TheVariants as entry;
ghost use Rattle.test_script.specs.declared.entries.Command.TheVariants as command;
ghost use Rattle.test_modifiers.specs.Modifiers.{ungiven};
ghost use Rattle.test_script.specs.Subjects.{subject_text};
ghost use Rattle.test_script.specs.Script.{beginning, closing_place, entries_of};

/// Texts of subject lines, without UTF and with it: the bytes, and where the list begins.
#[tactic(auto, unfolding(crate::specs::Subjects::subject_text, crate::specs::Subjects::times, crate::specs::Subjects::piece_at, crate::specs::Subjects::escape, crate::specs::Subjects::octal, crate::specs::Subjects::hexadecimal, crate::specs::Subjects::braced_octal, token_parts::specs::Bytes::run_end))]
pub fn worked_subjects()
    ensures escapes { subject_text false (codes "\\x41\\102\\n\\.")
        ≡ Some (65 ∷ 66 ∷ 10 ∷ 46 ∷ [], None) }
    ensures characters { subject_text true (codes "\\x{3b1}\\xb1")
        ≡ Some (0xCE ∷ 0xB1 ∷ 0xB1 ∷ [], None) }
    ensures repeated { subject_text false (codes "\\[ab\\]]{2}c\\=ps")
        ≡ Some (codes "ab]ab]c", Some 13) }
    ensures wrong { subject_text false (codes "\\x{100}") ≡ None }
{}

/// Scripts, and what each of their lines is.
#[tactic(auto, unfolding(crate::specs::Script::line_of, test_modifiers::specs::Lists::list_of, crate::specs::Subjects::subject_text, crate::specs::Subjects::times, crate::specs::Subjects::piece_at, crate::specs::Subjects::escape, crate::specs::Subjects::octal, crate::specs::Subjects::hexadecimal, crate::specs::Subjects::braced_octal, token_parts::specs::Bytes::run_end))]
pub fn worked_scripts()
    ensures lines { entries_of (beginning ungiven)
        (codes "/a\\/b" ∷ codes "c/\\i" ∷ codes "# x" ∷ [] ∷ codes "# x" ∷ [])
        ≡ entry.More
        ∷ entry.Pattern
        (record {
          pattern = codes "a\\/b" ++ 10 ∷ codes
              "c\\";
          modifiers = record ungiven { caseless = Some true };
        })
        ∷ entry.Subject (record { subject = codes "# x"; modifiers = ungiven })
        ∷ entry.EndOfSubjects
        ∷ entry.Note ∷ [] }
    ensures refused { entries_of (beginning ungiven)
        (codes "/a/nosuch" ∷ codes "/b/" ∷ codes " " ∷ codes "/b/" ∷ [])
        ≡ entry.Refused (refusal.UnknownModifier (codes "nosuch"))
        ∷ entry.Note
        ∷ entry.EndOfSubjects
        ∷ entry.Pattern (record { pattern = codes "b"; modifiers = ungiven }) ∷ [] }
    ensures defaults { entries_of (beginning ungiven)
        (codes "#pattern i,mark" ∷ codes "#subject -mark" ∷ codes "/a/g" ∷ [])
        ≡ entry.Command (command.PatternDefaults (record ungiven { caseless = Some true; mark = Some true }))
        ∷ entry.Command (command.SubjectDefaults (record ungiven { mark = Some false }))
        ∷ entry.Pattern (record {
          pattern = codes "a";
          modifiers = record ungiven { caseless = Some true; mark = Some false; global = Some true };
        }) ∷ [] }
{}

/// A pattern over several lines is closed where the lines joined by line feeds are.
pub fn lines_of_a_pattern_are_joined()
    ensures { (d : ℕ) (first second : List ℕ) → d ≢ 10 → closing_place d first ≡ None
        → closing_place d (first ++ 10 ∷ second) ≡ option_map (λ n. n + (length first + 1)) (closing_place d second) }
{}
