//! Laws on replacements.
ghost use Rattle.std.specs.Prelude.{◌≡◌, ℕ, List, [], ◌∷◌, ◌++◌, true, false, Some, None, Ok, Err, codes};
ghost use Rattle.subst_plan.specs.declared.faults.PlanError.TheVariants as refusal;
ghost use Rattle.subst_plan.specs.declared.faults.ExpandError.TheVariants as fault;
ghost use Rattle.subst_plan.specs.declared.pieces.Case.TheVariants as case;
ghost use Rattle.subst_plan.specs.declared.pieces.Forcing.TheVariants as forcing;
ghost use Rattle.subst_plan.specs.declared.pieces.Key.{Key};
ghost use Rattle.subst_plan.specs.declared.pieces.Key.TheVariants as key;
ghost use Rattle.subst_plan.specs.declared.pieces.Piece.{Piece};
ghost use Rattle.subst_plan.specs.declared.pieces.Piece.TheVariants as piece;
ghost use Rattle.subst_plan.specs.declared.expanding.UnsetRules.{UnsetRules};
ghost use Rattle.subst_plan.specs.declared.expanding.State.{State};
ghost use Rattle.subst_plan.specs.Matched.{Matched};
ghost use Rattle.subst_plan.specs.Plans.{pieces_of};
ghost use Rattle.subst_plan.specs.Nested.{is_whole};
ghost use Rattle.subst_plan.specs.Expansion.{group_text, expanded_from, rules_of, expansion};

/// Replacements, with the pieces that they are read as, or the first fault.
#[tactic(auto, unfolding(crate::specs::Plans::pieces_of, crate::specs::Reading::piece_at, crate::specs::Reading::reference, crate::specs::Reading::bare, crate::specs::Reading::braced, crate::specs::Reading::after_key, crate::specs::Reading::key_at, crate::specs::Reading::is_mark, crate::specs::Reading::escape, crate::specs::Reading::quote_end, token_parts::specs::Bytes::run_end, token_parts::specs::Bytes::numeral))]
pub fn worked_replacements()
    ensures pieces { pieces_of true false (codes "\\u$1${2:-none}")
        ≡ Ok (piece.Force (forcing.Next case.Upper)
        ∷ piece.Group (key.Number 1)
        ∷ piece.Default (key.Number 2)
        ∷ piece.Text 9 13
        ∷ piece.Close ∷ []) }
    ensures plain { pieces_of false false (codes "\\u[$n:$*MARK")
        ≡ Ok (piece.Text 0 3
        ∷ piece.Group (key.Name 4 5)
        ∷ piece.Text 5 6
        ∷ piece.Mark ∷ []) }
    ensures dollar { pieces_of false false (codes "$") ≡ Err refusal.BadReplacement }
    ensures brace { pieces_of false false (codes "${1") ≡ Err refusal.MissingBrace }
    ensures colon { pieces_of false false (codes "${1:-x}") ≡ Err refusal.MissingBrace }
    ensures syntax { pieces_of true false (codes "${1:x}") ≡ Err refusal.BadSyntax }
    ensures leftmost { pieces_of true false (codes "${1:-\\i$") ≡ Err refusal.BadEscape }
{}

/// What `\u$1${2:-none}` writes where group 1 took `a` and group 2 nothing, and what `$2` and `$3` do.
pub fn worked_expansions()
    ensures default { expansion (rules_of false false)
        (record { texts = Some (codes "a") ∷ Some (codes "a") ∷ None ∷ []; names = []; mark = [] })
        (record {
          text = codes "\\u$1${2:-none}";
          pieces = piece.Force (forcing.Next case.Upper)
              ∷ piece.Group (key.Number 1)
              ∷ piece.Default (key.Number 2)
              ∷ piece.Text 9 13
              ∷ piece.Close ∷ [];
        })
        ≡ Ok (codes "Anone") }
    ensures unset { expansion (rules_of false true)
        (record { texts = Some (codes "a") ∷ None ∷ []; names = []; mark = [] })
        (record { text = codes "$1"; pieces = piece.Group (key.Number 1) ∷ [] })
        ≡ Err fault.Unset }
    ensures unknown { expansion (rules_of true false)
        (record { texts = Some (codes "a") ∷ None ∷ []; names = []; mark = [] })
        (record { text = codes "$2"; pieces = piece.Group (key.Number 2) ∷ [] })
        ≡ Err fault.NoGroup }
{}

/// `${x:+yes:no}` writes what the text that is chosen would write in its place, whatever is nested in it.
pub fn texts_are_chosen_as_wholes()
    ensures set { (rules : UnsetRules) (m : Matched) (text : List ℕ) (state : State) (x : Key)
        (bytes : List ℕ) (first second rest : List Piece)
        → state.left_out ≡ 0 → group_text rules m text x ≡ Ok (Some bytes)
        → is_whole first ≡ true → is_whole second ≡ true
        → expanded_from rules m text state
        (piece.Choice x ∷ first ++ piece.Else ∷ second ++ piece.Close ∷ rest)
        ≡ expanded_from rules m text state (first ++ rest) }
    ensures unset { (rules : UnsetRules) (m : Matched) (text : List ℕ) (state : State) (x : Key)
        (first second rest : List Piece)
        → state.left_out ≡ 0 → group_text rules m text x ≡ Ok None
        → is_whole first ≡ true → is_whole second ≡ true
        → expanded_from rules m text state
        (piece.Choice x ∷ first ++ piece.Else ∷ second ++ piece.Close ∷ rest)
        ≡ expanded_from rules m text state (second ++ rest) }
{}

/// `${x:-text}` writes what `$x` would where the group is set, else what the text would, whatever is nested in it.
pub fn defaults_are_chosen_as_wholes()
    ensures set { (rules : UnsetRules) (m : Matched) (text : List ℕ) (state : State) (x : Key)
        (bytes : List ℕ) (inner rest : List Piece)
        → state.left_out ≡ 0 → group_text rules m text x ≡ Ok (Some bytes) → is_whole inner ≡ true
        → expanded_from rules m text state (piece.Default x ∷ inner ++ piece.Close ∷ rest)
        ≡ expanded_from rules m text state (piece.Group x ∷ rest) }
    ensures unset { (rules : UnsetRules) (m : Matched) (text : List ℕ) (state : State) (x : Key)
        (inner rest : List Piece)
        → state.left_out ≡ 0 → group_text rules m text x ≡ Ok None → is_whole inner ≡ true
        → expanded_from rules m text state (piece.Default x ∷ inner ++ piece.Close ∷ rest)
        ≡ expanded_from rules m text state (inner ++ rest) }
{}
