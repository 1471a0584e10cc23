// Worked rows: what the definition of an input's rows gives on small inputs.
ghost use Rattle.std.specs.Prelude.{◌≡◌, ◌∷◌, []};
ghost use Rattle.byte_lanes.specs.declared.line_end.EndKind.TheVariants.{Cr, Lf, CrLf, AnyCrLf, AnyUtf};
ghost use Rattle.line_feed.specs.Rows.{End, Fault, At, Long, row_with, input_with, rows_with, rows};

/// The rows of an input are its bytes cut after each newline of the convention, with their numbers from 1 and the
/// places where they begin (pcre2grep, "Newlines").
pub fn rows_by_convention()
    ensures any_crlf { rows AnyCrLf 9 (input_with (97 ∷ 13 ∷ 98 ∷ 13 ∷ 10 ∷ 99 ∷ []) End)
        ≡ rows_with (row_with (97 ∷ []) (13 ∷ []) 1 0 ∷ row_with (98 ∷ []) (13 ∷ 10 ∷ []) 2 2
        ∷ row_with (99 ∷ []) [] 3 5 ∷ []) (At End) }
    ensures crlf { rows CrLf 9 (input_with (97 ∷ 13 ∷ 98 ∷ 13 ∷ 10 ∷ []) End)
        ≡ rows_with (row_with (97 ∷ 13 ∷ 98 ∷ []) (13 ∷ 10 ∷ []) 1 0 ∷ []) (At End) }
    ensures line_separator { rows AnyUtf 9 (input_with (97 ∷ 226 ∷ 128 ∷ 168 ∷ 98 ∷ []) End)
        ≡ rows_with (row_with (97 ∷ []) (226 ∷ 128 ∷ 168 ∷ []) 1 0
        ∷ row_with (98 ∷ []) [] 2 4 ∷ []) (At End) }
{}

/// Before a read that fails only the whole rows count, and a last CR that an LF would join leaves its row unfinished.
pub fn rows_before_a_fault()
    ensures unfinished { rows AnyCrLf 9 (input_with (97 ∷ 13 ∷ []) Fault)
        ≡ rows_with [] (At Fault) }
    ensures whole { rows Cr 9 (input_with (97 ∷ 13 ∷ []) Fault)
        ≡ rows_with (row_with (97 ∷ []) (13 ∷ []) 1 0 ∷ []) (At Fault) }
{}

/// The rows stop before the first that has more bytes than a row may have. Of a row that is cut off only a last CR
/// that an LF would join isn't counted.
pub fn rows_that_are_too_long()
    ensures second { rows Lf 4
        (input_with (97 ∷ 98 ∷ 10 ∷ 97 ∷ 98 ∷ 99 ∷ 100 ∷ 101 ∷ 10 ∷ 98 ∷ 10 ∷ []) End)
        ≡ rows_with (row_with (97 ∷ 98 ∷ []) (10 ∷ []) 1 0 ∷ []) (Long 2) }
    ensures last_cr { rows CrLf 1 (input_with (97 ∷ 13 ∷ []) Fault) ≡ rows_with [] (At Fault) }
    ensures last_cr_at_the_end { rows CrLf 1 (input_with (97 ∷ 13 ∷ []) End)
        ≡ rows_with [] (Long 1) }
    ensures part_of_a_newline { rows AnyUtf 1 (input_with (97 ∷ 226 ∷ []) Fault)
        ≡ rows_with [] (Long 1) }
{}
