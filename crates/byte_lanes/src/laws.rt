// Worked rows: what the definitions of newlines give on small texts.
ghost use Rattle.std.specs.Prelude.{◌≡◌, ◌∷◌, []};
ghost use Rattle.byte_lanes.specs.Newlines.{newline_len, newline_before_len};
ghost use Rattle.byte_lanes.specs.declared.line_end.EndKind.TheVariants.{Cr, Lf, CrLf, AnyCrLf, Any, AnyUtf};

/// The newline that begins at a place is the longest text of the convention that stands there, as
/// pcre2pattern, "Newline conventions", and pcre2api, "Newlines", list them.
#[tactic(auto, unfolding(crate::specs::Newlines::stands))]
pub fn newlines_by_convention()
    ensures crlf_is_one { newline_len AnyCrLf (97 ∷ 13 ∷ 10 ∷ []) 1 ≡ 2 }
    ensures lone_cr { newline_len AnyCrLf (97 ∷ 13 ∷ 98 ∷ []) 1 ≡ 1 }
    ensures cr_is_no_crlf { newline_len CrLf (97 ∷ 13 ∷ 98 ∷ []) 1 ≡ 0 }
    ensures line_separator { newline_len AnyUtf (226 ∷ 128 ∷ 168 ∷ []) 0 ≡ 3 }
    ensures not_its_last_byte { newline_len AnyUtf (226 ∷ 128 ∷ 168 ∷ []) 2 ≡ 0 }
    ensures next_line_as_a_byte { newline_len Any (133 ∷ []) 0 ≡ 1 }
    ensures next_line_in_utf { newline_len AnyUtf (194 ∷ 133 ∷ []) 0 ≡ 2 }
{}

/// The newline that ends at a place is the longest text of the convention that stands just before it.
#[tactic(auto, unfolding(crate::specs::Newlines::stands))]
pub fn newlines_before_a_place()
    ensures crlf_is_one { newline_before_len AnyCrLf (97 ∷ 13 ∷ 10 ∷ []) 3 ≡ 2 }
    ensures lone_lf { newline_before_len Lf (97 ∷ 13 ∷ 10 ∷ []) 3 ≡ 1 }
    ensures within_a_crlf { newline_before_len Cr (97 ∷ 13 ∷ 10 ∷ []) 2 ≡ 1 }
    ensures none_at_the_start { newline_before_len Any (10 ∷ []) 0 ≡ 0 }
    ensures paragraph_separator { newline_before_len AnyUtf (226 ∷ 128 ∷ 169 ∷ []) 3 ≡ 3 }
{}
