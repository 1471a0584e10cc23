//! Laws on lists of modifiers.
ghost use Rattle.std.specs.Prelude.{◌≡◌, true, false, Some, Ok, Err, codes};
ghost use Rattle.test_modifiers.specs.declared.refusal.Refusal.TheVariants as refusal;
ghost use Rattle.test_modifiers.specs.Modifiers.{ungiven};
ghost use Rattle.test_modifiers.specs.Lists.{list_of};

/// Lists of modifiers, in patterns and in subjects.
#[tactic(auto, unfolding(crate::specs::Lists::list_of))]
pub fn worked_lists()
    ensures pattern { list_of true (codes "imx,-caseless,offset=12")
        ≡ Ok (record ungiven { caseless = Some false; multiline = Some true; extended = Some true; offset = Some 12 }) }
    ensures subject { list_of false (codes " g, ps,replace=a=b ")
        ≡ Ok (record ungiven { global = Some true; partial_soft = Some true; replace = Some (codes "a=b") }) }
    ensures unknown { list_of false (codes "mark,gi,offset")
        ≡ Err (refusal.UnknownModifier (codes "gi")) }
    ensures value { list_of true (codes "mark,-offset=1,nosuch")
        ≡ Err (refusal.BadModifierValue (codes "offset")) }
{}
