//! Case forcing.
ghost use Rattle.std.specs.Prelude.{◌≡◌, ◌++◌, map, OnOk, IfOk};
ghost use Rattle.subst_plan.specs.Forcing.{in_case, forced, forcing_after};

use crate::pieces::{Case, Forcing};
use std::alloc::AllocError;

/// A byte in a case, if it is an ASCII letter.
fn in_case(case: Case, b: u8) -> u8
    ensures { result ≡ in_case case b }
{
    match case {
        Case::Upper => b.to_ascii_uppercase(),
        Case::Lower => b.to_ascii_lowercase(),
    }
}

/// Adds bytes in a case.
fn push_all(out: &mut Vec<u8>, case: Case, bytes: &[u8]) -> Result<(), AllocError>
    ensures { OnOk result (out.new.items ≡ out.old.items ++ map (in_case case) bytes.now) }
{
    for b in bytes {
        out.push(in_case(case, *b))?;
    }
    Ok(())
}

/// Adds bytes in the case that is forced, and answers what is forced after them.
pub fn push_forced(out: &mut Vec<u8>, forcing: Forcing, bytes: &[u8]) -> Result<Forcing, AllocError>
    ensures written { OnOk result (out.new.items ≡ out.old.items ++ forced forcing bytes.now) }
    ensures after { IfOk result (λ after. after ≡ forcing_after forcing bytes.now) }
{
    match (forcing, bytes) {
        (Forcing::All(case), _) => {
            push_all(out, case, bytes)?;
            Ok(forcing)
        }
        (Forcing::Next(case), [b, rest @ ..]) => {
            out.push(in_case(case, *b))?;
            out.extend_from_slice(rest)?;
            Ok(Forcing::Off)
        }
        _ => {
            out.extend_from_slice(bytes)?;
            Ok(forcing)
        }
    }
}
