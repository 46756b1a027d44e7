//! The constraints of one element put behind those of another.

ghost use Rattle.std.specs.BTreeSet.{IsUnchanged};
ghost use Rattle.std.specs.Bool.{OnFalse};
ghost use Rattle.std.specs.List.{list_any};
ghost use Rattle.std.specs.Prelude.{◌≡◌, ◌∷◌, ◌++◌, [], List, not, IfOk, OnOk};
ghost use Rattle.fhir_elements.specs.Constraint.{Constraint};
ghost use Rattle.fhir_overlay.specs.Overlay.{same_constraint, with_constraint, with_constraints};
ghost use Rattle.fhir_overlay.specs.Noted.{identified, AreNoted};

use crate::copying::copied_constraint;
use fhir_elements::{ConstraintDef, Severity};
use std::alloc::{AllocError, Global};
use std::collections::BTreeSet;

// What two constraints have in common where they are the same.
#[derive(Clone, Copy, PartialEq, Eq, PartialOrd, Ord)]
struct Identity<'a> {
    key: &'a str,
    severity: Option<Severity>,
    expression: Option<&'a str>,
}

fn identity_of(constraint: &ConstraintDef) -> Identity<'_>
    ensures { identified result ≡ constraint.now }
{
    Identity {
        key: constraint.key(),
        severity: constraint.severity(),
        expression: constraint.expression(),
    }
}

// Notes a constraint, and says whether the same wasn't noted before.
fn note<'a>(
    noted: &mut BTreeSet<Identity<'a>>,
    constraint: &'a ConstraintDef,
) -> Result<bool, AllocError>
    ensures new { IfOk result (λ is_new. (cs : List Constraint) → AreNoted noted.old cs
        → is_new ≡ not (list_any (same_constraint constraint.now) cs)) }
    ensures noted { OnOk result ((cs : List Constraint) → AreNoted noted.old cs
        → AreNoted noted.new (cs ++ constraint.now ∷ [])) }
    ensures unchanged { IfOk result (λ is_new. OnFalse is_new (IsUnchanged noted.old noted.new)) }
{
    Ok(noted.insert(identity_of(constraint))?)
}

fn all_noted<'a>(
    alloc: Global,
    constraints: &'a [ConstraintDef],
) -> Result<BTreeSet<Identity<'a>>, AllocError>
    ensures { IfOk result (λ noted. AreNoted noted constraints.now) }
{
    let mut noted = BTreeSet::new(alloc);
    for constraint in constraints {
        note(&mut noted, constraint)?;
    }
    Ok(noted)
}

// Puts a copy of a constraint behind those added, unless the same is noted.
fn add_new<'a>(
    alloc: Global,
    noted: &mut BTreeSet<Identity<'a>>,
    added: &mut Vec<ConstraintDef>,
    constraint: &'a ConstraintDef,
) -> Result<(), AllocError>
    ensures noted { OnOk result ((cs : List Constraint) → AreNoted noted.old (cs ++ added.old.items)
        → AreNoted noted.new (cs ++ added.new.items)) }
    ensures added { OnOk result ((cs : List Constraint) → AreNoted noted.old (cs ++ added.old.items)
        → cs ++ added.new.items ≡ with_constraint (cs ++ added.old.items) constraint.now) }
{
    if note(noted, constraint)? {
        let constraint = copied_constraint(alloc, constraint)?;
        added.push(constraint)?;
    }
    Ok(())
}

// Copies of those of `more` that are to be put behind the others.
fn added<'a>(
    alloc: Global,
    constraints: &'a [ConstraintDef],
    more: &'a [ConstraintDef],
) -> Result<Vec<ConstraintDef>, AllocError>
    ensures { IfOk result (λ added. constraints.now ++ added.items ≡ with_constraints constraints.now more.now) }
{
    let mut noted = all_noted(alloc, constraints)?;
    let mut added = Vec::new(alloc);
    for constraint in more {
        add_new(alloc, &mut noted, &mut added, constraint)?;
    }
    Ok(added)
}

/// Puts those of `more` of which none is the same behind the others. It takes time near linear in their number.
pub(crate) fn add_constraints(
    alloc: Global,
    constraints: &mut Vec<ConstraintDef>,
    more: &[ConstraintDef],
) -> Result<(), AllocError>
    ensures { OnOk result (constraints.new.items ≡ with_constraints constraints.old.items more.now) }
{
    if more.is_empty() {
        return Ok(());
    }
    let mut added = added(alloc, constraints, more)?;
    constraints.append(&mut added)?;
    Ok(())
}
