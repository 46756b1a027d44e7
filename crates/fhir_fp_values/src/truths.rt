//! Truths of three values (FHIRPath N1, section 6.5).

ghost use Rattle.std.specs.Prelude.{◌≡◌};
ghost use Rattle.fhir_fp_values.specs.Equality.{kleene_and, kleene_or, kleene_not, kleene_xor, kleene_implies, is_yes, same_truth};

/// Whether both are so, undecided where neither decides it.
pub fn kleene_and(left: Option<bool>, right: Option<bool>) -> Option<bool>
    ensures { result ≡ kleene_and left right }
{
    match left {
        Some(false) => Some(false),
        Some(true) => right,
        None => match right {
            Some(false) => Some(false),
            Some(true) => None,
            None => None,
        },
    }
}

/// Whether one of them is so, undecided where neither decides it.
pub fn kleene_or(left: Option<bool>, right: Option<bool>) -> Option<bool>
    ensures { result ≡ kleene_or left right }
{
    match left {
        Some(true) => Some(true),
        Some(false) => right,
        None => match right {
            Some(true) => Some(true),
            Some(false) => None,
            None => None,
        },
    }
}

/// Whether it isn't so, undecided where that is.
pub fn kleene_not(truth: Option<bool>) -> Option<bool>
    ensures { result ≡ kleene_not truth }
{
    match truth {
        Some(flag) => Some(!flag),
        None => None,
    }
}

/// Whether exactly one is so, undecided where one is.
pub fn kleene_xor(left: Option<bool>, right: Option<bool>) -> Option<bool>
    ensures { result ≡ kleene_xor left right }
{
    match left {
        Some(left) => match right {
            Some(right) => Some(if left { !right } else { right }),
            None => None,
        },
        None => None,
    }
}

/// Whether the second is so where the first is, undecided where neither decides it.
pub fn kleene_implies(left: Option<bool>, right: Option<bool>) -> Option<bool>
    ensures { result ≡ kleene_implies left right }
{
    kleene_or(kleene_not(left), right)
}

/// Whether it is decided and so.
pub fn is_yes(truth: Option<bool>) -> bool
    ensures { result ≡ is_yes truth }
{
    match truth {
        Some(flag) => flag,
        None => false,
    }
}

pub(crate) fn same_truth(left: bool, right: bool) -> bool
    ensures { result ≡ same_truth left right }
{
    if left { right } else { !right }
}
