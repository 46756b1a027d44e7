//! Candidates are judged, and one that shows what is wanted is given.

ghost use Rattle.std.specs.Prelude.{◌≡◌, ◌↔◌, true, false, IfOk, IfSome, IsSome, IsTrue, option_map};
ghost use Rattle.fhir_counter.specs.Shows.{Shows, ShowsAsGiven, ShowsBy, AlwaysConforms, NeverConforms, ConformsAsGiven, is_text_byte, is_on_line};
ghost use Rattle.fhir_json.specs.Tree.{Tree};
ghost use Rattle.fhir_json.specs.Grammar.{Reads};
ghost use Rattle.fhir_schema.specs.Schemas.{root};
ghost use Rattle.fhir_conformance.specs.Conformance.{Conforms, constant};
ghost use Rattle.fhir_validator.specs.Verdicts.{conforms_as_given};
ghost use Rattle.fhir_validator.specs.declared.fault.Fault.TheVariants as faults;

use fhir_candidates::{candidate, plain_code};
use fhir_certificate::{NodePair, Pair};
use fhir_differences::{Difference, differences};
use fhir_json::NoMemory;
use fhir_schema::Schema;
use fhir_validator::{Fault, Vouched, validate, validate_given};
use fhir_vouching::Vouching;
use std::alloc::Global;

fn conforms_as_given(verdict: &Vouched<'_>) -> bool
    ensures { result ≡ conforms_as_given verdict.now }
{
    match verdict {
        Vouched::Conforms(_) => true,
        Vouched::Violates(_) => false,
        Vouched::Open(_) => false,
    }
}

// What a fault says: want of memory, or that a resource neither conforms nor violates.
fn refused(fault: Fault) -> Result<bool, NoMemory>
    ensures { IfOk result (λ yes. (yes ≡ false) × (fault ≡ faults.NoMemory → ⊥)) }
{
    match fault {
        Fault::Missing | Fault::Unusable(_) | Fault::NotJson(_) => Ok(false),
        Fault::NoMemory => Err(NoMemory),
    }
}

/// Whether a resource conforms to a profile, whatever unread rules mean, and its constraints are true. What can't be judged doesn't. The one refusal is
/// want of memory.
pub fn always_conforms(
    alloc: Global,
    schema: &Schema,
    profile: &str,
    bytes: &[u8],
) -> Result<bool, NoMemory>
    // It does exactly where it conforms though each unread rule fails.
    ensures judged { (t : Tree) → Reads bytes.now t → IfOk result (λ yes. IsTrue yes ↔ Conforms schema.now (constant false) profile.now t) }
    ensures always { (t : Tree) → Reads bytes.now t → IfOk result (λ yes. IsTrue yes → AlwaysConforms schema.now profile.now t) }
    ensures read { IfOk result (λ yes. IsTrue yes → (t : Tree) × Reads bytes.now t) }
{
    match validate(alloc, schema, profile, bytes) {
        Ok(verdict) => Ok(verdict.is_conforming()),
        Err(fault) => refused(fault),
    }
}

// The same where a user vouches for unread rules.
fn conforms_given(
    alloc: Global,
    schema: &Schema,
    profile: &str,
    bytes: &[u8],
    given: &Vouching,
) -> Result<bool, NoMemory>
    ensures conforms { (t : Tree) → Reads bytes.now t → IfOk result (λ yes. IsTrue yes → ConformsAsGiven schema.now given.now profile.now t) }
    ensures read { IfOk result (λ yes. IsTrue yes → (t : Tree) × Reads bytes.now t) }
{
    match validate_given(alloc, schema, profile, bytes, given) {
        Ok(verdict) => Ok(conforms_as_given(&verdict)),
        Err(fault) => refused(fault),
    }
}

/// Whether a resource violates a profile, whatever unread rules mean. What can't be judged doesn't: bytes that aren't JSON, and a profile that isn't there
/// or can't be used. The one refusal is want of memory.
pub fn never_conforms(
    alloc: Global,
    schema: &Schema,
    profile: &str,
    bytes: &[u8],
) -> Result<bool, NoMemory>
    // It does exactly where it doesn't conform though each unread rule holds.
    ensures judged { (t : Tree) → Reads bytes.now t → IsSome (root schema.now profile.now)
        → IfOk result (λ yes. IsTrue yes ↔ ¬ Conforms schema.now (constant true) profile.now t) }
    ensures never { (t : Tree) → Reads bytes.now t → IfOk result (λ yes. IsTrue yes → NeverConforms schema.now profile.now t) }
    ensures there { IfOk result (λ yes. IsTrue yes → IsSome (root schema.now profile.now)) }
    ensures read { IfOk result (λ yes. IsTrue yes → (t : Tree) × Reads bytes.now t) }
{
    match validate(alloc, schema, profile, bytes) {
        Ok(verdict) => Ok(verdict.is_violating()),
        Err(fault) => refused(fault),
    }
}

fn shows(
    alloc: Global,
    schema: &Schema,
    derived: &str,
    base: &str,
    bytes: &[u8],
) -> Result<bool, NoMemory>
    ensures { IfOk result (λ yes. IsTrue yes → Shows schema.now derived.now base.now bytes.now) }
{
    if !always_conforms(alloc, schema, derived, bytes)? {
        return Ok(false);
    }
    never_conforms(alloc, schema, base, bytes)
}

fn shows_given(
    alloc: Global,
    schema: &Schema,
    derived: &str,
    base: &str,
    bytes: &[u8],
    given: &Vouching,
) -> Result<bool, NoMemory>
    ensures { IfOk result (λ yes. IsTrue yes → ShowsAsGiven schema.now given.now derived.now base.now bytes.now) }
{
    if !conforms_given(alloc, schema, derived, bytes, given)? {
        return Ok(false);
    }
    never_conforms(alloc, schema, base, bytes)
}

// The same where a user may vouch for unread rules.
fn shows_by(
    alloc: Global,
    schema: &Schema,
    derived: &str,
    base: &str,
    bytes: &[u8],
    given: Option<&Vouching>,
) -> Result<bool, NoMemory>
    ensures { IfOk result (λ yes. IsTrue yes
        → ShowsBy (option_map (λ texts. texts.now) given.entry) schema.now derived.now base.now bytes.now) }
{
    match given {
        Some(given) => shows_given(alloc, schema, derived, base, bytes, given),
        None => shows(alloc, schema, derived, base, bytes),
    }
}

// ---- candidates

// Where two profiles may differ.
fn differences_of<'s>(
    alloc: Global,
    schema: &'s Schema,
    derived: &str,
    base: &str,
    pair: Pair,
) -> Result<Vec<Difference<'s>>, NoMemory> {
    let (Some(derived), Some(base)) = (schema.root(derived), schema.root(base)) else {
        return Ok(Vec::new(alloc));
    };
    differences(alloc, schema, NodePair { derived, base }, pair)
}

fn made<'s>(
    alloc: Global,
    schema: &'s Schema,
    derived: &str,
    plain: &'s str,
    difference: &Difference<'s>,
) -> Result<Option<Vec<u8>>, NoMemory> {
    match schema.root(derived) {
        Some(root) => candidate(alloc, schema, root, plain, difference),
        None => Ok(None),
    }
}

fn is_text_byte(byte: u8) -> bool
    ensures { result ≡ is_text_byte byte }
{
    byte >= b' '
}

fn is_on_line(bytes: &[u8]) -> bool
    ensures { result ≡ is_on_line bytes.now }
{
    bytes.iter().all(|byte| is_text_byte(*byte))
}

// The candidate, if it shows what is wanted.
fn shown(
    alloc: Global,
    schema: &Schema,
    derived: &str,
    base: &str,
    given: Option<&Vouching>,
    made: Option<Vec<u8>>,
) -> Result<Option<Vec<u8>>, NoMemory>
    ensures shown { IfOk result (λ found. IfSome found
        (λ bytes. ShowsBy (option_map (λ texts. texts.now) given.entry) schema.now derived.now base.now bytes.items)) }
    ensures line { IfOk result (λ found. IfSome found (λ bytes. IsTrue (is_on_line bytes.items))) }
{
    let Some(bytes) = made else {
        return Ok(None);
    };
    if is_on_line(&bytes) && shows_by(alloc, schema, derived, base, &bytes, given)? {
        Ok(Some(bytes))
    } else {
        Ok(None)
    }
}

// The first candidate that shows it.
fn first_shown(
    alloc: Global,
    schema: &Schema,
    derived: &str,
    base: &str,
    pair: Pair,
    given: Option<&Vouching>,
) -> Result<Option<Vec<u8>>, NoMemory>
    ensures shown { IfOk result (λ found. IfSome found
        (λ bytes. ShowsBy (option_map (λ texts. texts.now) given.entry) schema.now derived.now base.now bytes.items)) }
    ensures line { IfOk result (λ found. IfSome found (λ bytes. IsTrue (is_on_line bytes.items))) }
{
    let plain = plain_code(schema);
    let differences = differences_of(alloc, schema, derived, base, pair)?;
    for difference in &differences {
        let bytes = made(alloc, schema, derived, plain, difference)?;
        let found = shown(alloc, schema, derived, base, given, bytes)?;
        if found.is_some() {
            return Ok(found);
        }
    }
    Ok(None)
}

/// A resource that conforms to the derived profile and not to the base, if one was found, on one line. It is looked for at the place of a
/// pair that fails, as `derive` names one: at most 200 candidates are made, each the least resource that the derived profile admits with
/// one change there, and both verdicts on each are asked of `validate`. That none was found says nothing of the profiles. The one refusal
/// is want of memory.
pub fn counterexample(
    alloc: Global,
    schema: &Schema,
    derived: &str,
    base: &str,
    pair: Pair,
) -> Result<Option<Vec<u8>>, NoMemory>
    // What is found shows that the derived profile doesn't narrow the base.
    ensures shown { IfOk result (λ found. IfSome found (λ bytes. Shows schema.now derived.now base.now bytes.items)) }
    ensures line { IfOk result (λ found. IfSome found (λ bytes. IsTrue (is_on_line bytes.items))) }
{
    first_shown(alloc, schema, derived, base, pair, None)
}

/// The same where a user vouches for unread rules by their texts: the resource conforms to the derived profile as the given rules hold,
/// and fails the base whatever unread rules mean.
pub fn counterexample_given(
    alloc: Global,
    schema: &Schema,
    derived: &str,
    base: &str,
    pair: Pair,
    given: &Vouching,
) -> Result<Option<Vec<u8>>, NoMemory>
    ensures shown { IfOk result (λ found. IfSome found (λ bytes. ShowsAsGiven schema.now given.now derived.now base.now bytes.items)) }
    ensures line { IfOk result (λ found. IfSome found (λ bytes. IsTrue (is_on_line bytes.items))) }
{
    first_shown(alloc, schema, derived, base, pair, Some(given))
}

/// One of the two: `counterexample_given` where a user vouches for unread rules, and `counterexample` else.
pub fn counterexample_by(
    alloc: Global,
    schema: &Schema,
    derived: &str,
    base: &str,
    pair: Pair,
    given: Option<&Vouching>,
) -> Result<Option<Vec<u8>>, NoMemory>
    ensures shown { IfOk result (λ found. IfSome found
        (λ bytes. ShowsBy (option_map (λ texts. texts.now) given.entry) schema.now derived.now base.now bytes.items)) }
    ensures line { IfOk result (λ found. IfSome found (λ bytes. IsTrue (is_on_line bytes.items))) }
{
    first_shown(alloc, schema, derived, base, pair, given)
}
