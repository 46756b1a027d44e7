//! Validation of resources.

ghost use Rattle.std.specs.Prelude.{◌≡◌, ◌↔◌, [], false, true, None, IsSome, IfOk, IfErr, IsTrue};
ghost use Rattle.fhir_json.specs.Tree.{Text, Tree};
ghost use Rattle.fhir_json.specs.Reading.{is_no_memory as is_fault_of_memory};
ghost use Rattle.fhir_json.specs.Grammar.{Reads};
ghost use Rattle.fhir_schema.specs.Schemas.{SchemaValue, root};
ghost use Rattle.fhir_facets.specs.Unread.{as_given};
ghost use Rattle.fhir_instance.specs.View.{item_of, is_no_memory};
ghost use Rattle.fhir_conformance.specs.Conformance.{Interpretation, Conforms, constant, as_read};
ghost use Rattle.fhir_validator.specs.Verdicts.{is_conforming, is_violating, IsExplained, conforms_as_given, conforms_anyway, violates_anyway, AreGiven, IsUpheld, IsVouchedFor, Means};
ghost use Rattle.fhir_validator.specs.Needed.{ConstraintsHold, ConstraintsHoldAsGiven};
ghost use Rattle.fhir_validator.specs.Layouts.{item_at, resource_of};
ghost use Rattle.fhir_validator.specs.Judging.{IsRight};
ghost use Rattle.fhir_validator.specs.Listing.{PairIsTold, AreFound, IsVerdictAt, IsMisfitVerdict, IsVerdictOn, IsOfBytes};

use crate::fault::Fault;
use crate::issue::Issue;
use crate::judgement::Judgement;
use crate::judging::Judge;
use crate::layout::Layout;
use crate::listing::Listing;
use crate::pair::ItemPair;
use crate::verdict::{Verdict, Vouched};
use fhir_conformance::positive;
use fhir_instance::{Misfit, MisfitKind, Typed, type_resource};
use fhir_json::{JsonFault, NoMemory, one_tree};
use fhir_schema::{NodeRef, Schema, roots_are_roots};
use fhir_vouching::Vouching;
use std::alloc::Global;

// What the outermost item's pair with a node rests on, which has that judgement.
fn listing_of<'s>(
    alloc: Global,
    judge: &mut Judge<'s, '_, '_, '_>,
    wanted: Judgement,
    pair: ItemPair,
) -> Result<Listing<'s>, NoMemory>
    requires whole { resource_of judge.old pair.item ≡ item_at judge.old pair.item }
    requires wanted { IsRight judge.old pair wanted }
    ensures kept { IfOk result (λ listing. listing.wanted ≡ wanted) }
    ensures told { IfOk result (PairIsTold judge.old pair) }
    ensures found { IfOk result (AreFound judge.old (item_at judge.old pair.item) pair.node) }
{
    let mut listing = Listing::new(alloc, wanted);
    judge.list_pair(&mut listing, pair)?;
    Ok(listing)
}

// The verdict on an item at a root, by judgements that are kept.
fn judged_verdict<'s>(
    alloc: Global,
    schema: &'s Schema,
    item: &Typed<'_, '_>,
    node: NodeRef,
    given: &Vouching,
) -> Result<Vouched<'s>, NoMemory>
    ensures { IfOk result (IsVerdictAt schema.now given.now (item_of item.now) node) }
{
    positive();
    let mut judge = Judge::new(alloc, Layout::of(alloc, schema, given, item)?);
    let pair = ItemPair { item: 0, node };
    match judge.judgement_of(pair)? {
        Judgement::Holds => Ok(Vouched::Conforms(Vec::new(alloc))),
        Judgement::Given => {
            let listing = listing_of(alloc, &mut judge, Judgement::Given, pair)?;
            Ok(Vouched::Conforms(listing.into_sites()))
        }
        Judgement::Open => {
            let listing = listing_of(alloc, &mut judge, Judgement::Open, pair)?;
            Ok(Vouched::Open(listing.into_sites()))
        }
        Judgement::Fails => {
            let listing = listing_of(alloc, &mut judge, Judgement::Fails, pair)?;
            Ok(Vouched::Violates(listing.into_issues()))
        }
    }
}

// The verdict on an item at a root. Most items conform whatever unread rules mean, which a walk tells without keeping anything.
fn verdict_at<'s>(
    alloc: Global,
    schema: &'s Schema,
    item: &Typed<'_, '_>,
    node: NodeRef,
    given: &Vouching,
    steps: usize,
) -> Result<Vouched<'s>, NoMemory>
    ensures { IfOk result (IsVerdictAt schema.now given.now (item_of item.now) node) }
{
    positive();
    if let Some(true) = fhir_walk::conforms(alloc, schema, item, node, steps) {
        return Ok(Vouched::Conforms(Vec::new(alloc)));
    }
    judged_verdict(alloc, schema, item, node, given)
}

// How many steps a walk may take through what so many bytes say: more than a resource takes that is asked for each item twice.
fn steps_for(size: usize) -> usize {
    size.saturating_mul(8).saturating_add(1024)
}

fn is_no_memory(misfit: &Misfit) -> bool
    ensures { result ≡ is_no_memory misfit.now }
{
    match misfit.kind {
        MisfitKind::UnknownProperty => false,
        MisfitKind::UnwantedArray => false,
        MisfitKind::MissingArray => false,
        MisfitKind::Empty => false,
        MisfitKind::WrongValue => false,
        MisfitKind::Unparallel => false,
        MisfitKind::UnknownType => false,
        MisfitKind::NoMemory => true,
    }
}

// The verdict on what has no item, unless memory ran out.
fn misfit_verdict<'s>(alloc: Global, misfit: Misfit) -> Result<Vouched<'s>, NoMemory>
    ensures verdict { IfOk result IsMisfitVerdict }
    ensures decided { IfOk result (λ v. is_no_memory misfit ≡ false) }
{
    if is_no_memory(&misfit) {
        return Err(NoMemory);
    }
    let mut issues = Vec::new(alloc);
    issues.push(Issue::Misfit(misfit))?;
    Ok(Vouched::Violates(issues))
}

fn fault_of(fault: JsonFault) -> Fault
    ensures { (bytes : Text) → (is_fault_of_memory fault ≡ false → (t : Tree) → Reads bytes t → ⊥)
        → IsOfBytes bytes result }
{
    match fault {
        JsonFault::NotUtf8 => Fault::NotJson(fault),
        JsonFault::Syntax => Fault::NotJson(fault),
        JsonFault::RepeatedName => Fault::NotJson(fault),
        JsonFault::LoneSurrogate => Fault::NotJson(fault),
        JsonFault::TooDeep => Fault::NotJson(fault),
        JsonFault::Trailing => Fault::NotJson(fault),
        JsonFault::NoMemory => Fault::NoMemory,
    }
}

// The verdict on bytes at a root.
fn validate_at<'s>(
    alloc: Global,
    schema: &'s Schema,
    node: NodeRef,
    bytes: &[u8],
    given: &Vouching,
) -> Result<Vouched<'s>, Fault>
    ensures verdict { (t : Tree) → Reads bytes.now t → IfOk result (IsVerdictOn schema.now given.now node t) }
    ensures read { IfOk result (λ v. (t : Tree) × Reads bytes.now t) }
    ensures refused { IfErr result (IsOfBytes bytes.now) }
{
    one_tree();
    let json = match fhir_json::read(alloc, bytes) {
        Ok(json) => json,
        Err(fault) => return Err(fault_of(fault)),
    };
    match type_resource(alloc, schema, &json) {
        Ok(item) => Ok(verdict_at(alloc, schema, &item, node, given, steps_for(bytes.len()))?),
        Err(misfit) => Ok(misfit_verdict(alloc, misfit)?),
    }
}

// Why the definition at a url has no root.
fn root_fault(schema: &Schema, url: &str) -> Fault
    requires { root schema.now url.now ≡ None }
    ensures { (bytes : Text) → Means schema.now url.now bytes result }
{
    match schema.unusable(url) {
        Some(reason) => Fault::Unusable(reason),
        None => Fault::Missing,
    }
}

/// Whether a resource conforms to a profile (FHIR R4, Profiling and ElementDefinition), where a user vouches for unread rules by
/// their texts. Where it does as the given rules hold, those are listed on which that rests; where it hangs on others, these are
/// listed; where it fails whatever unread rules mean, what fails is listed. The time is near linear in what the definitions ask of
/// the resource: no pair of a node and an item is judged twice.
///
/// The refusals are those of [`validate`].
pub fn validate_given<'s>(
    alloc: Global,
    schema: &'s Schema,
    profile: &str,
    bytes: &[u8],
    given: &Vouching,
) -> Result<Vouched<'s>, Fault>
    // It conforms exactly where it does though those unread rules alone hold whose texts are given, and then by each meaning by which
    // they hold.
    ensures conforms { (t : Tree) → Reads bytes.now t → IfOk result (λ v.
        IsTrue (conforms_as_given v) ↔ Conforms schema.now (as_read given.now as_given) profile.now t) }
    ensures always { (t : Tree) → Reads bytes.now t → IfOk result (λ v. IsTrue (conforms_as_given v)
        → (meaning : Interpretation) → AreGiven given.now meaning → Conforms schema.now meaning profile.now t) }
    // Indeed by each meaning by which the listed ones of them hold.
    ensures rests { (t : Tree) → Reads bytes.now t → IfOk result (λ v.
        (meaning : Interpretation) → IsUpheld meaning v → Conforms schema.now meaning profile.now t) }
    // All that are listed are given, so they hold by the meaning by which the given rules alone do.
    ensures upheld { (t : Tree) → Reads bytes.now t → IfOk result (λ v.
        IsTrue (conforms_as_given v) → IsUpheld (as_read given.now as_given) v) }
    // Each of its constraints is then read, and true under FHIRPath's meaning; or its text is given.
    ensures constraints { (t : Tree) → Reads bytes.now t → IfOk result (λ v.
        IsTrue (conforms_as_given v) → ConstraintsHoldAsGiven schema.now given.now profile.now t) }
    // None of them is listed exactly where it conforms though each unread rule fails.
    ensures anyway { (t : Tree) → Reads bytes.now t → IfOk result (λ v.
        IsTrue (conforms_anyway v) ↔ Conforms schema.now (constant false) profile.now t) }
    // It violates exactly where it doesn't conform though each unread rule holds, and then whatever they mean.
    ensures violates { (t : Tree) → Reads bytes.now t → IfOk result (λ v.
        IsTrue (violates_anyway v) ↔ ¬ Conforms schema.now (constant true) profile.now t) }
    ensures never { (t : Tree) → Reads bytes.now t → IfOk result (λ v.
        IsTrue (violates_anyway v) → (meaning : Interpretation) → ¬ Conforms schema.now meaning profile.now t) }
    // All that is listed is right; and something is, of what violates and of what is open.
    ensures explained { (t : Tree) → Reads bytes.now t → IfOk result (IsVouchedFor schema.now given.now profile.now t) }
    // There is a verdict of a profile that is there and can be used alone, and on JSON alone.
    ensures there { IfOk result (λ v. IsSome (root schema.now profile.now)) }
    ensures read { IfOk result (λ v. (t : Tree) × Reads bytes.now t) }
    ensures refused { IfErr result (Means schema.now profile.now bytes.now) }
{
    positive();
    roots_are_roots();
    match schema.root(profile) {
        Some(node) => validate_at(alloc, schema, node, bytes, given),
        None => Err(root_fault(schema, profile)),
    }
}

// The same where nothing is given.
fn verdict_of<'s>(vouched: Vouched<'s>) -> Verdict<'s>
    ensures conforms { is_conforming result ≡ conforms_as_given vouched.entry }
    ensures violates { is_violating result ≡ violates_anyway vouched.entry }
    ensures explained { (s : SchemaValue) (profile : Text) (t : Tree) → IsVouchedFor s [] profile t vouched.entry
        → IsExplained s profile t result }
{
    match vouched {
        Vouched::Conforms(_relied) => Verdict::Conforms,
        Vouched::Violates(issues) => Verdict::Violates(issues),
        Vouched::Open(sites) => Verdict::Open(sites),
    }
}

/// Whether a resource conforms to a profile (FHIR R4, Profiling and ElementDefinition). Where that hangs on rules that aren't
/// read, it is open, and these are listed; where it fails whatever they mean, what fails is listed. The time is near linear in
/// what the definitions ask of the resource: no pair of a node and an item is judged twice.
///
/// The refusals are those of [`Fault`]: a profile that isn't there, before one that can't be used, before bytes that aren't
/// JSON; and want of memory.
pub fn validate<'s>(
    alloc: Global,
    schema: &'s Schema,
    profile: &str,
    bytes: &[u8],
) -> Result<Verdict<'s>, Fault>
    // It conforms exactly where it does though each unread rule fails, and then whatever they mean.
    ensures conforms { (t : Tree) → Reads bytes.now t → IfOk result (λ v.
        IsTrue (is_conforming v) ↔ Conforms schema.now (constant false) profile.now t) }
    ensures always { (t : Tree) → Reads bytes.now t → IfOk result (λ v.
        IsTrue (is_conforming v) → (meaning : Interpretation) → Conforms schema.now meaning profile.now t) }
    // Each of its constraints is then read, and true under FHIRPath's meaning.
    ensures constraints { (t : Tree) → Reads bytes.now t → IfOk result (λ v.
        IsTrue (is_conforming v) → ConstraintsHold schema.now profile.now t) }
    // It violates exactly where it doesn't conform though each unread rule holds, and then whatever they mean.
    ensures violates { (t : Tree) → Reads bytes.now t → IfOk result (λ v.
        IsTrue (is_violating v) ↔ ¬ Conforms schema.now (constant true) profile.now t) }
    ensures never { (t : Tree) → Reads bytes.now t → IfOk result (λ v.
        IsTrue (is_violating v) → (meaning : Interpretation) → ¬ Conforms schema.now meaning profile.now t) }
    // Something is listed, and all that is listed is right.
    ensures explained { (t : Tree) → Reads bytes.now t → IfOk result (IsExplained schema.now profile.now t) }
    // There is a verdict of a profile that is there and can be used alone, and on JSON alone.
    ensures there { IfOk result (λ v. IsSome (root schema.now profile.now)) }
    ensures read { IfOk result (λ v. (t : Tree) × Reads bytes.now t) }
    ensures refused { IfErr result (Means schema.now profile.now bytes.now) }
{
    positive();
    let vouched = validate_given(alloc, schema, profile, bytes, &Vouching::none())?;
    Ok(verdict_of(vouched))
}
