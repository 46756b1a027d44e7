//! How an element is sliced.

ghost use Rattle.std.specs.Prelude.{◌≡◌, ◌∷◌, ◌++◌, [], map, length, nat_lt, false, ◌&&◌, is_none, codes, string_bytes, IfOk, OnOk};
ghost use Rattle.std.specs.Option.{option_map, option_map_or, option_and_then};
ghost use Rattle.fhir_json.specs.Views.{text_seen};
ghost use Rattle.fhir_names.specs.Parents.{name_of};
ghost use Rattle.fhir_names.specs.Places.{Finds};
ghost use Rattle.fhir_elements.specs.declared.reason.Reason.TheVariants.{UnsupportedSlicing};
ghost use Rattle.fhir_elements.specs.Causes.{reason_of, reason_unless};
ghost use Rattle.fhir_elements.specs.Slicing.{Discriminator};
ghost use Rattle.fhir_forms.specs.Slicings.{is_extension, implied_discriminators, word_of, key_of, put_new, distinct, discriminators_of, is_closing, is_closed};
ghost use Rattle.fhir_forms.specs.CriteriaSeen.{test_seen, tests_seen, lists_of_tests};

use crate::property_name::is_choice;
use fhir_elements::{Cause, DiscriminatorDef, DiscriminatorType, ElementDef, SlicingRules};
use fhir_names::{Index, name_of};
use std::alloc::{AllocError, Global};

/// A discriminator of an element, or one that its name implies.
#[derive(Clone, Copy)]
pub(crate) struct Test<'e> {
    pub(crate) by: Option<DiscriminatorType>,
    pub(crate) path: Option<&'e str>,
    /// Its place in the slicing.
    pub(crate) place: usize,
}

fn is_extension(name: &str) -> bool
    ensures { result ≡ is_extension name.now }
{
    name == "extension" || name == "modifierExtension"
}

fn implied_test(name: &str) -> Option<Test<'static>>
    ensures { option_map_or (λ t. test_seen t ∷ []) result [] ≡ implied_discriminators name.now }
{
    if is_extension(name) {
        Some(Test {
            by: Some(DiscriminatorType::Value),
            path: Some("url"),
            place: 0,
        })
    } else if is_choice(name) {
        Some(Test {
            by: Some(DiscriminatorType::TypeCode),
            path: Some("$this"),
            place: 0,
        })
    } else {
        None
    }
}

fn implied_tests<'e>(alloc: Global, name: &str) -> Result<Vec<Test<'e>>, AllocError>
    ensures { IfOk result (λ tests. tests_seen tests.items ≡ implied_discriminators name.now) }
{
    let mut tests: Vec<Test<'e>> = Vec::new(alloc);
    if let Some(test) = implied_test(name) {
        tests.push(test)?;
    }
    Ok(tests)
}

fn word_of(by: DiscriminatorType) -> &'static str
    ensures { result.now ≡ word_of by }
{
    match by {
        DiscriminatorType::Value => "value",
        DiscriminatorType::Exists => "exists",
        DiscriminatorType::Pattern => "pattern",
        DiscriminatorType::TypeCode => "type",
        DiscriminatorType::Profile => "profile",
    }
}

fn push_path(key: &mut String, path: Option<&str>) -> Result<(), AllocError>
    ensures { OnOk result (string_bytes key.new ≡ string_bytes key.old ++ option_map_or (λ p. codes ":" ++ p) (text_seen path.entry) []) }
{
    if let Some(path) = path {
        key.push_str(":")?;
        key.push_str(path)?;
    }
    Ok(())
}

fn key_of(alloc: Global, test: Test<'_>) -> Result<String, AllocError>
    ensures { IfOk result (λ key. string_bytes key ≡ key_of (test_seen test.entry)) }
{
    let mut key = String::new(alloc);
    if let Some(by) = test.by {
        key.push_str(word_of(by))?;
    }
    push_path(&mut key, test.path)?;
    Ok(key)
}

// Puts a discriminator behind others, unless one of its type and path is among them.
fn put_new<'e>(
    alloc: Global,
    seen: &mut Index,
    tests: &mut Vec<Test<'e>>,
    test: Test<'e>,
) -> Result<(), AllocError>
    ensures put { OnOk result (Finds seen.old (map key_of (tests_seen tests.old.items))
        → tests_seen tests.new.items ≡ put_new (tests_seen tests.old.items) (test_seen test.entry)) }
    ensures found { OnOk result (Finds seen.old (map key_of (tests_seen tests.old.items))
        → Finds seen.new (map key_of (tests_seen tests.new.items))) }
{
    let key = key_of(alloc, test)?;
    if seen.get(key.as_str()).is_some() {
        return Ok(());
    }
    seen.add(alloc, key.as_str(), tests.len())?;
    tests.push(test)?;
    Ok(())
}

// The discriminators of a slicing, each once.
fn named_tests<'e>(
    alloc: Global,
    discriminators: &'e [DiscriminatorDef],
) -> Result<Vec<Test<'e>>, AllocError>
    ensures { IfOk result (λ tests. tests_seen tests.items ≡ distinct discriminators.now) }
{
    let mut seen = Index::new(alloc);
    let mut tests = Vec::new(alloc);
    for (place, discriminator) in discriminators.iter().enumerate() {
        let test = Test {
            by: discriminator.by(),
            path: discriminator.path(),
            place,
        };
        put_new(alloc, &mut seen, &mut tests, test)?;
    }
    Ok(tests)
}

// What tells an element's slices apart.
fn tests_of(alloc: Global, element: &ElementDef) -> Result<Vec<Test<'_>>, AllocError>
    ensures { IfOk result (λ tests. tests_seen tests.items ≡ discriminators_of element.now) }
{
    match element.slicing() {
        Some(slicing) => named_tests(alloc, slicing.discriminators()),
        None => implied_tests(alloc, name_of(element.id())),
    }
}

/// What tells the slices of each element apart.
pub(crate) fn all_tests(
    alloc: Global,
    elements: &[ElementDef],
) -> Result<Vec<Vec<Test<'_>>>, AllocError>
    ensures { IfOk result (λ all. lists_of_tests all.items ≡ map discriminators_of elements.now) }
{
    let mut all = Vec::new(alloc);
    for element in elements {
        all.push(tests_of(alloc, element)?)?;
    }
    Ok(all)
}

fn is_closing(rules: SlicingRules) -> bool
    ensures { result ≡ is_closing rules }
{
    matches!(rules, SlicingRules::Closed)
}

fn rules_of(element: &ElementDef) -> Option<SlicingRules>
    ensures { result ≡ option_and_then (λ s. s.rules) element.now.slicing }
{
    element.slicing()?.rules()
}

/// Whether each of an element's items has to be in one of its slices.
pub fn is_closed(element: &ElementDef) -> bool
    ensures { result ≡ is_closed element.now }
{
    rules_of(element).is_some_and(|rules| is_closing(rules))
}

// Why the discriminator at a place tells nothing; one that its name implies is of no slicing.
fn untold_cause(element: &ElementDef, place: usize) -> Cause
    ensures { reason_of result ≡ UnsupportedSlicing }
{
    match element.slicing() {
        Some(_slicing) => Cause::UntoldDiscriminator(place),
        None => Cause::NoDiscriminator,
    }
}

/// Why an element's slices can't be told by these discriminators, of which the first that isn't told stands at a place.
pub(crate) fn slicing_cause(
    element: &ElementDef,
    tests: &[Test<'_>],
    untold: Option<usize>,
) -> Option<Cause>
    ensures { option_map reason_of result
        ≡ reason_unless (nat_lt 0 (length tests.now) && is_none untold) UnsupportedSlicing }
{
    if tests.is_empty() {
        return Some(Cause::NoDiscriminator);
    }
    Some(untold_cause(element, untold?))
}
