//! A caller of each library, as the front page of the library shows it. Here they are proved, and `tests/rules` holds the two
//! against each other. Those of `fhir_answers` and `fhir_engine` stand in `engine_tests`, which stands on them
//! in any case.
#![tactic(auto)]

ghost use Rattle.std.specs.Prelude.{◌≡◌, ◌∷◌, ◌++◌, ◌↔◌, ◌||◌, [], map, Some, length, get_or, false, None, Ok, OnOk, OnErr, All, is_ok, is_some, List, Option, Result, if◌then◌else◌, IsTrue, IfOk, IfSome, codes, string_bytes, option_map};
ghost use Rattle.std.specs.FinSet as set;
ghost use Rattle.std.specs.List.{list_any};
ghost use Rattle.std.specs.Option.{option_map_or};
ghost use Rattle.fhir_json.specs.Tree.{Text, Tree};
ghost use Rattle.fhir_json.specs.Views.{tree_of, text_seen};
ghost use Rattle.fhir_json.specs.Fields.{text_in};
ghost use Rattle.fhir_json.specs.Grammar.{Reads};
ghost use Rattle.fhir_json.specs.Memory.{Gives};
ghost use Rattle.std.specs.Bool.{OnFalse};
ghost use Rattle.fhir_asking.specs.Asking.{NeedsItself};
ghost use Rattle.fhir_overlay.specs.Overlay.{laid_over};
ghost use Rattle.fhir_inheritance.specs.Sources.{source_at};
ghost use Rattle.fhir_snapshot.specs.Snapshots.{IsSnapshot};
ghost use Rattle.fhir_decimal.specs.Text.{Parts, IsDecimal};
ghost use Rattle.fhir_decimal.specs.Value.{value_of, is_same_value};
ghost use Rattle.fhir_decimal.specs.Whole.{count as count_value};
ghost use Rattle.fhir_number_keys.specs.Keys.{key_of};
ghost use Rattle.fhir_names.specs.Ids.{read_id};
ghost use Rattle.fhir_names.specs.Parents.{front_of};
ghost use Rattle.fhir_prims.specs.Values.{prim_of, lexical};
ghost use Rattle.fhir_matching.specs.Equality.{equal};
ghost use Rattle.fhir_matching.specs.Fitting.{fits};
ghost use Rattle.fhir_package.specs.Definitions.{Definitions};
ghost use Rattle.fhir_package.specs.Folder.{Files};
ghost use Rattle.fhir_package.specs.Packing.{pack};
ghost use Rattle.fhir_codes.specs.Concepts.{concept};
ghost use Rattle.fhir_codes.specs.ValueSets.{concepts_of};
ghost use Rattle.fhir_elements.specs.Element.{Element, element_of};
ghost use Rattle.fhir_definition.specs.Definition.{definition_of, definitions_from};
ghost use Rattle.fhir_definition.specs.Snapshot.{root_place};
ghost use Rattle.fhir_nodes.specs.Holders.{slots_at};
ghost use Rattle.fhir_forms.specs.Forms.{property_of};
ghost use Rattle.fhir_schema.specs.Schemas.{root, slots, criteria};
ghost use Rattle.std.specs.Str.{bytes_eq};
ghost use Rattle.fhir_instance.specs.Items.{Item, type_of};
ghost use Rattle.fhir_instance.specs.Typing.{Types};
ghost use Rattle.fhir_instance.specs.View.{item_of};
ghost use Rattle.fhir_fp_syntax.specs.Expression.{expression_of};
ghost use Rattle.fhir_fp_syntax.specs.Reading.{expression_in};
ghost use Rattle.fhir_fp_eval.specs.Meaning.{is_true};
ghost use Rattle.fhir_facets.specs.Seen.{Seen};
ghost use Rattle.fhir_facets.specs.Targets.{targets_narrower};
ghost use Rattle.fhir_facets.specs.Values.{pattern_holds};
ghost use Rattle.fhir_slicing.specs.Belonging.{belongs};
ghost use Rattle.fhir_conformance.specs.Asks.{asks};
ghost use Rattle.fhir_conformance.specs.Conformance.{Interpretation, Conforms};
ghost use Rattle.fhir_certificate.specs.Certificate.{CertificateValue};
ghost use Rattle.fhir_certificate.specs.Judging.{Stands};
ghost use Rattle.fhir_cert_check.specs.Checking.{SpellsCertificate};
ghost use Rattle.fhir_entail.specs.Entailment.{entails};
ghost use Rattle.fhir_counter.specs.Shows.{Shows};
ghost use Rattle.fhir_derive_check.specs.Reaching.{HasCertificate};
ghost use Rattle.fhir_findings.specs.Finding.{selected_unusable};
ghost use Rattle.fhir_positions.specs.Positions.{IsOfValue};
ghost use Rattle.fhir_vouching.specs.Given.{given_lines};
ghost use Rattle.fhir_unread.specs.Unread.{unread_texts};
ghost use Rattle.fhir_contradictions.specs.Listing.{contradictions};
ghost use Rattle.fhir_report.specs.Faultless.{IsRightBy, certificate_seen};
ghost use Rattle.fhir_commands.specs.Commands.{command_seen, line_command};
ghost use Rattle.fhir_archives.specs.Archives.{notes};
ghost use Rattle.fhir_archives.specs.Views.{archive_seen, note_seen};
ghost use Rattle.fhir_gather.specs.Making.{folders_of, LoadsFirst};
ghost use Rattle.fhir_gather.specs.Views.{all_dropped};
ghost use Rattle.fhir_gather_lines.specs.GatherLines.{gather_text};
ghost use Rattle.fhir_gather_lines.specs.Counted.{counts_seen};
ghost use Rattle.fhir_words.specs.Requests.{RequestValue, folder_of, request, answer};
ghost use Rattle.fhir_words.specs.Words.{plain_task};
ghost use Rattle.fhir_commands.specs.Replies.{reply_seen};
ghost use Rattle.fhir_reach.specs.Reach.{restrict};
ghost use Rattle.fhir_reach.specs.Search.{reached};
ghost use Rattle.fhir_reach.specs.Starting.{starts_of};
ghost use Rattle.fhir_replies.specs.Judging.{IsJudged};
ghost use Rattle.fhir_registry.specs.Session.{IsReply};

use fhir_archives::PackageJson;
use fhir_asking::{Asks, settle};
use fhir_candidates::{candidate, plain_code};
use fhir_cert_check::{Answer, check_bytes};
use fhir_certificate::{CertFault, NodePair, Pair};
use fhir_codes::expand;
use fhir_commands::{Command, Reply, Standing};
use fhir_conformance::{KidsByName, asks};
use fhir_counter::counterexample;
use fhir_decimal::{Decimal, Number};
use fhir_definition::Definition;
use fhir_demands::{Demand, below};
use fhir_derive_check::{DeriveFault, Outcome, derive};
use fhir_differences::{Difference, differences};
use fhir_elements::{ElementDef, ElementFault, TypeEntry};
use fhir_entail::entails;
use fhir_facets::{Facet, Pattern, narrower_holds};
use fhir_findings::Selection;
use fhir_forms::NodeForms;
use fhir_fp_eval::{Env, holds};
use fhir_fp_syntax::{Expr, Parsed, parse};
use fhir_gather::{GatherFault, Gathered, NamedFolder, gather};
use fhir_inheritance::Sources;
use fhir_instance::{Misfit, Typed, type_resource};
use fhir_json::{Json, JsonFault, NoMemory, Position};
use fhir_lines::Line;
use fhir_matching::{json_eq, matches};
use fhir_names::{ElementId, front_of};
use fhir_new_folder::NewFolder;
use fhir_nodes::{Nodes, Table};
use fhir_number_keys::push_number_key;
use fhir_overlay::{copied, laid_over};
use fhir_package::{Folder, Kind, LoadFault, Package, Silent, Survey, load};
use fhir_prims::{PrimType, lexical};
use fhir_reach::{reach, restrict, starts_of};
use fhir_registry::Registry;
use fhir_replies::judge;
use fhir_report::Subject;
use fhir_schema::{NodeRef, Schema, Slot};
use fhir_slicing::belongs;
use fhir_snapshot::{SnapFault, generate};
use fhir_targets::targets_narrower;
use fhir_validator::{Fault, validate};
use fhir_vouching::{Spelled, Vouching};
use fhir_words::{Detail, Format, Invocation, Manner, Task, WordsFault, task_of};
use std::alloc::{AllocError, Global};

/// The text of the field `url` of a JSON object, or why the bytes are no text of JSON.
pub fn url_of(alloc: Global, bytes: &[u8]) -> Result<Option<String>, JsonFault>
    ensures { IfOk result (λ url. (t : Tree) × Reads bytes.now t × (option_map string_bytes url ≡ text_in (codes "url") t)) }
{
    let tree = fhir_json::read(alloc, bytes)?;
    match tree.text_in("url") {
        Some(url) => Ok(Some(String::from_str(alloc, url)?)),
        None => Ok(None),
    }
}

/// Whether a name has an answer; if not, it needs itself.
pub fn has_answer<S: Asks>(alloc: Global, asks: &S, name: &str) -> Result<bool, NoMemory>
    ensures { IfOk result (λ done. OnFalse done (NeedsItself (S.asking asks.now) name.now)) }
{
    let mut table = fhir_asking::Table::new(alloc);
    settle(alloc, asks, &mut table, name)
}

/// The element that `over` makes of one that it is laid over.
pub fn inherited(
    alloc: Global,
    over: &ElementDef,
    under: &ElementDef,
) -> Result<ElementDef, NoMemory>
    ensures { IfOk result (λ e. e ≡ laid_over over.now under.now) }
{
    let under = copied(alloc, under)?;
    let laid = laid_over(alloc, over, under)?;
    Ok(ElementDef::new(laid))
}

/// Whether the definition of a url brings a snapshot.
pub fn is_complete(alloc: Global, package: &Package<'_>, url: &str) -> Result<bool, NoMemory>
    ensures { IfOk result (λ complete. complete ≡ option_map_or (λ s. s.written) (source_at «package».now url.now) false) }
{
    let sources = Sources::of(alloc, package)?;
    match sources.get(url) {
        Some(source) => Ok(source.is_written()),
        None => Ok(false),
    }
}

/// How many elements the snapshot of a definition has, or why it has none.
pub fn element_count(alloc: Global, package: &Package<'_>, url: &str) -> Result<usize, SnapFault>
    ensures { IfOk result (λ n. (es : List Element) × IsSnapshot «package».now url.now es × (n ≡ length es)) }
{
    let elements = generate(alloc, package, url)?;
    Ok(elements.len())
}

/// Whether two texts are decimals of one value, as `0.010` and `1e-2` are.
pub fn have_one_value(left: &str, right: &str) -> bool
    ensures { IsTrue result → (p : Parts) × (q : Parts) × IsDecimal left.now p × IsDecimal right.now q
        × IsTrue (is_same_value (value_of p) (value_of q)) }
{
    match (Decimal::of(left), Decimal::of(right)) {
        (Some(left), Some(right)) => left.eq_value(&right),
        _ => false,
    }
}

/// The id in front of an element's last segment, as `Patient.name` is of `Patient.name.given`; none where a text is no id.
pub fn parent_of(id: &str) -> Option<&str>
    ensures { option_map (λ r. r.now) result ≡ (if is_ok (read_id id.now) then front_of id.now else None) }
{
    match ElementId::parse(id) {
        Ok(_) => front_of(id),
        Err(_) => None,
    }
}

/// Whether a JSON value is one of the primitive type of a code, as `"2024-02-29"` is of `date`.
pub fn is_value_of(code: &str, value: &Json<'_>) -> bool
    ensures { result ≡ option_map_or (λ prim. lexical prim (tree_of value.now)) (prim_of code.now) false }
{
    match PrimType::of(code) {
        Some(prim) => lexical(prim, value),
        None => false,
    }
}

/// Whether a JSON value equals another, in whatever order the members stand, or has at least what the other has.
pub fn is_or_has(value: &Json<'_>, other: &Json<'_>) -> bool
    ensures { result ≡ (equal (tree_of value.now) (tree_of other.now) || fits (tree_of value.now) (tree_of other.now)) }
{
    json_eq(value, other) || matches(value, other)
}

/// How many profiles and types a folder has, or why it is no package.
pub fn count_of<F: Folder>(alloc: Global, folder: &mut F) -> Result<usize, LoadFault>
    ensures { IfOk result (λ n. (p : Definitions) × (pack (F.files folder.old) ≡ Ok p) × (n ≡ length p.structure_definitions)) }
{
    let package = load(alloc, folder)?;
    Ok(package.len(Kind::StructureDefinition))
}

/// Whether a code of a system is in the value set that a canonical names. None is in one that can't be read.
pub fn is_in(
    alloc: Global,
    from: &Package,
    canonical: &str,
    system: &str,
    code: &str,
) -> Result<bool, NoMemory>
    ensures { Gives (λ b. b) result
        (option_map_or (λ s. set.contains s (concept system.now code.now)) (concepts_of from.now canonical.now) false) }
{
    Ok(expand(alloc, from, canonical)?.contains(system, code))
}

/// How many items an element has at least, or why the tree is no element.
pub fn least_of(alloc: Global, tree: &Json<'_>) -> Result<u32, ElementFault>
    ensures { IfOk result (λ n. (e : Element) × (element_of (tree_of tree.now) ≡ Ok e) × (n ≡ option_map_or (λ min. min) e.min 0)) }
{
    let element = ElementDef::of(alloc, tree)?;
    match element.min() {
        Some(min) => Ok(min),
        None => Ok(0),
    }
}

/// The place of the root among the elements of the definition that a tree is.
pub fn root_of(alloc: Global, url: &str, tree: &Json<'_>) -> Result<Option<usize>, NoMemory>
    ensures { Gives (λ root. root) result (root_place (definition_of 0 url.now (tree_of tree.now)).elements) }
{
    let definition = Definition::of(alloc, 0, url, tree)?;
    Ok(definition.root())
}

/// Whether a text is an expression that is read here.
pub fn is_expression(alloc: Global, text: &str) -> Result<bool, NoMemory>
    ensures { Gives (λ b. b) result (is_some (expression_in text.now)) }
{
    match parse(alloc, text)? {
        Parsed::Read(_) => Ok(true),
        Parsed::Unread => Ok(false),
    }
}

/// How many names the children of a node may have, by the definitions of a package.
pub fn names_below(alloc: Global, from: &Package, node: NodeRef) -> Result<usize, NoMemory>
    ensures { IfOk result (λ n. n ≡ length (slots_at (definitions_from 0 from.now.structure_definitions) node)) }
{
    let table = Table::of(alloc, from)?;
    let nodes = Nodes::slots_of(alloc, &table)?;
    Ok(nodes.slots(node).len())
}

/// Whether a name is that of a property of a node's children.
pub fn is_property(forms: &NodeForms, node: NodeRef, name: &str) -> bool
    ensures { result ≡ is_some (property_of (get_or (get_or forms.now.forms node.definition []) node.element []) name.now) }
{
    forms.property(node, name).is_some()
}

/// The slots of a profile's root, where the profile can be used.
pub fn root_slots<'s>(schema: &'s Schema, profile: &str) -> &'s [Slot]
    ensures { result.now ≡ option_map_or (slots schema.now) (root schema.now profile.now) [] }
{
    match schema.root(profile) {
        Some(root) => schema.slots(root),
        None => Default::default(),
    }
}

/// Whether a JSON value is a patient, or why it is no resource at all.
pub fn is_patient(alloc: Global, schema: &Schema, json: &Json<'_>) -> Result<bool, Misfit>
    ensures { IfOk result (λ b. (x : Item) × Types schema.now (tree_of json.now) x
        × (b ≡ bytes_eq (type_of x) (codes "Patient"))) }
{
    let item = type_resource(alloc, schema, json)?;
    Ok(item.code() == "Patient")
}

/// Whether an expression is true of a resource as a whole.
pub fn is_true_of<'e, 'a, 'j>(
    alloc: Global,
    expr: &Expr,
    schema: &'e Schema,
    resource: &'e Typed<'a, 'j>,
) -> Result<bool, NoMemory>
    ensures { Gives (λ b. b) result (is_true (record {
      schema = schema.now;
      resource = item_of resource.now;
      context = item_of resource.now;
    }) (expression_of expr.now) (item_of resource.now)) }
{
    let env = Env {
        schema,
        resource,
        context: resource,
    };
    holds(alloc, expr, &env, resource)
}

/// Whether one pattern asks for all that another does; then what has the first has the other too.
pub fn asks_for_all(pattern: &Json<'static>, other: &Json<'static>) -> bool
    ensures { IsTrue result → (x : Seen) → IsTrue (pattern_holds (tree_of pattern.now) x)
        → IsTrue (pattern_holds (tree_of other.now) x) }
{
    narrower_holds();
    Pattern(pattern).narrower(&Pattern(other))
}

/// The key of a count. That of 20 is the key of `20.0` and of `2e1` too.
pub fn key_of_count(alloc: Global, count: usize) -> Result<String, AllocError>
    ensures { IfOk result (λ key. string_bytes key ≡ key_of (count_value count)) }
{
    let mut key = String::new(alloc);
    push_number_key(alloc, &mut key, &Number::Count(count))?;
    Ok(key)
}

/// Whether references of a type entry may lead wherever those of another may.
pub fn leads_as_far(
    alloc: Global,
    schema: &Schema,
    entry: &TypeEntry,
    other: &TypeEntry,
) -> Result<bool, NoMemory>
    ensures { Gives (λ b. b) result (targets_narrower schema.now other.now entry.now) }
{
    targets_narrower(alloc, schema, other, entry)
}

/// Whether an item belongs to the slice that a node is.
pub fn is_in_slice(schema: &Schema, slice: NodeRef, item: &Typed<'_, '_>) -> bool
    ensures { result ≡ belongs schema.now (criteria schema.now slice) (item_of item.now) }
{
    belongs(schema, schema.criteria(slice), item)
}

/// How many things a node asks of an item.
pub fn count_asks(
    alloc: Global,
    schema: &Schema,
    item: &Typed<'_, '_>,
    node: NodeRef,
) -> Result<usize, NoMemory>
    ensures { Gives (λ n. n) result (length (asks schema.now (item_of item.now) node)) }
{
    let kids_by_name = KidsByName::of(alloc, item)?;
    let asked = asks(alloc, schema, item, &kids_by_name, node)?;
    Ok(asked.len())
}

/// Whether a resource conforms to a profile, whatever unread rules mean.
pub fn is_valid(alloc: Global, schema: &Schema, profile: &str, bytes: &[u8]) -> Result<bool, Fault>
    ensures { (t : Tree) → Reads bytes.now t → IfOk result (λ valid.
        IsTrue valid → (meaning : Interpretation) → Conforms schema.now meaning profile.now t) }
{
    let verdict = validate(alloc, schema, profile, bytes)?;
    Ok(verdict.is_conforming())
}

/// How many pairs of items a certificate has, or why the bytes are none.
pub fn items_in(alloc: Global, schema: &Schema, bytes: &[u8]) -> Result<usize, CertFault>
    ensures { IfOk result (λ n. (c : CertificateValue) × Stands schema.now bytes.now c × (n ≡ length c.items)) }
{
    let certificate = fhir_certificate::read(alloc, schema, bytes)?;
    Ok(certificate.items.len())
}

/// Whether bytes are a right certificate, or why they are none.
pub fn is_right(alloc: Global, schema: &Schema, bytes: &[u8]) -> Result<bool, CertFault>
    ensures { IfOk result (λ yes. IsTrue yes ↔ SpellsCertificate schema.now bytes.now) }
{
    match check_bytes(alloc, schema, bytes)? {
        Answer::Yes => Ok(true),
        Answer::No(_, _) => Ok(false),
    }
}

/// Whether one expression that is true makes another true.
pub fn one_entails(known: &Expr, expression: &Expr) -> bool
    ensures { result ≡ entails (expression_of known.now ∷ []) (expression_of expression.now) }
{
    entails(&[known], expression)
}

/// Whether there is a certificate for two profiles.
pub fn has_certificate(
    alloc: Global,
    schema: &Schema,
    derived: &str,
    base: &str,
) -> Result<bool, DeriveFault>
    ensures { IfOk result (λ yes. IsTrue yes ↔ HasCertificate schema.now derived.now base.now) }
{
    match derive(alloc, schema, derived, base)? {
        Outcome::Derives(_) => Ok(true),
        Outcome::NoCertificate(_, _) => Ok(false),
    }
}

/// In how many places two profiles may differ, of which a pair fails.
pub fn difference_count(
    alloc: Global,
    schema: &Schema,
    roots: NodePair,
    pair: Pair,
) -> Result<usize, NoMemory> {
    Ok(differences(alloc, schema, roots, pair)?.len())
}

/// How many things each child of a name is asked for, by what its parent is.
pub fn demand_count<'s>(
    alloc: Global,
    schema: &'s Schema,
    demands: &[Demand<'s>],
    name: &str,
) -> Result<usize, NoMemory> {
    Ok(below(alloc, schema, demands, name)?.len())
}

/// Whether a resource is made of a profile, by its root, with a change at some place.
pub fn has_candidate<'s>(
    alloc: Global,
    schema: &'s Schema,
    root: NodeRef,
    difference: &Difference<'s>,
) -> Result<bool, NoMemory> {
    Ok(candidate(alloc, schema, root, plain_code(schema), difference)?.is_some())
}

/// A resource that shows that a profile doesn't narrow its base, if one is found where no certificate exists.
pub fn refutation(
    alloc: Global,
    schema: &Schema,
    derived: &str,
    base: &str,
) -> Result<Option<Vec<u8>>, NoMemory>
    ensures { IfOk result (λ found. IfSome found (λ bytes. Shows schema.now derived.now base.now bytes.items)) }
{
    match derive(alloc, schema, derived, base) {
        Ok(Outcome::NoCertificate(pair, _)) => counterexample(alloc, schema, derived, base, pair),
        Err(DeriveFault::NoMemory) => Err(NoMemory),
        _ => Ok(None),
    }
}

/// Whether nothing is wrong with files, and each of their definitions that is selected can be used.
pub fn are_usable<'r>(
    alloc: Global,
    survey: &'r Survey<'r>,
    schema: &'r Schema,
    selection: &Selection,
) -> Result<bool, NoMemory>
    ensures { IfOk result (λ all. IsTrue all
        → (survey.now.faults ≡ []) × (selected_unusable selection.now schema.now survey.now ≡ [])) }
{
    let found = fhir_findings::findings(alloc, survey, schema, selection)?;
    Ok(!fhir_findings::has_faults(&found))
}

/// Where a patient's names and birth date begin in the bytes of the patient: each at one of the values that the bytes spell.
pub fn patient_positions(
    alloc: Global,
    schema: &Schema,
    bytes: &[u8],
) -> Result<Vec<Position>, NoMemory>
    ensures { IfOk result (λ all. (t : Tree) → Reads bytes.now t → All (IsOfValue bytes.now t) all.items) }
{
    fhir_positions::positions_of(alloc, schema, bytes, &["Patient.name", "Patient.birthDate"])
}

/// The list of the unread rules of all definitions, by the survey of their files and their schema.
pub fn list_all(alloc: Global, survey: &Survey<'_>, schema: &Schema) -> Result<String, NoMemory>
    ensures { IfOk result (λ t. map (λ l. l.1) (given_lines (string_bytes t))
        ≡ map (λ text. Some text) (unread_texts None schema.now survey.now)) }
{
    fhir_unread::unread_listing(alloc, survey, schema, &Selection::all())
}

/// Whether no element of the definition at a place asks for what can never hold.
pub fn is_consistent(alloc: Global, schema: &Schema, place: usize) -> Result<bool, NoMemory>
    ensures { IfOk result (λ is. IsTrue is ↔ (contradictions schema.now place ≡ [])) }
{
    let regular = fhir_contradictions::are_regular(schema);
    Ok(fhir_contradictions::contradictions(alloc, schema, regular, place)?.is_empty())
}

/// Whether nothing is wrong with the files of a subject, and each of its definitions that is selected can be used.
pub fn is_clean<'s, 'f: 's>(alloc: Global, subject: Subject<'s, 'f>) -> Result<bool, NoMemory>
    ensures { IfOk result (λ is_clean. IsTrue is_clean → IsRightBy subject.entry.selection.now subject.entry.schema.now
        subject.entry.survey.now (certificate_seen subject.entry.certificate)) }
{
    let manner = Manner {
        format: Format::Text,
        detail: Detail::Once,
    };
    let report = fhir_report::report_on(alloc, manner, subject)?;
    Ok(report.is_clean)
}

/// Whether the bytes of a line are a command.
pub fn is_command(alloc: Global, line: &[u8]) -> Result<bool, NoMemory>
    ensures { IfOk result (λ is_one. is_one ≡ is_some (line_command line.now)) }
{
    let command = Command::of_line(alloc, line)?;
    Ok(command.is_some())
}

/// The definitions on which the validation of a resource may rest.
pub fn definitions_under(
    alloc: Global,
    package: &Package<'_>,
    profile: &str,
    resource: &Json<'_>,
) -> Result<Package<'static>, NoMemory>
    ensures { IfOk result (λ p. p ≡ restrict «package».now (reached «package».now (starts_of profile.now (tree_of resource.now)))) }
{
    let start = starts_of(alloc, profile, resource)?;
    let keys = reach(alloc, package, &start)?;
    restrict(alloc, package, &keys)
}

/// How a resource stands with a profile.
pub fn standing(
    alloc: Global,
    schema: &Schema,
    profile: &str,
    bytes: &[u8],
) -> Result<Standing, NoMemory>
    ensures { IfOk result (λ standing. (outcome : Tree) × IsJudged schema.now profile.now bytes.now standing outcome) }
{
    let (standing, _) = judge(alloc, schema, profile, bytes)?;
    Ok(standing)
}

/// The reply to a command about a package.
pub fn reply_to(
    alloc: Global,
    package: Package<'_>,
    command: Command<'_>,
) -> Result<Reply, NoMemory>
    ensures { IfOk result (λ r. IsReply «package».entry (command_seen command.entry) (reply_seen r)) }
{
    match Registry::new(alloc, package) {
        Ok(mut registry) => registry.apply(alloc, command),
        Err(_) => Err(NoMemory),
    }
}

/// The folder that is asked about, if words ask for an answer to a request.
pub fn folder_asked<'w>(alloc: Global, words: &'w [String]) -> Result<Option<&'w str>, WordsFault>
    ensures { (q : RequestValue) → plain_task (map string_bytes words.now) ≡ Some (answer (request q))
        → IfOk result (λ folder. text_seen folder ≡ Some (folder_of q)) }
{
    match task_of(alloc, words)? {
        Task::Answer(Invocation::Request(request)) => Ok(Some(request.folder())),
        _ => Ok(None),
    }
}

/// A line on a file, as a text.
pub fn line_on(alloc: Global, file: &str, text: String) -> Result<String, NoMemory>
    ensures { Gives string_bytes result (file.now ++ codes ": " ++ string_bytes text) }
{
    Line::of_file(file, None, text).to_text(alloc)
}

/// Whether a folder of one file is made. Where it isn't, what stands under its name is as before.
pub fn is_made<N: NewFolder>(folder: &mut N, name: &str, bytes: &[u8]) -> bool
    ensures { N.whole folder.new ≡ (if result then Some ((name.now, bytes.now) ∷ []) else N.whole folder.old) }
{
    if folder.begin().is_err() {
        return false;
    }
    if folder.write(name, bytes).is_ok() && folder.finish().is_ok() {
        return true;
    }
    let _ = folder.abandon();
    false
}

/// Whether there is nothing to note of archives: each has a name, and what it depends on is among them.
pub fn are_complete(alloc: Global, archives: &[PackageJson<'_, '_>]) -> Result<bool, NoMemory>
    ensures { IfOk result (λ yes. IsTrue yes ↔ (notes (map archive_seen archives.now) ≡ [])) }
{
    Ok(fhir_archives::notes(alloc, archives)?.is_empty())
}

/// Gathers folders into a new one, and says how many definitions are left out, since one of their kind and url comes before them. The
/// new folder loads, and has of each kind and url the first definition that stands in the folders; or it isn't made.
pub fn count_left_out<F: Folder + Drop, N: NewFolder>(
    alloc: Global,
    folders: Vec<NamedFolder<F>>,
    out: &mut N,
) -> Result<usize, GatherFault>
    ensures loads { OnOk result (LoadsFirst (folders_of F.files folders.items) (N.whole out.new)) }
    ensures nothing { OnErr result (N.whole out.new ≡ N.whole out.old) }
{
    let gathered = gather(alloc, folders, out, &mut Silent)?;
    match out.finish() {
        Ok(()) => Ok(gathered.dropped.len()),
        Err(_) => Err(GatherFault::Unwritten { name: None }),
    }
}

/// What is printed where each definition is told that isn't kept.
pub fn whole_text(alloc: Global, gathered: &Gathered) -> Result<String, NoMemory>
    ensures { IfOk result (λ text. string_bytes text ≡ gather_text Detail.Each (counts_seen gathered.now)
        (all_dropped gathered.now.dropped.items) (map note_seen gathered.now.notes.items)) }
{
    fhir_gather_lines::gather_text(alloc, Detail::Each, gathered)
}

/// Whether what a thing spells is one of these texts.
pub fn is_given<T: Spelled>(texts: Vec<String>, thing: &T) -> bool
    ensures { result ≡ list_any (bytes_eq (T.spelled thing.now)) (map string_bytes texts.items) }
{
    Vouching::of(texts).contains(thing)
}
