//! What is said of a validation, as an OperationOutcome.

ghost use Rattle.std.specs.Prelude.{◌≡◌, ◌<◌, ◌+◌, ◌++◌, [], Some, Err, length, map, codes, All, IfOk, OnOk, IsTrue, if◌then◌else◌, option_map, string_bytes};
ghost use Rattle.std.specs.BTreeSet.{btree_set_len};
ghost use Rattle.fhir_json.specs.Tree.{Text, string, array, object, items_of, members_of};
ghost use Rattle.fhir_json.specs.Fields.{text_in, items_in};
ghost use Rattle.fhir_json.specs.Views.{tree_of, property_of, trees_of};
ghost use Rattle.fhir_validator.specs.declared.fault.Fault.TheVariants as faults;
ghost use Rattle.fhir_replies.specs.Outcomes.{expression_members, issue_tree, severity_of, HasSeverity, IsOutcome, is_explained, severity_given, is_explained_as_given};

use fhir_instance::{Misfit, MisfitKind};
use fhir_json::{Json, Member, NoMemory, write};
use fhir_validator::{Breach, BrokenRule, Fault, Issue, Site, Verdict, Vouched};
use std::alloc::{AllocError, Global};
use std::borrow::CowStr;
use std::collections::BTreeSet;

/// What an issue says: one of `OperationOutcome.issue` (FHIR R4, OperationOutcome).
#[derive(Drop)]
pub struct OutcomeIssue {
    /// How severe it is, by its code.
    pub severity: &'static str,
    /// Its kind, by its code.
    pub code: &'static str,
    /// What is said.
    pub diagnostics: String,
    /// Where, as a path, if that is said.
    pub expression: Option<String>,
}

fn member(name: &'static str, value: Json<'static>) -> Member<'static>
    ensures { property_of result ≡ (name.now, tree_of value.entry) }
{
    Member {
        name: CowStr::Borrowed(name),
        value,
    }
}

fn word(text: &'static str) -> Json<'static>
    ensures { tree_of result ≡ string text.now }
{
    Json::Str(CowStr::Borrowed(text))
}

fn text(text: String) -> Json<'static>
    ensures { tree_of result ≡ string (string_bytes text) }
{
    Json::Str(CowStr::Owned(text))
}

fn array(items: Vec<Json<'static>>) -> Json<'static>
    ensures { tree_of result ≡ array (items_of (trees_of items.entry.items)) }
{
    Json::Arr(items)
}

fn object(members: Vec<Member<'static>>) -> Json<'static>
    ensures { tree_of result ≡ object (members_of (map property_of members.entry.items)) }
{
    Json::Obj(members)
}

// Puts in where it is, if that is said.
fn push_expression(
    alloc: Global,
    expression: Option<String>,
    members: &mut Vec<Member<'static>>,
) -> Result<(), AllocError>
    ensures { OnOk result (map property_of members.new.items
        ≡ map property_of members.old.items ++ expression_members (option_map string_bytes expression)) }
{
    if let Some(place) = expression {
        let places = vec![in alloc; text(place)]?;
        members.push(member("expression", array(places)))?;
    }
    Ok(())
}

impl OutcomeIssue {
    /// The issue as a tree. The one refusal is want of memory.
    pub fn into_json(self, alloc: Global) -> Result<Json<'static>, AllocError>
        ensures tree { IfOk result (λ json. tree_of json
            ≡ issue_tree self.severity.now self.code.now (string_bytes self.diagnostics) (option_map string_bytes self.expression)) }
        ensures severity { IfOk result (λ json. HasSeverity self.severity.now (tree_of json)) }
    {
        let OutcomeIssue {
            severity,
            code,
            diagnostics,
            expression,
        } = self;
        let mut members = Vec::with_capacity(alloc, 4)?;
        members.push(member("severity", word(severity)))?;
        members.push(member("code", word(code)))?;
        members.push(member("diagnostics", text(diagnostics)))?;
        push_expression(alloc, expression, &mut members)?;
        Ok(object(members))
    }
}

fn conforming_issue(alloc: Global) -> Result<OutcomeIssue, AllocError>
    ensures { IfOk result (λ issue. issue.severity.now ≡ codes "information") }
{
    Ok(OutcomeIssue {
        severity: "information",
        code: "informational",
        diagnostics: String::from_str(alloc, "conforms")?,
        expression: None,
    })
}

fn misfit_code(kind: MisfitKind) -> &'static str {
    match kind {
        MisfitKind::WrongValue => "value",
        _ => "structure",
    }
}

fn misfit_issue(alloc: Global, misfit: &Misfit) -> Result<OutcomeIssue, AllocError>
    ensures { IfOk result (λ issue. issue.severity.now ≡ codes "error") }
{
    let expression = match &misfit.place {
        Some(place) => Some(String::from_str(alloc, place.as_str())?),
        None => None,
    };
    Ok(OutcomeIssue {
        severity: "error",
        code: misfit_code(misfit.kind),
        diagnostics: format!(in alloc; "{}", misfit.kind)?,
        expression,
    })
}

fn rule_code(rule: &BrokenRule<'_>) -> &'static str {
    match rule {
        BrokenRule::RootType(_)
        | BrokenRule::Types
        | BrokenRule::TooMany { .. }
        | BrokenRule::InSlices(_, _)
        | BrokenRule::InNoSlice
        | BrokenRule::After(_, _)
        | BrokenRule::AfterRest(_) => "structure",
        BrokenRule::Fixed | BrokenRule::Pattern | BrokenRule::Range | BrokenRule::Length => "value",
        BrokenRule::Binding(_) => "code-invalid",
        BrokenRule::TooFew { .. } => "required",
        BrokenRule::Constraint(_) => "invariant",
    }
}

fn breach_issue(alloc: Global, breach: &Breach<'_>) -> Result<OutcomeIssue, AllocError>
    ensures { IfOk result (λ issue. issue.severity.now ≡ codes "error") }
{
    Ok(OutcomeIssue {
        severity: "error",
        code: rule_code(&breach.rule),
        diagnostics: format!(in alloc; "{} ({}#{})", breach.rule, breach.url, breach.id)?,
        expression: Some(format!(in alloc; "{}", breach.place)?),
    })
}

fn outcome_issue(alloc: Global, issue: &Issue<'_>) -> Result<OutcomeIssue, AllocError>
    ensures { IfOk result (λ issue. issue.severity.now ≡ codes "error") }
{
    match issue {
        Issue::Misfit(misfit) => misfit_issue(alloc, misfit),
        Issue::Broken(breach) => breach_issue(alloc, breach),
    }
}

fn site_issue(alloc: Global, site: &Site<'_>) -> Result<OutcomeIssue, AllocError>
    ensures { IfOk result (λ issue. issue.severity.now ≡ codes "warning") }
{
    Ok(OutcomeIssue {
        severity: "warning",
        code: "not-supported",
        diagnostics: format!(in alloc; "unread {} ({}#{})", site.unread, site.url, site.id)?,
        expression: Some(format!(in alloc; "{}", site.place)?),
    })
}

// A given rule on which it rests that a resource conforms.
fn relied_issue(alloc: Global, site: &Site<'_>) -> Result<OutcomeIssue, AllocError>
    ensures { IfOk result (λ issue. issue.severity.now ≡ codes "information") }
{
    Ok(OutcomeIssue {
        severity: "information",
        code: "informational",
        diagnostics: format!(in alloc; "given {} ({}#{})", site.unread, site.url, site.id)?,
        expression: Some(format!(in alloc; "{}", site.place)?),
    })
}

fn fatal_issue(code: &'static str, diagnostics: String) -> OutcomeIssue
    ensures { result.severity.now ≡ codes "fatal" }
{
    OutcomeIssue {
        severity: "fatal",
        code,
        diagnostics,
        expression: None,
    }
}

fn fault_issue(alloc: Global, profile: &str, fault: Fault) -> Result<OutcomeIssue, NoMemory>
    ensures severity { IfOk result (λ issue. issue.severity.now ≡ codes "fatal") }
    ensures memory { IfOk result (λ issue. fault ≡ faults.NoMemory → ⊥) }
{
    match fault {
        Fault::Missing => Ok(fatal_issue("not-found", format!(in alloc; "V1 {profile}")?)),
        Fault::Unusable(reason) => Ok(fatal_issue(
            "not-supported",
            format!(in alloc; "V2 {profile} {reason}")?,
        )),
        Fault::NotJson(fault) => Ok(fatal_issue("structure", format!(in alloc; "V3 {fault}")?)),
        Fault::NoMemory => Err(NoMemory),
    }
}

// The issues of an outcome, each once, and the texts of those.
#[derive(Drop)]
struct Issues {
    texts: BTreeSet<Vec<u8>>,
    issues: Vec<Json<'static>>,
}

// Puts in a text, and says whether it wasn't there.
fn is_new(texts: &mut BTreeSet<Vec<u8>>, text: Vec<u8>) -> Result<bool, NoMemory>
    ensures counted { IfOk result (λ added. btree_set_len texts.new ≡ btree_set_len texts.old + (if added then 1 else 0)) }
    ensures some { OnOk result (0 < btree_set_len texts.new) }
{
    Ok(texts.insert(text)?)
}

impl Issues {
    fn new(alloc: Global) -> Issues
        ensures kept { btree_set_len result.texts ≡ length result.issues.items }
        ensures none { result.issues.items ≡ [] }
    {
        Issues {
            texts: BTreeSet::new(alloc),
            issues: Vec::new(alloc),
        }
    }

    // Puts an issue behind the others, if it isn't among them.
    fn add(&mut self, alloc: Global, issue: OutcomeIssue) -> Result<(), NoMemory>
        ensures kept { btree_set_len self.old.texts ≡ length self.old.issues.items
            → OnOk result (btree_set_len self.new.texts ≡ length self.new.issues.items) }
        ensures some { OnOk result (0 < btree_set_len self.new.texts) }
        ensures severity { All (HasSeverity issue.severity.now) (trees_of self.old.issues.items)
            → OnOk result (All (HasSeverity issue.severity.now) (trees_of self.new.issues.items)) }
    {
        let json = issue.into_json(alloc)?;
        let text = write(alloc, &json)?;
        if is_new(&mut self.texts, text)? {
            Ok(self.issues.push(json)?)
        } else {
            Ok(())
        }
    }
}

fn one(alloc: Global, issue: OutcomeIssue) -> Result<Vec<Json<'static>>, NoMemory>
    ensures some { IfOk result (λ all. 0 < length all.items) }
    ensures severity { IfOk result (λ all. All (HasSeverity issue.severity.now) (trees_of all.items)) }
{
    let json = issue.into_json(alloc)?;
    Ok(vec![in alloc; json]?)
}

#[tactic(auto, using(crate::proofs::Items::none_issued))]
fn violations(alloc: Global, issues: &Vec<Issue<'_>>) -> Result<Vec<Json<'static>>, NoMemory>
    ensures some { IfOk result (λ all. 0 < length issues.now.items → 0 < length all.items) }
    ensures severity { IfOk result (λ all. All (HasSeverity (codes "error")) (trees_of all.items)) }
{
    let mut all = Issues::new(alloc);
    for issue in issues {
        all.add(alloc, outcome_issue(alloc, issue)?)?;
    }
    Ok(all.issues)
}

#[tactic(auto, using(crate::proofs::Items::none_issued))]
fn warnings(alloc: Global, sites: &Vec<Site<'_>>) -> Result<Vec<Json<'static>>, NoMemory>
    ensures some { IfOk result (λ all. 0 < length sites.now.items → 0 < length all.items) }
    ensures severity { IfOk result (λ all. All (HasSeverity (codes "warning")) (trees_of all.items)) }
{
    let mut all = Issues::new(alloc);
    for site in sites {
        all.add(alloc, site_issue(alloc, site)?)?;
    }
    Ok(all.issues)
}

// That a resource conforms, and the given rules on which that rests.
#[tactic(auto, using(crate::proofs::Items::none_issued))]
fn grounds(alloc: Global, relied: &Vec<Site<'_>>) -> Result<Vec<Json<'static>>, NoMemory>
    ensures some { IfOk result (λ all. 0 < length all.items) }
    ensures severity { IfOk result (λ all. All (HasSeverity (codes "information")) (trees_of all.items)) }
{
    let mut all = Issues::new(alloc);
    all.add(alloc, conforming_issue(alloc)?)?;
    for site in relied {
        all.add(alloc, relied_issue(alloc, site)?)?;
    }
    Ok(all.issues)
}

fn issues_of(
    alloc: Global,
    profile: &str,
    validated: &Result<Verdict<'_>, Fault>,
) -> Result<Vec<Json<'static>>, NoMemory>
    ensures some { IsTrue (is_explained validated.now) → IfOk result (λ all. 0 < length all.items) }
    ensures severity { IfOk result (λ all. All (HasSeverity (severity_of validated.now)) (trees_of all.items)) }
    ensures memory { IfOk result (λ all. validated.now ≡ Err faults.NoMemory → ⊥) }
{
    match validated {
        Ok(Verdict::Conforms) => one(alloc, conforming_issue(alloc)?),
        Ok(Verdict::Violates(issues)) => violations(alloc, issues),
        Ok(Verdict::Open(sites)) => warnings(alloc, sites),
        Err(fault) => one(alloc, fault_issue(alloc, profile, *fault)?),
    }
}

/// The OperationOutcome of these issues. The one refusal is want of memory.
pub fn outcome_of(alloc: Global, issues: Vec<Json<'static>>) -> Result<Json<'static>, AllocError>
    ensures resource { IfOk result (λ json. text_in (codes "resourceType") (tree_of json) ≡ Some (codes "OperationOutcome")) }
    ensures issues { IfOk result (λ json. items_in (codes "issue") (tree_of json) ≡ trees_of issues.entry.items) }
{
    let kind = member("resourceType", word("OperationOutcome"));
    let issues = member("issue", array(issues));
    Ok(object(vec![in alloc; kind, issues]?))
}

/// The OperationOutcome (FHIR R4) of what was answered on a resource and the profile at a url: its issues in their order, each
/// once, and as severe as the answer. It takes time near linear in their number. The one refusal is want of memory, also where
/// the answer is that.
pub fn outcome(
    alloc: Global,
    profile: &str,
    validated: &Result<Verdict<'_>, Fault>,
) -> Result<Json<'static>, NoMemory>
    ensures outcome { IsTrue (is_explained validated.now) → IfOk result (λ json. IsOutcome (severity_of validated.now) (tree_of json)) }
    ensures memory { IfOk result (λ json. validated.now ≡ Err faults.NoMemory → ⊥) }
{
    let issues = issues_of(alloc, profile, validated)?;
    Ok(outcome_of(alloc, issues)?)
}

fn issues_given(
    alloc: Global,
    profile: &str,
    validated: &Result<Vouched<'_>, Fault>,
) -> Result<Vec<Json<'static>>, NoMemory>
    ensures some { IsTrue (is_explained_as_given validated.now) → IfOk result (λ all. 0 < length all.items) }
    ensures severity { IfOk result (λ all. All (HasSeverity (severity_given validated.now)) (trees_of all.items)) }
    ensures memory { IfOk result (λ all. validated.now ≡ Err faults.NoMemory → ⊥) }
{
    match validated {
        Ok(Vouched::Conforms(relied)) => grounds(alloc, relied),
        Ok(Vouched::Violates(issues)) => violations(alloc, issues),
        Ok(Vouched::Open(sites)) => warnings(alloc, sites),
        Err(fault) => one(alloc, fault_issue(alloc, profile, *fault)?),
    }
}

/// The same where a user vouches for unread rules. Where the resource conforms as the given ones hold, each of those on which that
/// rests is told: `given`, its text, and the url and the id of its element, at its place.
pub fn outcome_given(
    alloc: Global,
    profile: &str,
    validated: &Result<Vouched<'_>, Fault>,
) -> Result<Json<'static>, NoMemory>
    ensures outcome { IsTrue (is_explained_as_given validated.now) → IfOk result (λ json. IsOutcome (severity_given validated.now) (tree_of json)) }
    ensures memory { IfOk result (λ json. validated.now ≡ Err faults.NoMemory → ⊥) }
{
    let issues = issues_given(alloc, profile, validated)?;
    Ok(outcome_of(alloc, issues)?)
}
