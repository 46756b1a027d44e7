//! What is held between two answers, and what it answers.

ghost use Rattle.std.specs.Prelude.{◌≡◌, ◌↔◌, [], None, Some, Err, IfOk, IfErr, IsSome, IsUtf8, map, get_or, codes, string_bytes};
ghost use Rattle.fhir_json.specs.Views.{text_seen};
ghost use Rattle.fhir_package.specs.Surveying.{refusal};
ghost use Rattle.fhir_package.specs.SurveyView.{fault_seen};
ghost use Rattle.fhir_report.specs.Faultless.{certificate_seen};
ghost use Rattle.fhir_unread.specs.Given.{texts_given, AreSame, notes};
ghost use Rattle.fhir_unread.specs.Listing.{listing};
ghost use Rattle.fhir_unread.specs.Unread.{unread_texts};
ghost use Rattle.fhir_answers.specs.Answering.{IsReported, IsReply, stated, listed, between, countered, package_answer, certify_answer, migrate_answer, validate_answer, given_answer, counter_given_answer, report_answer, check_answer, unread_reply, answer_of, answer_by};
ghost use Rattle.fhir_answers.specs.Promising.{Certified, Migrated, Validated, ValidatedAsGiven, CanBeListed, Listed, Derived, AreRight, CheckedOf, Checked, PromisedOf, SessionPromise};
ghost use Rattle.fhir_answers.specs.Replying.{reply_seen, status_of, fault_reply, refused_reply};
ghost use Rattle.fhir_answers.specs.Session.{IsCompleted, IsSessionOf, schema_in};
ghost use Rattle.fhir_answers.specs.Status.{report_status};
ghost use Rattle.fhir_answers.specs.Views.{bytes_seen, files_seen};
ghost use Rattle.fhir_words.specs.Views.{request_seen};

use crate::answering::{certify, list_snapshot, validate_file};
use crate::counter_reply::{counter_between, counter_given};
use crate::derive_reply::derive_between;
use crate::given::{NamedFile, file_at, list_unread, validate_given};
use crate::migrate_reply::migrate_file;
use crate::reply::{Reply, Status, fault_reply, unreadable_reply};
use fhir_findings::{SelectFault, Selection, selected_usable};
use fhir_json::NoMemory;
use fhir_package::{FileFault, FolderFiles, Package, Progress, Stage, Survey};
use fhir_report::{CertificateFile, LackingTable, Subject, report_on};
use fhir_schema::Schema;
use fhir_snapshot::complete;
use fhir_unread::{Given, unread_listing, vouch};
use fhir_vouching::GivenFault;
use fhir_words::{Manner, Request};
use std::alloc::{AllocError, Global};
use std::marker::Model;

/// What is held between two answers: the survey of a folder's files, with the package of all that is right completed, and the schema
/// of that package.
pub struct Session<'f> {
    survey: Survey<'f>,
    lacking: LackingTable,
    schema: Schema,
    files: usize,
}

// A derived drop would be proved anew in each crate that owns one.
impl Drop for Session<'_> {
    fn drop(self) {
        let Session {
            survey: _survey,
            lacking: _lacking,
            schema: _schema,
            files: _files,
        } = self;
    }
}

impl<'f> Model for Session<'f> {
    ghost use Rattle.fhir_answers.specs.Session.{SessionValue};

    ghost Value = { SessionValue };

    ghost use Rattle.fhir_json.specs.Coding.{tree_code};
    ghost use Rattle.std.specs.Coded.{codes};

    ghost coded = { Prim.hlevel (codes, tree_code) };

    ghost use Rattle.std.specs.Prelude.{◌≡◌};
    ghost use Rattle.fhir_schema.specs.Schemas.{schema_of};

    ghost view = { λ s. record { survey = s.survey; lacking = s.lacking; files = s.files } };

    ghost invariant = { λ s. s.schema ≡ schema_of s.survey.definitions };
}

/// What is answered where files are no package, by the fault for which they are none. The one refusal is want of memory.
pub fn refused_reply(alloc: Global, fault: &FileFault<'_>) -> Result<Reply, AllocError>
    ensures { IfOk result (λ r. reply_seen r ≡ refused_reply (fault_seen fault.now)) }
{
    fault_reply(alloc, fault.number(), fault.subject())
}

// The survey of files, with its package completed, and the definitions that have no snapshot.
fn completed<'f, P: Progress>(
    alloc: Global,
    files: &'f FolderFiles,
    progress: &mut P,
) -> Result<(Survey<'f>, LackingTable), NoMemory>
    ensures { IfOk result (λ r. IsCompleted files.now r.0 r.1) }
{
    let mut survey = Survey::of(alloc, files, progress)?;
    let mut definitions = survey.replace_package(Package::new(alloc));
    let faults = complete(alloc, &mut definitions)?;
    let _none = survey.replace_package(definitions);
    let lacking = LackingTable::of(alloc, faults)?;
    Ok((survey, lacking))
}

// That no url begins with the prefix at a place.
fn only_reply(alloc: Global, prefixes: &[String], place: usize) -> Result<Reply, NoMemory>
    ensures { IfOk result (λ r. reply_seen r ≡ fault_reply (codes "only") (get_or (map string_bytes prefixes.now) place [])) }
{
    let prefix = match prefixes.get(place) {
        Some(prefix) => prefix.as_str(),
        None => "",
    };
    Ok(fault_reply(alloc, "only", prefix)?)
}

fn report_status(is_clean: bool) -> Status
    ensures { result ≡ report_status is_clean }
{
    if is_clean { Status::Yes } else { Status::No }
}

impl<'f> Session<'f> {
    /// That of a folder's files. How far the work is, is told to `progress`. The one refusal is want of memory.
    pub fn of<P: Progress>(
        alloc: Global,
        files: &'f FolderFiles,
        progress: &mut P,
    ) -> Result<Session<'f>, NoMemory>
        ensures { IfOk result (λ s. IsSessionOf files.now s) }
    {
        let (survey, lacking) = completed(alloc, files, progress)?;
        let schema = Schema::build(alloc, survey.package())?;
        let files = files.files().len();
        progress.tell(Stage::Surveying, files, files);
        Ok(Session {
            survey,
            lacking,
            schema,
            files,
        })
    }

    /// The schema of the package of all that is right, completed.
    pub fn schema(&self) -> &Schema
        ensures { result.now ≡ schema_in self.now }
    {
        &self.schema
    }

    /// The schema of the package that the files are, or the fault for which they are none.
    pub fn package(&self) -> Result<&Schema, &FileFault<'f>>
        ensures found { IfOk result (λ s. (refusal self.now.survey ≡ None) × (s.now ≡ schema_in self.now)) }
        ensures refused { IfErr result (λ fault. refusal self.now.survey ≡ Some (fault_seen fault.now)) }
    {
        match self.survey.refusal() {
            Some(fault) => Err(fault),
            None => Ok(&self.schema),
        }
    }

    /// What is answered to a request, of the bytes of the files that it names, in their order; of one that can't be read there are
    /// none. The one refusal is want of memory.
    pub fn answer(
        &self,
        alloc: Global,
        request: &Request<'_>,
        files: &[Option<Vec<u8>>],
    ) -> Result<Reply, NoMemory>
        ensures told { IfOk result (λ r. IsReply (answer_by (request_seen request.now) self.now (files_seen files.now)) (reply_seen r)) }
        ensures promised { IfOk result (λ r. status_of (reply_seen r) ≡ 0
            → SessionPromise (request_seen request.now) self.now (files_seen files.now)) }
    {
        let first = file_at(files, 0);
        let second = file_at(files, 1);
        self.answer_of(alloc, request, first, second)
    }

    // By the bytes of the first and of the second file that is asked about.
    fn answer_of(
        &self,
        alloc: Global,
        request: &Request<'_>,
        first: Option<&[u8]>,
        second: Option<&[u8]>,
    ) -> Result<Reply, NoMemory>
        ensures told { IfOk result (λ r. IsReply
            (answer_of (request_seen request.now) self.now (bytes_seen first.entry) (bytes_seen second.entry)) (reply_seen r)) }
        ensures promised { IfOk result (λ r. status_of (reply_seen r) ≡ 0 → (self.now.survey.faults ≡ [])
            × PromisedOf (request_seen request.now) self.now.survey.definitions (bytes_seen first.entry) (bytes_seen second.entry)) }
    {
        match request {
            Request::Certify { file, .. } => self.certify(alloc, *file, first),
            Request::Migrate { file, .. } => self.migrate(alloc, *file, first),
            Request::Validate { profile, file, .. } => {
                self.validate(alloc, *profile, *file, first)
            }
            Request::ValidateGiven {
                profile,
                file,
                given,
                ..
            } => self.validate_given(alloc, *profile, *file, first, *given, second),
            Request::Snapshot { url, .. } => self.snapshot(alloc, *url),
            Request::Derive { derived, base, .. } => self.derive(alloc, *derived, *base),
            Request::Counter { derived, base, .. } => self.counter(alloc, *derived, *base),
            Request::CounterGiven {
                derived,
                base,
                given,
                ..
            } => self.counter_given(alloc, *derived, *base, *given, first),
            Request::Check {
                certificate,
                prefixes,
                manner,
                ..
            } => self.check(alloc, *manner, prefixes, *certificate, first),
            Request::Unread { profile, .. } => self.unread(alloc, *profile),
        }
    }

    fn certify(&self, alloc: Global, name: &str, file: Option<&[u8]>) -> Result<Reply, NoMemory>
        ensures told { IfOk result (λ r. IsReply
            (package_answer (refusal self.now.survey) (certify_answer (schema_in self.now) name.now (bytes_seen file.entry))) (reply_seen r)) }
        ensures promised { IfOk result (λ r. status_of (reply_seen r) ≡ 0
            → (self.now.survey.faults ≡ []) × Certified (schema_in self.now) (bytes_seen file.entry)) }
    {
        match self.package() {
            Ok(schema) => certify(alloc, schema, name, file),
            Err(fault) => Ok(refused_reply(alloc, fault)?),
        }
    }

    fn migrate(&self, alloc: Global, name: &str, file: Option<&[u8]>) -> Result<Reply, NoMemory>
        ensures told { IfOk result (λ r. IsReply
            (package_answer (refusal self.now.survey) (migrate_answer (schema_in self.now) name.now (bytes_seen file.entry))) (reply_seen r)) }
        ensures promised { IfOk result (λ r. status_of (reply_seen r) ≡ 0
            → (self.now.survey.faults ≡ []) × Migrated (schema_in self.now) (bytes_seen file.entry)) }
    {
        match self.package() {
            Ok(schema) => migrate_file(alloc, schema, name, file),
            Err(fault) => Ok(refused_reply(alloc, fault)?),
        }
    }

    fn validate(
        &self,
        alloc: Global,
        profile: &str,
        name: &str,
        file: Option<&[u8]>,
    ) -> Result<Reply, NoMemory>
        ensures told { IfOk result (λ r. IsReply
            (package_answer (refusal self.now.survey) (validate_answer (schema_in self.now) profile.now name.now (bytes_seen file.entry))) (reply_seen r)) }
        ensures promised { IfOk result (λ r. status_of (reply_seen r) ≡ 0
            → (self.now.survey.faults ≡ []) × Validated (schema_in self.now) profile.now (bytes_seen file.entry)) }
    {
        match self.package() {
            Ok(schema) => validate_file(alloc, schema, profile, name, file),
            Err(fault) => Ok(refused_reply(alloc, fault)?),
        }
    }

    fn validate_given(
        &self,
        alloc: Global,
        profile: &str,
        name: &str,
        file: Option<&[u8]>,
        given_name: &str,
        given: Option<&[u8]>,
    ) -> Result<Reply, NoMemory>
        ensures told { IfOk result (λ r. IsReply (package_answer (refusal self.now.survey)
            (given_answer self.now profile.now name.now (bytes_seen file.entry) given_name.now (bytes_seen given.entry))) (reply_seen r)) }
        ensures promised { IfOk result (λ r. status_of (reply_seen r) ≡ 0 → (self.now.survey.faults ≡ [])
            × ValidatedAsGiven (schema_in self.now) profile.now (bytes_seen file.entry) (bytes_seen given.entry)) }
    {
        match self.package() {
            Ok(_schema) => {
                let resource = NamedFile { name, bytes: file };
                let texts = NamedFile {
                    name: given_name,
                    bytes: given,
                };
                validate_given(alloc, self, profile, resource, texts)
            }
            Err(fault) => Ok(refused_reply(alloc, fault)?),
        }
    }

    fn unread(&self, alloc: Global, profile: Option<&str>) -> Result<Reply, NoMemory>
        ensures told { IfOk result (λ r. IsReply
            (package_answer (refusal self.now.survey) (stated (unread_reply self.now (text_seen profile.entry)))) (reply_seen r)) }
        ensures promised { IfOk result (λ r. status_of (reply_seen r) ≡ 0 → (self.now.survey.faults ≡ [])
            × CanBeListed self.now.survey.definitions (text_seen profile.entry)) }
    {
        match self.package() {
            Ok(_schema) => list_unread(alloc, self, profile),
            Err(fault) => Ok(refused_reply(alloc, fault)?),
        }
    }

    /// What a user vouches for by the bytes of a file of that name, and what is told of its lines. The refusals are that it isn't UTF-8, and
    /// want of memory.
    pub fn vouch(&self, alloc: Global, name: &str, bytes: &[u8]) -> Result<Given, GivenFault>
        ensures given { IfOk result (λ g. AreSame g.vouching (texts_given bytes.now)) }
        ensures told { IfOk result (λ g. string_bytes g.notes ≡ notes name.now (unread_texts None (schema_in self.now) self.now.survey) bytes.now) }
        ensures not_utf8 { (result ≡ Err GivenFault.NotUtf8) ↔ (¬ IsUtf8 bytes.now) }
    {
        vouch(alloc, &self.survey, self.schema(), name, bytes)
    }

    /// The list of the unread rules that selected definitions carry.
    pub(crate) fn listing(&self, alloc: Global, selection: &Selection) -> Result<String, NoMemory>
        ensures { IfOk result (λ text. string_bytes text ≡ listing selection.now (schema_in self.now) self.now.survey) }
    {
        unread_listing(alloc, &self.survey, &self.schema, selection)
    }

    /// The survey of the folder's files, with the package of all that is right completed.
    pub fn survey(&self) -> &Survey<'f>
        ensures { result.now ≡ self.now.survey }
    {
        &self.survey
    }

    /// Why definitions of the package have no snapshot.
    pub fn lacking(&self) -> &LackingTable
        ensures { result.now ≡ self.now.lacking }
    {
        &self.lacking
    }

    /// The package of all that is right, completed.
    pub(crate) fn definitions(&self) -> &Package<'f>
        ensures { result.now ≡ self.now.survey.definitions }
    {
        self.survey.package()
    }

    fn snapshot(&self, alloc: Global, url: &str) -> Result<Reply, NoMemory>
        ensures told { IfOk result (λ r. IsReply
            (package_answer (refusal self.now.survey) (listed self.now.survey.definitions url.now)) (reply_seen r)) }
        ensures promised { IfOk result (λ r. status_of (reply_seen r) ≡ 0
            → (self.now.survey.faults ≡ []) × Listed self.now.survey.definitions url.now) }
    {
        match self.survey.refusal() {
            Some(fault) => Ok(refused_reply(alloc, fault)?),
            None => list_snapshot(alloc, self.survey.package(), url),
        }
    }

    fn derive(&self, alloc: Global, derived: &str, base: &str) -> Result<Reply, NoMemory>
        ensures told { IfOk result (λ r. IsReply
            (package_answer (refusal self.now.survey) (between (schema_in self.now) derived.now base.now)) (reply_seen r)) }
        ensures promised { IfOk result (λ r. status_of (reply_seen r) ≡ 0
            → (self.now.survey.faults ≡ []) × Derived (schema_in self.now) derived.now base.now) }
    {
        match self.package() {
            Ok(schema) => derive_between(alloc, schema, derived, base),
            Err(fault) => Ok(refused_reply(alloc, fault)?),
        }
    }

    fn counter(&self, alloc: Global, derived: &str, base: &str) -> Result<Reply, NoMemory>
        ensures told { IfOk result (λ r. IsReply
            (package_answer (refusal self.now.survey) (countered (schema_in self.now) derived.now base.now)) (reply_seen r)) }
        ensures promised { IfOk result (λ r. status_of (reply_seen r) ≡ 0
            → (self.now.survey.faults ≡ []) × Derived (schema_in self.now) derived.now base.now) }
    {
        match self.package() {
            Ok(schema) => counter_between(alloc, schema, derived, base),
            Err(fault) => Ok(refused_reply(alloc, fault)?),
        }
    }

    fn counter_given(
        &self,
        alloc: Global,
        derived: &str,
        base: &str,
        name: &str,
        file: Option<&[u8]>,
    ) -> Result<Reply, NoMemory>
        ensures told { IfOk result (λ r. IsReply (package_answer (refusal self.now.survey)
            (counter_given_answer self.now derived.now base.now name.now (bytes_seen file.entry))) (reply_seen r)) }
        ensures promised { IfOk result (λ r. status_of (reply_seen r) ≡ 0
            → (self.now.survey.faults ≡ []) × Derived (schema_in self.now) derived.now base.now) }
    {
        match self.package() {
            Ok(_schema) => {
                let given = NamedFile { name, bytes: file };
                counter_given(alloc, self, derived, base, given)
            }
            Err(fault) => Ok(refused_reply(alloc, fault)?),
        }
    }

    fn report(
        &self,
        alloc: Global,
        manner: Manner,
        selection: &Selection,
        certificate: Option<CertificateFile<'_>>,
    ) -> Result<Reply, NoMemory>
        ensures told { IfOk result (λ r. IsReported manner selection.now self.now (certificate_seen certificate.entry) (reply_seen r)) }
        ensures promised { IfOk result (λ r. status_of (reply_seen r) ≡ 0
            → (self.now.survey.faults ≡ []) × AreRight selection.now self.now.survey.definitions (certificate_seen certificate.entry)) }
    {
        selected_usable();
        let subject = Subject {
            survey: &self.survey,
            schema: self.schema(),
            lacking: &self.lacking,
            files: self.files,
            selection,
            certificate,
        };
        let report = report_on(alloc, manner, subject)?;
        Ok(Reply::Answer {
            status: report_status(report.is_clean),
            out: report.text.into_bytes(),
        })
    }

    fn check_selected(
        &self,
        alloc: Global,
        manner: Manner,
        selection: &Selection,
        certificate: Option<&str>,
        file: Option<&[u8]>,
    ) -> Result<Reply, NoMemory>
        ensures told { IfOk result (λ r. IsReply
            (report_answer manner selection.now self.now (bytes_seen certificate.entry) (bytes_seen file.entry)) (reply_seen r)) }
        ensures promised { IfOk result (λ r. status_of (reply_seen r) ≡ 0 → (self.now.survey.faults ≡ [])
            × CheckedOf selection.now self.now.survey.definitions (bytes_seen certificate.entry) (bytes_seen file.entry)) }
    {
        match (certificate, file) {
            (None, _) => self.report(alloc, manner, selection, None),
            (Some(name), None) => Ok(unreadable_reply(alloc, name)?),
            (Some(name), Some(bytes)) => {
                let certificate = CertificateFile { name, bytes };
                self.report(alloc, manner, selection, Some(certificate))
            }
        }
    }

    fn check(
        &self,
        alloc: Global,
        manner: Manner,
        prefixes: &[String],
        certificate: Option<&str>,
        file: Option<&[u8]>,
    ) -> Result<Reply, NoMemory>
        ensures told { IfOk result (λ r. IsReply
            (check_answer manner (map string_bytes prefixes.now) self.now (bytes_seen certificate.entry) (bytes_seen file.entry)) (reply_seen r)) }
        ensures promised { IfOk result (λ r. status_of (reply_seen r) ≡ 0 → (self.now.survey.faults ≡ [])
            × Checked (map string_bytes prefixes.now) self.now.survey.definitions (bytes_seen certificate.entry) (bytes_seen file.entry)) }
    {
        match Selection::of(alloc, self.survey.package(), prefixes) {
            Ok(selection) => self.check_selected(alloc, manner, &selection, certificate, file),
            Err(SelectFault::Unknown(place)) => only_reply(alloc, prefixes, place),
            Err(SelectFault::NoMemory) => Err(NoMemory),
        }
    }
}
