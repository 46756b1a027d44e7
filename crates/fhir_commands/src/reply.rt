//! Replies, and the lines on which they are written.

ghost use Rattle.std.specs.Prelude.{◌≡◌, ◌∷◌, [], true, IfOk, IsOk, codes, string_bytes};
ghost use Rattle.std.specs.Fmt.{decimal};
ghost use Rattle.fhir_json.specs.Tree.{number, string};
ghost use Rattle.fhir_json.specs.Views.{tree_of, property_of};
ghost use Rattle.fhir_json.specs.Memory.{Gives};
ghost use Rattle.fhir_commands.specs.Replies.{put, remove, validate, derive, refuted, put_text, remove_text, standing_text, derive_text, derive_seen, reply_seen, reply_tree, line_of, line_seen, is_refusal, refuses, is_short, fields, judgement_front};

use crate::line::{
    DERIVE_MISSING, DERIVE_UNUSABLE, Line, PUT_DONE, PUT_NO_DEFINITION, PUT_TWICE, REMOVE_ABSENT,
    REMOVE_DONE, fixed_lines,
};
use fhir_json::{Json, Member, NoMemory, write};
use std::alloc::{AllocError, Global};
use std::borrow::CowStr;

/// What comes of definitions that are to be put in.
#[derive(Clone, Copy, Debug, PartialEq, Eq)]
pub enum PutAnswer {
    /// They are put in.
    Done,
    /// `G1`: one of them is no sound definition with a `url`. None is put in.
    NoDefinition,
    /// `G2`: two of them are of one kind and url. None is put in.
    Twice,
}

/// What comes of a url whose definitions are to be taken out.
#[derive(Clone, Copy, Debug, PartialEq, Eq)]
pub enum RemoveAnswer {
    /// They are taken out.
    Done,
    /// It has none.
    Absent,
}

/// How a resource stands with a profile.
#[derive(Clone, Copy, Debug, PartialEq, Eq)]
pub enum Standing {
    /// It conforms.
    Conforms,
    /// It breaks a rule.
    Violates,
    /// Unread rules leave it open.
    Open,
    /// It can't be judged: the outcome says why.
    Fault,
}

/// What comes of two profiles of which a certificate is to be derived.
#[derive(Drop)]
pub enum DeriveAnswer {
    /// There is a certificate.
    Derived {
        /// Its bytes.
        certificate: Vec<u8>,
        /// How many pairs it has.
        pairs: usize,
    },
    /// There is none. It doesn't say that the derived profile allows more than its base.
    Refuted {
        /// A pair that fails a rule.
        at: String,
        /// That rule.
        rule: String,
    },
    /// `D1`: no definition of one of the urls is there.
    Missing,
    /// `D2`: the definition of one of the urls can't be used.
    Unusable,
}

/// What comes of a command, unless memory runs out.
#[derive(Drop)]
pub enum Reply {
    /// Of definitions that were to be put in.
    Put(PutAnswer),
    /// Of a url whose definitions were to be taken out.
    Remove(RemoveAnswer),
    /// How a resource stands, and the outcome of its validation.
    Validate(Standing, Json<'static>),
    /// Of two profiles.
    Derive(DeriveAnswer),
}

impl PutAnswer {
    /// `done`, or the number of the refusal.
    pub fn text(self) -> &'static str
        ensures { result.now ≡ put_text self }
    {
        match self {
            PutAnswer::Done => "done",
            PutAnswer::NoDefinition => "G1",
            PutAnswer::Twice => "G2",
        }
    }

    fn line(self) -> &'static str
        ensures { result.now ≡ line_of (reply_tree (put self)) }
    {
        fixed_lines();
        match self {
            PutAnswer::Done => PUT_DONE,
            PutAnswer::NoDefinition => PUT_NO_DEFINITION,
            PutAnswer::Twice => PUT_TWICE,
        }
    }
}

impl RemoveAnswer {
    /// `done` or `absent`.
    pub fn text(self) -> &'static str
        ensures { result.now ≡ remove_text self }
    {
        match self {
            RemoveAnswer::Done => "done",
            RemoveAnswer::Absent => "absent",
        }
    }

    fn line(self) -> &'static str
        ensures { result.now ≡ line_of (reply_tree (remove self)) }
    {
        fixed_lines();
        match self {
            RemoveAnswer::Done => REMOVE_DONE,
            RemoveAnswer::Absent => REMOVE_ABSENT,
        }
    }
}

impl Standing {
    /// Its word.
    pub fn text(self) -> &'static str
        ensures { result.now ≡ standing_text self }
    {
        match self {
            Standing::Conforms => "conforms",
            Standing::Violates => "violates",
            Standing::Open => "open",
            Standing::Fault => "fault",
        }
    }
}

fn word_member(name: &'static str, word: &'static str) -> Member<'static>
    ensures { property_of result ≡ (name.now, string word.now) }
{
    Member {
        name: CowStr::Borrowed(name),
        value: Json::Str(CowStr::Borrowed(word)),
    }
}

// What stands before the outcome. Nothing in it is escaped, so the line is put together without a tree.
fn judgement_front(standing: Standing) -> &'static str
    ensures { result.now ≡ judgement_front standing }
{
    match standing {
        Standing::Conforms => "{\"validate\":\"conforms\",\"outcome\":",
        Standing::Violates => "{\"validate\":\"violates\",\"outcome\":",
        Standing::Open => "{\"validate\":\"open\",\"outcome\":",
        Standing::Fault => "{\"validate\":\"fault\",\"outcome\":",
    }
}

fn line_of(alloc: Global, json: &Json<'_>) -> Result<Vec<u8>, NoMemory>
    ensures { Gives (λ bytes. bytes.items) result (line_of (tree_of json.now)) }
{
    let mut line = write(alloc, json)?;
    line.push(b'\n')?;
    Ok(line)
}

fn judgement_line(alloc: Global, standing: Standing, outcome: &Json<'_>) -> Result<Line, NoMemory>
    ensures { Gives line_seen result (line_of (reply_tree (validate standing (tree_of outcome.now)))) }
{
    let written = write(alloc, outcome)?;
    let mut line = Vec::new(alloc);
    line.extend_from_slice(judgement_front(standing).as_bytes())?;
    line.extend_from_slice(&written)?;
    line.extend_from_slice(b"}\n")?;
    Ok(Line::Made(line))
}

impl DeriveAnswer {
    /// `yes` or `no`, or the number of the refusal.
    pub fn text(&self) -> &'static str
        ensures { result.now ≡ derive_text (derive_seen self.now) }
    {
        match self {
            DeriveAnswer::Derived { .. } => "yes",
            DeriveAnswer::Refuted { .. } => "no",
            DeriveAnswer::Missing => "D1",
            DeriveAnswer::Unusable => "D2",
        }
    }

    fn is_refusal(&self) -> bool
        ensures { result ≡ is_refusal (derive_seen self.now) }
    {
        match self {
            DeriveAnswer::Derived { .. } | DeriveAnswer::Refuted { .. } => false,
            DeriveAnswer::Missing | DeriveAnswer::Unusable => true,
        }
    }

    fn copy(&self, alloc: Global) -> Result<DeriveAnswer, NoMemory>
        ensures { IfOk result (λ a. derive_seen a ≡ derive_seen self.now) }
    {
        match self {
            DeriveAnswer::Derived { certificate, pairs } => Ok(DeriveAnswer::Derived {
                certificate: Vec::from_slice(alloc, certificate)?,
                pairs: *pairs,
            }),
            DeriveAnswer::Refuted { at, rule } => Ok(DeriveAnswer::Refuted {
                at: at.clone()?,
                rule: rule.clone()?,
            }),
            DeriveAnswer::Missing => Ok(DeriveAnswer::Missing),
            DeriveAnswer::Unusable => Ok(DeriveAnswer::Unusable),
        }
    }

    fn line(&self, alloc: Global) -> Result<Line, NoMemory>
        ensures line { Gives line_seen result (line_of (reply_tree (derive (derive_seen self.now)))) }
        ensures always { is_refusal (derive_seen self.now) ≡ true → IsOk result }
    {
        fixed_lines();
        match self {
            DeriveAnswer::Derived { pairs, .. } => derived_line(alloc, *pairs),
            DeriveAnswer::Refuted { at, rule } => refuted_line(alloc, at, rule),
            DeriveAnswer::Missing => Ok(Line::Fixed(DERIVE_MISSING)),
            DeriveAnswer::Unusable => Ok(Line::Fixed(DERIVE_UNUSABLE)),
        }
    }
}

fn text_member(name: &'static str, text: String) -> Member<'static>
    ensures { property_of result ≡ (name.now, string (string_bytes text)) }
{
    Member {
        name: CowStr::Borrowed(name),
        value: Json::Str(CowStr::Owned(text)),
    }
}

fn count_member(
    alloc: Global,
    name: &'static str,
    count: usize,
) -> Result<Member<'static>, AllocError>
    ensures { IfOk result (λ m. property_of m ≡ (name.now, number (decimal count))) }
{
    Ok(Member {
        name: CowStr::Borrowed(name),
        value: Json::Num(CowStr::Owned(format!(in alloc; "{count}")?)),
    })
}

fn derived_tree(alloc: Global, pairs: usize) -> Result<Json<'static>, NoMemory>
    ensures { IfOk result (λ json. tree_of json
        ≡ fields ((codes "derive", string (codes "yes")) ∷ (codes "pairs", number (decimal pairs)) ∷ [])) }
{
    let count = count_member(alloc, "pairs", pairs)?;
    let members = vec![in alloc; word_member("derive", "yes"), count]?;
    Ok(Json::Obj(members))
}

fn derived_line(alloc: Global, pairs: usize) -> Result<Line, NoMemory>
    ensures { Gives line_seen result
        (line_of (fields ((codes "derive", string (codes "yes")) ∷ (codes "pairs", number (decimal pairs)) ∷ []))) }
{
    let json = derived_tree(alloc, pairs)?;
    Ok(Line::Made(line_of(alloc, &json)?))
}

fn refuted_tree(alloc: Global, at: String, rule: String) -> Result<Json<'static>, NoMemory>
    ensures { IfOk result (λ json. tree_of json ≡ fields ((codes "derive", string (codes "no"))
        ∷ (codes "at", string (string_bytes at)) ∷ (codes "rule", string (string_bytes rule)) ∷ [])) }
{
    let members = vec![in alloc;
        word_member("derive", "no"),
        text_member("at", at),
        text_member("rule", rule),
    ]?;
    Ok(Json::Obj(members))
}

fn refuted_line(alloc: Global, at: &str, rule: &str) -> Result<Line, NoMemory>
    ensures { Gives line_seen result (line_of (reply_tree (derive (refuted at.now rule.now)))) }
{
    let at = String::from_str(alloc, at)?;
    let rule = String::from_str(alloc, rule)?;
    let json = refuted_tree(alloc, at, rule)?;
    Ok(Line::Made(line_of(alloc, &json)?))
}

impl Reply {
    /// Whether it refuses: definitions weren't put in, a resource can't be judged, or two profiles can't be compared.
    pub fn is_refusal(&self) -> bool
        ensures { result ≡ refuses (reply_seen self.now) }
    {
        match self {
            Reply::Put(answer) => *answer != PutAnswer::Done,
            Reply::Remove(_) => false,
            Reply::Validate(standing, _) => *standing == Standing::Fault,
            Reply::Derive(answer) => answer.is_refusal(),
        }
    }

    /// The same reply in memory of its own. The one refusal is want of memory.
    pub fn copy(&self, alloc: Global) -> Result<Reply, NoMemory>
        ensures { IfOk result (λ r. reply_seen r ≡ reply_seen self.now) }
    {
        match self {
            Reply::Put(answer) => Ok(Reply::Put(*answer)),
            Reply::Remove(answer) => Ok(Reply::Remove(*answer)),
            Reply::Validate(standing, outcome) => {
                Ok(Reply::Validate(*standing, outcome.detach(alloc)?))
            }
            Reply::Derive(answer) => Ok(Reply::Derive(answer.copy(alloc)?)),
        }
    }

    /// The line on which the reply is written. Where definitions were to be changed it takes no memory, so that what was done is always
    /// told, nor does a refusal to derive; else want of memory is the one refusal.
    pub fn line(&self, alloc: Global) -> Result<Line, NoMemory>
        ensures line { Gives line_seen result (line_of (reply_tree (reply_seen self.now))) }
        ensures always { is_short (reply_seen self.now) ≡ true → IsOk result }
    {
        match self {
            Reply::Put(answer) => Ok(Line::Fixed(answer.line())),
            Reply::Remove(answer) => Ok(Line::Fixed(answer.line())),
            Reply::Validate(standing, outcome) => judgement_line(alloc, *standing, outcome),
            Reply::Derive(answer) => answer.line(alloc),
        }
    }
}
