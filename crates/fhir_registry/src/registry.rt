//! Definitions that commands change and ask about.

ghost use Rattle.std.specs.Prelude.{◌≡◌, ◌++◌, [], List, None, Some, false, IfOk, IfErr, IfSome, OnOk, OnErr, map, is_some};
ghost use Rattle.std.specs.Option.{option_map};
ghost use Rattle.fhir_json.specs.Views.{trees_of};
ghost use Rattle.fhir_package.specs.Changing.{put_each, without, has_url};
ghost use Rattle.fhir_reach.specs.Reach.{all_put_keys};
ghost use Rattle.lru.specs.LruCache.{lru_cache};
ghost use Rattle.fhir_commands.specs.Commands.{CommandValue, put, remove, command_seen, question_seen};
ghost use Rattle.fhir_commands.specs.Replies.{ReplyValue, reply_seen, refuses, line_seen};
ghost use Rattle.fhir_registry.specs.Session.{definitions_of, put_answer, put_after, remove_answer, after, IsReplyBy, after_all, AreRepliesBy};
ghost use Rattle.fhir_registry.specs.Keeping.{reply_kept, ForgetsAll, Forgets, KeepsFor, Keeps};
ghost use Rattle.fhir_registry.specs.Lines.{WritesReply};

use crate::asking::compute;
use crate::forgetting::{forget_all, forget_put, forget_removed};
use crate::replies::{Replies, recall, recall_line};
use crate::schemas::Schemas;
use fhir_commands::{Command, Line, PutAnswer, Question, RemoveAnswer, Reply, equal_questions};
use fhir_json::{Json, NoMemory};
use fhir_package::{Definition, Package, has_twice};
use fhir_reach::{changes_elsewhere, same_sets};
use fhir_vouching::Vouching;
use lru::LruCache;
use std::alloc::Global;
use std::marker::Model;
use std::num::NonZeroUsize;

/// Definitions that commands change and ask about. Each reply is the one that the definitions give as they stand.
///
/// The replies to the last 256 questions are kept, but for refusals: a question that is asked again is answered at once. So are the last 16
/// schemas: a question that reaches the same keys is answered by the same schema. What reaches a key that a command changes is forgotten.
pub struct Registry {
    definitions: Package<'static>,
    given: Option<Vouching>,
    schemas: Schemas,
    replies: Replies,
}

// A derived drop would be proved anew in each crate that owns one.
impl Drop for Registry {
    fn drop(self) {
        let Registry {
            definitions: _definitions,
            given: _given,
            schemas: _schemas,
            replies: _replies,
        } = self;
    }
}

impl Model for Registry {
    ghost use Rattle.std.specs.Prelude.{map};
    ghost use Rattle.fhir_registry.specs.Keeping.{RegistryValue};
    ghost use Rattle.fhir_registry.specs.Sound.{entry_seen, IsSound};

    ghost Value = { RegistryValue };

    ghost use Rattle.fhir_json.specs.Coding.{tree_code};
    ghost use Rattle.std.specs.Coded.{codes};

    ghost coded = { Prim.hlevel (codes, tree_code) };

    ghost view = { λ r. record { definitions = r.definitions; texts = r.given; replies = map entry_seen r.replies.entries } };

    ghost invariant = { λ r. IsSound r.given r.definitions r.schemas r.replies };
}

// The sound definitions that trees are, in memory of their own, where each is one.
fn definitions_of(
    alloc: Global,
    trees: &[Json<'_>],
) -> Result<Option<Vec<Definition<'static>>>, NoMemory>
    ensures { IfOk result (λ ds. option_map (λ v. v.items) ds ≡ definitions_of (trees_of trees.now)) }
{
    let mut all = Vec::new(alloc);
    for tree in trees {
        let Some(definition) = Definition::of(alloc, tree.detach(alloc)?)? else {
            return Ok(None);
        };
        all.push(definition)?;
    }
    Ok(Some(all))
}

// No schemas, and room for 16.
fn no_schemas(alloc: Global) -> Result<Schemas, NoMemory>
    ensures { IfOk result (λ s. s ≡ lru_cache [] 16) }
{
    Ok(LruCache::new(alloc, NonZeroUsize::new(16).unwrap())?)
}

// No replies, and room for 256.
fn no_replies(alloc: Global) -> Result<Replies, NoMemory>
    ensures { IfOk result (λ s. s ≡ lru_cache [] 256) }
{
    Ok(LruCache::new(alloc, NonZeroUsize::new(256).unwrap())?)
}

fn registry_of(alloc: Global, package: &Package<'_>) -> Result<Registry, NoMemory>
    ensures { IfOk result (λ r. r ≡ record { definitions = «package».now; texts = None; replies = [] }) }
{
    Ok(Registry {
        definitions: package.detach(alloc)?,
        given: None,
        schemas: no_schemas(alloc)?,
        replies: no_replies(alloc)?,
    })
}

impl Registry {
    /// That of a package, in memory of its own, which keeps no reply yet. Where memory is refused the package comes back.
    pub fn new<'a>(alloc: Global, package: Package<'a>) -> Result<Registry, Package<'a>>
        ensures kept { IfOk result (λ r. r ≡ record { definitions = «package».entry; texts = None; replies = [] }) }
        ensures given_back { IfErr result (λ p. p ≡ «package».entry) }
    {
        match registry_of(alloc, &package) {
            Ok(registry) => Ok(registry),
            Err(NoMemory) => Err(package),
        }
    }

    /// From now on a user vouches for these unread rules, by their texts, and for no others: resources are judged as they hold. No reply of
    /// before is kept.
    pub fn vouch(&mut self, given: Vouching)
        ensures { self.new ≡ record { definitions = self.old.definitions; texts = Some given; replies = [] } }
    {
        self.replies.clear();
        self.given = Some(given);
    }

    /// No reply and no schema is kept any more: what is asked again is answered anew.
    pub(crate) fn forget_kept(&mut self)
        ensures { self.new ≡ record { definitions = self.old.definitions; texts = self.old.texts; replies = [] } }
    {
        forget_all(&mut self.schemas, &mut self.replies);
    }

    /// The definitions as they stand.
    pub fn definitions(&self) -> &Package<'static>
        ensures { result.now ≡ self.now.definitions }
    {
        &self.definitions
    }

    /// Whether the reply to a command is kept. It takes no memory.
    pub fn kept(&self, command: &Command<'_>) -> bool
        ensures told { result ≡ is_some (reply_kept (command_seen command.now) self.now.replies) }
        ensures right { IfSome (reply_kept (command_seen command.now) self.now.replies)
            (λ r. IsReplyBy self.now.texts self.now.definitions (command_seen command.now) r × (refuses r ≡ false)) }
    {
        equal_questions();
        match command {
            Command::Put(_) => false,
            Command::Remove(_) => false,
            Command::Ask(question) => self.replies.contains(question),
        }
    }

    fn put_in(
        &mut self,
        alloc: Global,
        definitions: Vec<Definition<'static>>,
    ) -> Result<(), NoMemory>
        ensures after { OnOk result (self.new.definitions ≡ put_each definitions.entry.items self.old.definitions) }
        ensures forgets { OnOk result (ForgetsAll self.old.definitions (all_put_keys definitions.entry.items self.old.definitions) self.old.replies self.new.replies) }
        ensures unchanged { OnErr result (self.new.definitions ≡ self.old.definitions) }
        ensures texts { self.new.texts ≡ self.old.texts }
    {
        changes_elsewhere();
        same_sets();
        forget_put(
            alloc,
            &mut self.schemas,
            &mut self.replies,
            &self.definitions,
            &definitions,
        )?;
        self.definitions.put_all(alloc, definitions)
    }

    fn put(&mut self, alloc: Global, trees: &[Json<'_>]) -> Result<PutAnswer, NoMemory>
        ensures told { IfOk result (λ answer. answer ≡ put_answer (definitions_of (trees_of trees.now))) }
        ensures after { OnOk result (self.new.definitions ≡ put_after (definitions_of (trees_of trees.now)) self.old.definitions) }
        ensures forgets { OnOk result (Forgets self.old.definitions (put (trees_of trees.now)) self.old.replies self.new.replies) }
        ensures unchanged { OnErr result (self.new.definitions ≡ self.old.definitions) }
        ensures texts { self.new.texts ≡ self.old.texts }
    {
        let Some(definitions) = definitions_of(alloc, trees)? else {
            return Ok(PutAnswer::NoDefinition);
        };
        if has_twice(alloc, &definitions)? {
            return Ok(PutAnswer::Twice);
        }
        self.put_in(alloc, definitions)?;
        Ok(PutAnswer::Done)
    }

    // Takes out the definitions of a url. Whether there were any.
    fn take_out(&mut self, alloc: Global, url: &str) -> bool
        ensures told { result ≡ has_url url.now self.old.definitions }
        ensures after { self.new.definitions ≡ without url.now self.old.definitions }
        ensures forgets { Forgets self.old.definitions (remove url.now) self.old.replies self.new.replies }
        ensures texts { self.new.texts ≡ self.old.texts }
    {
        changes_elsewhere();
        same_sets();
        forget_removed(
            alloc,
            &mut self.schemas,
            &mut self.replies,
            &self.definitions,
            url,
        );
        self.definitions.remove(url)
    }

    fn remove(&mut self, alloc: Global, url: &str) -> RemoveAnswer
        ensures told { result ≡ remove_answer url.now self.old.definitions }
        ensures after { self.new.definitions ≡ without url.now self.old.definitions }
        ensures forgets { Forgets self.old.definitions (remove url.now) self.old.replies self.new.replies }
        ensures texts { self.new.texts ≡ self.old.texts }
    {
        if self.take_out(alloc, url) {
            RemoveAnswer::Done
        } else {
            RemoveAnswer::Absent
        }
    }

    fn ask(&mut self, alloc: Global, question: Question) -> Result<Reply, NoMemory>
        ensures told { IfOk result (λ r. IsReplyBy self.old.texts self.old.definitions (question_seen question) (reply_seen r)) }
        ensures held { IfSome (reply_kept (question_seen question) self.old.replies) (λ held. IfOk result (λ r. reply_seen r ≡ held)) }
        ensures keeps { IfOk result (λ r. KeepsFor (question_seen question) (reply_seen r) (reply_kept (question_seen question) self.old.replies) self.old.replies self.new.replies) }
        ensures definitions { self.new.definitions ≡ self.old.definitions }
        ensures texts { self.new.texts ≡ self.old.texts }
    {
        if let Some(reply) = recall(alloc, &mut self.replies, &question)? {
            return Ok(reply);
        }
        compute(
            alloc,
            &mut self.schemas,
            &mut self.replies,
            &self.definitions,
            self.given.as_ref(),
            question,
        )
    }

    /// Does what a command asks, and replies. A resource is judged by the definitions that it reaches, as they stand, completed, and as the unread
    /// rules hold for which a user vouches; a certificate is derived by those that its two profiles reach. A reply that is kept is given as it
    /// is kept. The one refusal is want of memory, which changes no definition.
    pub fn apply(&mut self, alloc: Global, command: Command<'_>) -> Result<Reply, NoMemory>
        ensures told { IfOk result (λ r. IsReplyBy self.old.texts self.old.definitions (command_seen command.entry) (reply_seen r)) }
        ensures held { IfSome (reply_kept (command_seen command.entry) self.old.replies) (λ held. IfOk result (λ r. reply_seen r ≡ held)) }
        ensures keeps { IfOk result (λ r. Keeps self.old.definitions (command_seen command.entry) (reply_seen r) self.old.replies self.new.replies) }
        ensures after { OnOk result (self.new.definitions ≡ after (command_seen command.entry) self.old.definitions) }
        ensures unchanged { OnErr result (self.new.definitions ≡ self.old.definitions) }
        ensures texts { self.new.texts ≡ self.old.texts }
    {
        match command {
            Command::Put(trees) => Ok(Reply::Put(self.put(alloc, &trees)?)),
            Command::Remove(url) => Ok(Reply::Remove(self.remove(alloc, url.as_str()))),
            Command::Ask(question) => self.ask(alloc, question),
        }
    }

    /// The line of the reply to a question. One that is kept is not written again. The one refusal is want of memory.
    pub(crate) fn ask_line(&mut self, alloc: Global, question: Question) -> Result<Line, NoMemory>
        ensures told { IfOk result (λ line. WritesReply (IsReplyBy self.old.texts self.old.definitions) (question_seen question) (line_seen line)) }
        ensures definitions { self.new.definitions ≡ self.old.definitions }
        ensures texts { self.new.texts ≡ self.old.texts }
    {
        if let Some(line) = recall_line(alloc, &mut self.replies, &question)? {
            return Ok(line);
        }
        self.ask(alloc, question)?.line(alloc)
    }

    /// Does what commands ask, one after the other, and gives the replies. The one refusal is want of memory: then the registry holds what
    /// some of the first commands leave.
    pub fn run(&mut self, alloc: Global, commands: Vec<Command<'_>>) -> Result<Vec<Reply>, NoMemory>
        ensures told { IfOk result (λ replies. AreRepliesBy self.old.texts self.old.definitions (map command_seen commands.entry.items) (map reply_seen replies.items)) }
        ensures after { OnOk result (self.new.definitions ≡ after_all (map command_seen commands.entry.items) self.old.definitions) }
        ensures partly { OnErr result ((first others : List CommandValue)
            × (map command_seen commands.entry.items ≡ first ++ others) × (self.new.definitions ≡ after_all first self.old.definitions)) }
        ensures texts { self.new.texts ≡ self.old.texts }
    {
        let mut replies = Vec::new(alloc);
        for command in commands {
            let reply = self.apply(alloc, command)?;
            replies.push(reply)?;
        }
        Ok(replies)
    }
}
