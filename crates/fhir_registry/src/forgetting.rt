//! How a registry forgets what a change may make wrong.

ghost use Rattle.std.specs.Prelude.{◌≡◌, [], IfOk, OnOk, OnErr, Option, List};
ghost use Rattle.lru.specs.LruCache.{lru_cache};
ghost use Rattle.fhir_json.specs.Tree.{Text};
ghost use Rattle.fhir_package.specs.Changing.{put_each, without};
ghost use Rattle.fhir_reach.specs.Keys.{keys_seen};
ghost use Rattle.fhir_reach.specs.Reach.{all_put_keys, removed_keys};
ghost use Rattle.fhir_registry.specs.Sound.{AreRightSchemas, AreRightReplies, Retains};

use crate::kept::Untouched;
use crate::replies::Replies;
use crate::schemas::Schemas;
use fhir_cache::retain;
use fhir_json::NoMemory;
use fhir_package::{Definition, Package};
use fhir_reach::{Key, changes_elsewhere, keys_put, keys_removed};
use std::alloc::Global;

fn forget(schemas: &mut Schemas, replies: &mut Replies, changed: &[Key])
    ensures schemas { Retains (keys_seen changed.now) schemas.old schemas.new }
    ensures replies { Retains (keys_seen changed.now) replies.old replies.new }
{
    let rule = Untouched { changed };
    retain(schemas, &rule);
    retain(replies, &rule);
}

/// Forgets what reaches a definition that is to be put in, or one whose place it takes.
pub(crate) fn forget_put(
    alloc: Global,
    schemas: &mut Schemas,
    replies: &mut Replies,
    package: &Package<'_>,
    definitions: &[Definition<'_>],
) -> Result<(), NoMemory>
    ensures schemas { OnOk result (Retains (all_put_keys definitions.now «package».now) schemas.old schemas.new) }
    ensures replies { OnOk result (Retains (all_put_keys definitions.now «package».now) replies.old replies.new) }
    ensures schemas_stay { OnErr result (schemas.new ≡ schemas.old) }
    ensures replies_stay { OnErr result (replies.new ≡ replies.old) }
{
    let changed = keys_put(alloc, package, definitions)?;
    forget(schemas, replies, &changed);
    Ok(())
}

/// Forgets all.
pub(crate) fn forget_all(schemas: &mut Schemas, replies: &mut Replies)
    ensures schemas { schemas.new ≡ lru_cache [] schemas.old.cap }
    ensures replies { replies.new ≡ lru_cache [] replies.old.cap }
{
    schemas.clear();
    replies.clear();
}

/// Forgets what reaches a definition of a url, of each kind. Where memory is refused, it forgets all.
pub(crate) fn forget_removed(
    alloc: Global,
    schemas: &mut Schemas,
    replies: &mut Replies,
    package: &Package<'_>,
    url: &str,
)
    ensures schemas { Retains (removed_keys url.now «package».now) schemas.old schemas.new }
    ensures replies { Retains (removed_keys url.now «package».now) replies.old replies.new }
{
    match keys_removed(alloc, package, url) {
        Ok(changed) => forget(schemas, replies, &changed),
        Err(NoMemory) => forget_all(schemas, replies),
    }
}
