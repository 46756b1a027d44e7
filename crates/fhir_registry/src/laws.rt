//! Laws of replies.

ghost use Rattle.std.specs.Prelude.{◌≡◌, List, Option, false};
ghost use Rattle.std.specs.List.{list_any};
ghost use Rattle.fhir_json.specs.Tree.{Text};
ghost use Rattle.fhir_package.specs.Definitions.{Definitions};
ghost use Rattle.fhir_package.specs.Packing.{Definition};
ghost use Rattle.fhir_package.specs.Changing.{put_each, without};
ghost use Rattle.fhir_reach.specs.Keys.{has_key};
ghost use Rattle.fhir_reach.specs.Reach.{restrict, all_put_keys, removed_keys};
ghost use Rattle.fhir_commands.specs.Commands.{CommandValue};
ghost use Rattle.fhir_commands.specs.Replies.{ReplyValue};
ghost use Rattle.fhir_registry.specs.Session.{IsQuestion, IsReplyBy, reach_of};

use fhir_reach::{changes_elsewhere, frame};

/// The reply to a question rests on nothing but the definitions that it reaches: other definitions that have the same restriction to them
/// give the same (`asked`). So definitions that are put in (`put_elsewhere`), or those of a url that are taken out (`removed_elsewhere`), change
/// no reply that reaches none of their keys.
pub fn same_replies()
    ensures asked { (texts : Option (List Text)) (p other : Definitions) (c : CommandValue) (reply : ReplyValue) → IsQuestion c
        → restrict p (reach_of p c) ≡ restrict other (reach_of p c) → IsReplyBy texts p c reply → IsReplyBy texts other c reply }
    ensures put_elsewhere { (texts : Option (List Text)) (ds : List Definition) (p : Definitions) (c : CommandValue) (reply : ReplyValue) → IsQuestion c
        → list_any (has_key (reach_of p c)) (all_put_keys ds p) ≡ false → IsReplyBy texts p c reply → IsReplyBy texts (put_each ds p) c reply }
    ensures removed_elsewhere { (texts : Option (List Text)) (url : Text) (p : Definitions) (c : CommandValue) (reply : ReplyValue) → IsQuestion c
        → list_any (has_key (reach_of p c)) (removed_keys url p) ≡ false → IsReplyBy texts p c reply → IsReplyBy texts (without url p) c reply }
{
    frame();
    changes_elsewhere();
}
