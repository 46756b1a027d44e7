//! What `snapshot` prints (docs/USAGE.md, What it answers).

ghost use Rattle.std.specs.Prelude.{◌≡◌, ◌++◌, List, Option, None, codes};
ghost use Rattle.fhir_json.specs.Compact.{compact};
ghost use Rattle.fhir_json.specs.Tree.{Text};
ghost use Rattle.fhir_overlay.specs.Completed.{elements_tree};
ghost use Rattle.fhir_schema.specs.Schemas.{unusable, elements_of_url};
ghost use Rattle.fhir_words.specs.Requests.{snapshot};
ghost use Rattle.fhir_answers.specs.Replying.{ReplyValue, status_of, out_of};
ghost use Rattle.fhir_answers.specs.Session.{SessionValue, schema_in};
ghost use Rattle.answer_laws.specs.Answers.{Replies};

use fhir_schema::least_closed;

/// What `snapshot` prints with status 0 of a definition that can be used are the elements that the other commands know of it: by these a resource is judged,
/// and a certificate is made of them.
pub fn printed_snapshots_are_used()
    ensures { (s : SessionValue) (folder url : Text) (files : List (Option Text)) (reply : ReplyValue)
        → Replies (snapshot folder url) s files reply → status_of reply ≡ 0 → unusable (schema_in s) url ≡ None
        → out_of reply ≡ compact (elements_tree (elements_of_url (schema_in s) url)) ++ codes "\n" }
{
    least_closed();
}
