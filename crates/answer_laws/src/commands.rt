//! The status of each answer, and on which stream it stands (docs/USAGE.md, What it answers).

ghost use Rattle.std.specs.Prelude.{◌≡◌, ℕ, List, Option, true, false, nat_eq, IsTrue};
ghost use Rattle.fhir_json.specs.Tree.{Text};
ghost use Rattle.fhir_words.specs.Requests.{RequestValue};
ghost use Rattle.fhir_answers.specs.Answering.{IsReply, answer_by};
ghost use Rattle.fhir_answers.specs.Replying.{ReplyValue, status_of, out_of, is_told, answer_noted};
ghost use Rattle.fhir_answers.specs.Session.{SessionValue};
ghost use Rattle.answer_laws.specs.Manual.{statuses, is_one_of, asks_for_outcome};

/// Each reply to a request has one of the statuses that the manual names for its command.
pub fn statuses_of_commands()
    ensures { (q : RequestValue) (s : SessionValue) (files : List (Option Text)) (reply : ReplyValue)
        → IsReply (answer_by q s files) reply → IsTrue (is_one_of (statuses q) reply) }
{}

/// What has status 3, and nothing else, stands on standard error in place of standard output (`errors`), but for a request whose answer is an outcome. Of each
/// request what stands there has status 3 (`told`). What is told beside an answer, of the lines of a file, changes neither its status (`noted_status`) nor what stands on standard output (`noted_out`).
pub fn streams_of_commands()
    ensures errors { (q : RequestValue) (s : SessionValue) (files : List (Option Text)) (reply : ReplyValue)
        → IsReply (answer_by q s files) reply → asks_for_outcome q ≡ false → is_told reply ≡ nat_eq (status_of reply) 3 }
    ensures told { (q : RequestValue) (s : SessionValue) (files : List (Option Text)) (reply : ReplyValue)
        → IsReply (answer_by q s files) reply → is_told reply ≡ true → status_of reply ≡ 3 }
    ensures noted_status { (notes out : Text) (status : ℕ) → status_of (answer_noted notes status out) ≡ status }
    ensures noted_out { (notes out : Text) (status : ℕ) → out_of (answer_noted notes status out) ≡ out }
{}
