//! How the program ends (docs/USAGE.md, What it answers).

ghost use Rattle.std.specs.Prelude.{◌≡◌, ℕ, List, Option, Result, Err, true, nat_le, codes};
ghost use Rattle.std.specs.Io.KnownBytes.{Appends};
ghost use Rattle.fhir_json.specs.Tree.{Text};
ghost use Rattle.fhir_package.specs.declared.folder.FolderFault.{FolderFault};
ghost use Rattle.fhir_package.specs.ReadFiles.{ReadFiles};
ghost use Rattle.fhir_words.specs.declared.request.WordsFault.{WordsFault};
ghost use Rattle.fhir_words.specs.declared.request.WordsFault.TheVariants.{Usage, NoMemory};
ghost use Rattle.fhir_words.specs.Requests.{InvocationValue};
ghost use Rattle.fhir_answers.specs.declared.reply.Status.{Status};
ghost use Rattle.fhir_answers.specs.declared.reply.Status.TheVariants as statuses;
ghost use Rattle.fhir_answers.specs.Replying.{ReplyValue, told, status_of, out_of, is_told};
ghost use Rattle.fhir_answers.specs.Status.{code_of};
ghost use Rattle.fhir_engine.specs.Answering.{RepliesFor};
ghost use Rattle.fhir_engine.specs.Ending.{HasEnded};
ghost use Rattle.answer_laws.specs.Manual.{is_decided};

/// Words that are no request have status 4, and words for which memory ran out 5, each told on standard error (`usage`, `memory`). Nothing that stands there in
/// place of an answer has a status below 3 (`errors`).
pub fn statuses_of_words()
    ensures usage { (read : Result ReadFiles FolderFault) (files : List (Option Text)) (reply : ReplyValue)
        → RepliesFor (Err Usage) read files reply → reply ≡ told 4 (codes "usage: fhirprof COMMAND ..\n") }
    ensures memory { (read : Result ReadFiles FolderFault) (files : List (Option Text)) (reply : ReplyValue)
        → RepliesFor (Err NoMemory) read files reply → reply ≡ told 5 (codes "no memory\n") }
    ensures errors { (asked : Result InvocationValue WordsFault) (read : Result ReadFiles FolderFault) (files : List (Option Text)) (reply : ReplyValue)
        → RepliesFor asked read files reply → is_told reply ≡ true → nat_le 3 (status_of reply) ≡ true }
{}

/// Where standard output didn't fail and memory didn't run out, the program ends with the number of the reply's status (`status`), and has written to standard
/// output what the reply has for it (`written`). An answer that couldn't be written has status 3, and one for which memory ran out 5 (`failed`).
pub fn written_by_status()
    ensures status { (status : Status) (old new : Option (List ℕ)) (reply : ReplyValue)
        → HasEnded status old new reply → is_decided status ≡ true → code_of status ≡ status_of reply }
    ensures written { (status : Status) (old new : Option (List ℕ)) (reply : ReplyValue)
        → HasEnded status old new reply → is_decided status ≡ true → Appends old new (out_of reply) }
    ensures failed { (code_of statuses.Unwritten ≡ 3) × (code_of statuses.NoMemory ≡ 5) }
{}
