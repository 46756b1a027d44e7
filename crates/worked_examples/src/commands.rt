//! Commands of a session, at work.

ghost use Rattle.std.specs.Prelude.{◌≡◌, ◌∷◌, [], None, Some, codes};
ghost use Rattle.fhir_json.specs.Tree.{null, number, string, array, items_of};
ghost use Rattle.fhir_commands.specs.declared.reply.PutAnswer.TheVariants as puts;
ghost use Rattle.fhir_commands.specs.declared.reply.RemoveAnswer.TheVariants as removes;
ghost use Rattle.fhir_commands.specs.declared.reply.Standing.TheVariants.{Open};
ghost use Rattle.fhir_commands.specs.Commands.{put, remove, validate, command_of};
ghost use Rattle.fhir_commands.specs.Replies.{put as put_reply, remove as remove_reply, validate as validate_reply, reply_tree, fault_tree};
ghost use Rattle.worked_examples.specs.Reaching.{text, list, fields};

/// Which objects are commands: of one member alone, by its name, with a value of its kind. A definition that is put in may be any value, and
/// so may a resource.
pub fn commands_example()
    ensures put { command_of (fields (list (codes "put") (number (codes "1") ∷ null ∷ []) ∷ [])) ≡ Some (put (number (codes "1") ∷ null ∷ [])) }
    ensures put_of_none { command_of (fields (list (codes "put") [] ∷ [])) ≡ Some (put []) }
    ensures put_of_a_text { command_of (fields (text (codes "put") (codes "u") ∷ [])) ≡ None }
    ensures remove { command_of (fields (text (codes "remove") (codes "u") ∷ [])) ≡ Some (remove (codes "u")) }
    ensures remove_of_a_list { command_of (fields (list (codes "remove") (string (codes "u") ∷ []) ∷ [])) ≡ None }
    ensures validate { command_of (fields (list (codes "validate") (string (codes "u") ∷ null ∷ []) ∷ [])) ≡ Some (validate (codes "u") (codes "null")) }
    ensures validate_alone { command_of (fields (list (codes "validate") (string (codes "u") ∷ []) ∷ [])) ≡ None }
    ensures validate_by_a_number { command_of (fields (list (codes "validate") (number (codes "1") ∷ null ∷ []) ∷ [])) ≡ None }
    ensures two { command_of (fields (text (codes "remove") (codes "u") ∷ text (codes "remove_too") (codes "u") ∷ [])) ≡ None }
    ensures none { command_of (fields []) ≡ None }
    ensures other { command_of (fields (text (codes "Remove") (codes "u") ∷ [])) ≡ None }
    ensures no_object { command_of (array (items_of [])) ≡ None }
{}

/// How replies are written: the command's name, and what came of it.
pub fn replies_example()
    ensures done { reply_tree (put_reply puts.Done) ≡ fields (text (codes "put") (codes "done") ∷ []) }
    ensures no_definition { reply_tree (put_reply puts.NoDefinition) ≡ fields (text (codes "put") (codes "G1") ∷ []) }
    ensures twice { reply_tree (put_reply puts.Twice) ≡ fields (text (codes "put") (codes "G2") ∷ []) }
    ensures absent { reply_tree (remove_reply removes.Absent) ≡ fields (text (codes "remove") (codes "absent") ∷ []) }
    ensures open { reply_tree (validate_reply Open null) ≡ fields (text (codes "validate") (codes "open") ∷ (codes "outcome", null) ∷ []) }
    ensures fault { fault_tree (codes "line") ≡ fields (text (codes "fault") (codes "line") ∷ []) }
{}
