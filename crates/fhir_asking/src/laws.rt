//! Laws: that a name has one answer or needs itself, and what a table that holds knows.

ghost use Rattle.std.specs.Prelude.{◌≡◌, ◌+◌, ◌↔◌, ℕ, List, [], Option, Some, None, true, codes};
ghost use Rattle.std.specs.Map.{lookup};
ghost use Rattle.std.specs.Str.{bytes_eq};
ghost use Rattle.fhir_json.specs.Tree.{Text};
ghost use Rattle.fhir_asking.specs.Asking.{Asking, found, answer, Has, NeedsItself, ComesTo, Holds};
ghost use Rattle.fhir_asking.specs.Example.{is_odd};

/// There is one answer: two bounds by which a name has an answer give the same, and a larger bound gives what a smaller
/// one gave.
pub fn one_answer<T>()
    ensures one { (asking : Text → Asking T) (name : Text) (one other : Option T)
        → Has asking name one → Has asking name other → one ≡ other }
    ensures stays { (asking : Text → Asking T) (name : Text) (thing : Option T) (bound more : ℕ)
        → answer asking bound name ≡ found thing → answer asking (more + bound) name ≡ found thing }
{}

/// A name needs itself exactly where nothing is its answer.
pub fn answers_or_needs_itself<T>()
    ensures { (asking : Text → Asking T) (name : Text)
        → (NeedsItself asking name) ↔ ((thing : Option T) → ¬ (Has asking name thing)) }
{}

/// A name has an answer exactly where what it asks for comes to it, with the answers that those names have.
pub fn answers_come_of_answers<T>()
    ensures { (asking : Text → Asking T) (name : Text) (thing : Option T)
        → (Has asking name thing) ↔ (ComesTo asking (asking name) thing) }
{}

/// A table that has nothing holds; and what a table that holds has for a name is that name's answer.
pub fn tables_hold<T>()
    ensures empty { (asking : Text → Asking T) → Holds asking [] }
    ensures answers { (asking : Text → Asking T) (table : List (Text × Option T)) (name : Text) (thing : Option T)
        → Holds asking table → lookup (bytes_eq name) table ≡ Some thing → Has asking name thing }
{}

/// In the example a chain of three names is found, and a ring of two needs itself; of a name of which nothing is said,
/// it is found that there is no such thing.
pub fn example()
    ensures chain { Has is_odd (codes "third") (Some true) }
    ensures ring { NeedsItself is_odd (codes "hen") }
    ensures none { Has is_odd (codes "fourth") None }
{}
