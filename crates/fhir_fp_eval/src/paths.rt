//! What paths give, told by a visit of the items, without a list.

ghost use Rattle.std.specs.Prelude.{◌≡◌, ◌<◌, ◌∷◌, [], map, length, if◌then◌else◌, Ok, Some, None, IfSome, IsTrue, option_map};
ghost use Rattle.fhir_instance.specs.Items.{kids_in};
ghost use Rattle.fhir_instance.specs.View.{item_of, named_of, named_in};
ghost use Rattle.fhir_fp_syntax.specs.Expression.{child, expression_of};
ghost use Rattle.fhir_fp_values.specs.Values.{Plain, node};
ghost use Rattle.fhir_fp_eval.specs.Worlds.{World};
ghost use Rattle.fhir_fp_eval.specs.Views.{world_of};
ghost use Rattle.fhir_fp_eval.specs.Meaning.{starts, den};
ghost use Rattle.fhir_fp_eval.specs.Paths.{takes, taken, onward, then_step, then_steps, steps_in, given_by, first_in, at_most_one};

use crate::env::Env;
use crate::lists::path_name;
use crate::step::{Step, Steps};
use fhir_fp_syntax::{Expr, Function};
use fhir_instance::{Kid, Typed};

/// A path: the item from which it goes, and its steps.
#[derive(Clone, Copy)]
pub(crate) struct Path<'e, 'a, 'j> {
    from: &'e Typed<'a, 'j>,
    steps: Steps<'e>,
}

fn takes(step: Step<'_>, kid: &Kid<'_, '_>) -> bool
    ensures { result ≡ takes step.entry (named_of kid.now).0 }
{
    match step {
        Step::Named(name) => path_name(kid.name()) == name,
        Step::Children => true,
    }
}

#[cycle(count)]
fn count_kid(step: Step<'_>, rest: &[Step<'_>], kid: &Kid<'_, '_>) -> Option<usize>
    ensures { IfSome result (λ n. n ≡ (if takes step.entry (named_of kid.now).0
        then length (onward rest.now (node (named_of kid.now).1 ∷ [])) else 0)) }
{
    if takes(step, kid) {
        count_along(rest, kid.item())
    } else {
        Some(0)
    }
}

#[cycle(count)]
fn count_kids(step: Step<'_>, rest: &[Step<'_>], kids: &[Kid<'_, '_>]) -> Option<usize>
    ensures { IfSome result (λ n. n ≡ length (onward rest.now (map node (taken step.entry (kids_in (named_in kids.now)))))) }
{
    let mut count: usize = 0;
    for kid in kids {
        count = count.checked_add(count_kid(step, rest, kid)?)?;
    }
    Some(count)
}

// How many items the steps give from an item.
#[cycle(count)]
#[tactic(auto, using(crate::proofs::Visits::one_step))]
fn count_along(steps: &[Step<'_>], item: &Typed<'_, '_>) -> Option<usize>
    ensures { IfSome result (λ n. n ≡ length (onward steps.now (node (item_of item.now) ∷ []))) }
{
    match steps {
        [] => Some(1),
        [step, rest @ ..] => count_kids(*step, rest, item.kids()),
    }
}

#[cycle(first)]
fn first_of_kid<'e, 'a, 'j>(
    step: Step<'_>,
    rest: &[Step<'_>],
    kid: &'e Kid<'a, 'j>,
) -> Option<&'e Typed<'a, 'j>>
    ensures { option_map (λ x. node (item_of x.now)) result ≡ (if takes step.entry (named_of kid.now).0
        then first_in (onward rest.now (node (named_of kid.now).1 ∷ [])) else None) }
{
    if takes(step, kid) {
        first_along(rest, kid.item())
    } else {
        None
    }
}

#[cycle(first)]
fn first_of_kids<'e, 'a, 'j>(
    step: Step<'_>,
    rest: &[Step<'_>],
    kids: &'e [Kid<'a, 'j>],
) -> Option<&'e Typed<'a, 'j>>
    ensures { option_map (λ x. node (item_of x.now)) result
        ≡ first_in (onward rest.now (map node (taken step.entry (kids_in (named_in kids.now))))) }
{
    for kid in kids {
        match first_of_kid(step, rest, kid) {
            Some(found) => return Some(found),
            None => {}
        }
    }
    None
}

// The first item that the steps give from an item. No more are looked at.
#[cycle(first)]
#[tactic(auto, using(crate::proofs::Visits::one_step))]
fn first_along<'e, 'a, 'j>(steps: &[Step<'_>], item: &'e Typed<'a, 'j>) -> Option<&'e Typed<'a, 'j>>
    ensures { option_map (λ x. node (item_of x.now)) result ≡ first_in (onward steps.now (node (item_of item.now) ∷ [])) }
{
    match steps {
        [] => Some(item),
        [step, rest @ ..] => first_of_kids(*step, rest, item.kids()),
    }
}

impl<'e> Steps<'e> {
    fn none() -> Self
        ensures { steps_in result ≡ [] }
    {
        Steps {
            steps: [Step::Children; 5],
            first: 5,
        }
    }

    fn steps(&self) -> &[Step<'e>]
        ensures { result.now ≡ steps_in self.now }
    {
        &self.steps[self.first..]
    }

    // Puts a step in front of the others, if there is room.
    fn put_first(&mut self, step: Step<'e>) -> bool
        ensures put { IsTrue result → steps_in self.new ≡ step.entry ∷ steps_in self.old }
        ensures less { IsTrue result → self.new.first < self.old.first }
    {
        if self.first == 0 {
            return false;
        }
        self.first -= 1;
        self.steps[self.first] = step;
        true
    }
}

// What stands before a name behind a dot, and that name.
fn child_parts(expr: &Expr) -> Option<(&Expr, &str)>
    ensures { IfSome result (λ p. expression_of expr.now ≡ child (expression_of p.0.now) p.1.now) }
{
    match expr {
        Expr::Child(base, name) => Some((&**base, name.as_str())),
        _ => None,
    }
}

#[tactic(auto, unfolding(crate::specs::Meaning::den))]
fn children_step(expr: &Expr) -> Option<(&Expr, Step<'_>)>
    ensures { IfSome result (λ p. (w : World) (x : Plain) → den w (expression_of expr.now) x
        ≡ then_step p.1 (den w (expression_of p.0.now) x)) }
{
    match expr {
        Expr::Call(Function::Children, base) => Some((&**base, Step::Children)),
        _ => None,
    }
}

// What stands before the last step of a path, and that step.
fn last_step(expr: &Expr) -> Option<(&Expr, Step<'_>)>
    ensures { IfSome result (λ p. (w : World) (x : Plain) → den w (expression_of expr.now) x
        ≡ then_step p.1 (den w (expression_of p.0.now) x)) }
{
    match child_parts(expr) {
        Some((base, name)) => Some((base, Step::Named(name))),
        None => children_step(expr),
    }
}

// The steps go from the item, or from the children of a name.
fn by_name<'e, 'a, 'j>(
    env: &Env<'e, 'a, 'j>,
    name: &'e str,
    from: &'e Typed<'a, 'j>,
    mut steps: Steps<'e>,
) -> Option<Path<'e, 'a, 'j>>
    ensures { IfSome result (λ p. given_by p ≡ onward (steps_in steps.entry)
        (starts (world_of env.now).schema name.now (node (item_of from.now)))) }
{
    if env.schema.derives(from.code(), name) {
        return Some(Path { from, steps });
    }
    if steps.put_first(Step::Named(name)) {
        Some(Path { from, steps })
    } else {
        None
    }
}

// The path that begins by an expression and goes on by steps.
#[tactic(auto, unfolding(crate::specs::Meaning::den))]
fn begun<'e, 'a, 'j>(
    env: &Env<'e, 'a, 'j>,
    start: &'e Expr,
    item: &'e Typed<'a, 'j>,
    steps: Steps<'e>,
) -> Option<Path<'e, 'a, 'j>>
    ensures { IfSome result (λ p. then_steps (steps_in steps.entry) (den (world_of env.now) (expression_of start.now) (node (item_of item.now)))
        ≡ Ok (given_by p)) }
{
    match start {
        Expr::This => Some(Path { from: item, steps }),
        Expr::Resource => Some(Path {
            from: env.resource,
            steps,
        }),
        Expr::Context => Some(Path {
            from: env.context,
            steps,
        }),
        Expr::Name(name) => by_name(env, name.as_str(), item, steps),
        _ => None,
    }
}

impl<'e, 'a, 'j> Path<'e, 'a, 'j> {
    /// The path that an expression is, if it is one of no more than five steps by names and `children()`.
    #[tactic(auto, using(crate::proofs::Visits::step_put))]
    pub(crate) fn of(
        env: &Env<'e, 'a, 'j>,
        expr: &'e Expr,
        item: &'e Typed<'a, 'j>,
    ) -> Option<Path<'e, 'a, 'j>>
        ensures { IfSome result (λ p. den (world_of env.now) (expression_of expr.now) (node (item_of item.now)) ≡ Ok (given_by p)) }
    {
        let mut steps = Steps::none();
        let mut start = expr;
        while let Some((before, step)) = last_step(start) {
            if !steps.put_first(step) {
                return None;
            }
            start = before;
        }
        begun(env, start, item, steps)
    }

    /// The first item that it gives. No more are looked at.
    pub(crate) fn first(&self) -> Option<&'e Typed<'a, 'j>>
        ensures { option_map (λ x. node (item_of x.now)) result ≡ first_in (given_by self.now) }
    {
        first_along(self.steps.steps(), self.from)
    }

    /// How many items it gives, unless that is no `usize`.
    pub(crate) fn count(&self) -> Option<usize>
        ensures { IfSome result (λ n. n ≡ length (given_by self.now)) }
    {
        count_along(self.steps.steps(), self.from)
    }

    /// The item that it gives, or none, unless it gives several.
    #[tactic(auto, using(crate::proofs::Visits::few_in))]
    pub(crate) fn only(&self) -> Option<Option<&'e Typed<'a, 'j>>>
        ensures { IfSome result (λ x. given_by self.now ≡ at_most_one (option_map (λ y. node (item_of y.now)) x)) }
    {
        let first = self.first();
        match self.count() {
            Some(0 | 1) => Some(first),
            _ => None,
        }
    }
}
