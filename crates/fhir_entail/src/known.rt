//! Expressions that are known to be true, kept so that what they entail is found fast.

ghost use Rattle.std.specs.Prelude.{◌≡◌, ◌∷◌, ◌++◌, [], false, true, List, OnOk};
ghost use Rattle.fhir_fp_syntax.specs.Expression.{Expression, binary, expression_of};
ghost use Rattle.fhir_entail.specs.Total.{joins_truths};
ghost use Rattle.fhir_entail.specs.Entailment.{entails};
ghost use Rattle.fhir_entail.specs.Numbers.{number_in};
ghost use Rattle.fhir_entail.specs.Known.{is_conjunction, is_and, is_joined, is_found, Knows, Weighs, joined_entailed};

use crate::numbers::Numbers;
use crate::totality::{joins_truths, total};
use fhir_fp_syntax::{Expr, Operator};
use fhir_json::NoMemory;
use std::alloc::Global;
use std::collections::BTreeSet;

/// Expressions that are known to be true, by which others are entailed: what is asked is found among them, and among their parts, in
/// time near linear in its size.
#[derive(Drop)]
pub struct Known<'e> {
    numbers: Numbers<'e>,
    // The numbers of those that are no `and`, and of the parts of each `and` that are none.
    listed: BTreeSet<usize>,
}

/// What is so of an expression.
#[derive(Clone, Copy)]
struct Weighed {
    number: Option<usize>,
    is_entailed: bool,
    // Whether it has a truth wherever it is evaluated.
    is_total: bool,
}

fn is_conjunction(operator: Operator) -> bool
    ensures { result ≡ is_conjunction operator }
{
    matches!(operator, Operator::And)
}

// Whether what joins two truths is entailed, where it is listed or not.
fn is_joined_entailed(operator: Operator, is_listed: bool, left: Weighed, right: Weighed) -> bool
    ensures { result ≡ joined_entailed operator is_listed left right }
{
    match operator {
        Operator::And => left.is_entailed && right.is_entailed,
        Operator::Or => {
            is_listed
                || (left.is_entailed && right.is_total)
                || (right.is_entailed && left.is_total)
        }
        Operator::Implies => is_listed || (right.is_entailed && left.is_total),
        Operator::Index | Operator::Intersect | Operator::Union => is_listed,
        Operator::Less | Operator::LessOrEqual => is_listed,
        Operator::Greater | Operator::GreaterOrEqual => is_listed,
        Operator::Equal | Operator::NotEqual => is_listed,
        Operator::In | Operator::Contains | Operator::Xor => is_listed,
    }
}

impl<'e> Known<'e> {
    /// None, which takes no memory.
    pub fn new(alloc: Global) -> Known<'e>
        ensures { Knows result [] }
    {
        Known {
            numbers: Numbers::new(alloc),
            listed: BTreeSet::new(alloc),
        }
    }

    // Puts an expression that is no `and` behind the others.
    fn put_whole(&mut self, expression: &'e Expr) -> Result<(), NoMemory>
        requires { is_and (expression_of expression.now) ≡ false }
        ensures { OnOk result ((known : List Expression) → Knows self.old known → Knows self.new (known ++ expression_of expression.now ∷ [])) }
    {
        let number = self.numbers.put(expression)?;
        self.listed.insert(number)?;
        Ok(())
    }

    /// Puts an expression behind the others. The one refusal is want of memory.
    pub fn put(&mut self, expression: &'e Expr) -> Result<(), NoMemory>
        ensures { OnOk result ((known : List Expression) → Knows self.old known → Knows self.new (known ++ expression_of expression.now ∷ [])) }
    {
        match expression {
            Expr::Binary(operator, left, right) => {
                if is_conjunction(*operator) {
                    self.put(left)?;
                    self.put(right)
                } else {
                    self.put_whole(expression)
                }
            }
            Expr::Empty | Expr::This | Expr::Resource | Expr::Context => {
                self.put_whole(expression)
            }
            Expr::Boolean(_) | Expr::Number(_) | Expr::Text(_) => self.put_whole(expression),
            Expr::Name(_) | Expr::Child(..) | Expr::Call(..) => self.put_whole(expression),
            Expr::Typed(..) | Expr::Filtered(..) => self.put_whole(expression),
        }
    }

    // Whether the expression of that number is listed, if there is one.
    fn is_listed(&self, number: Option<usize>) -> bool
        ensures { result ≡ is_found self.now number }
    {
        match number {
            Some(number) => self.listed.contains(&number),
            None => false,
        }
    }

    // What is so of what joins two truths, of which this is so.
    fn join(
        &self,
        operator: Operator,
        number: Option<usize>,
        left: Weighed,
        right: Weighed,
    ) -> Weighed
        requires { joins_truths operator ≡ true }
        ensures { (l r : Expression) → number ≡ number_in self.now.numbers.shapes (binary operator l r)
            → Weighs self.now l left → Weighs self.now r right → Weighs self.now (binary operator l r) result }
    {
        let is_listed = self.is_listed(number);
        Weighed {
            number,
            is_entailed: is_joined_entailed(operator, is_listed, left, right),
            is_total: left.is_total && right.is_total,
        }
    }

    // What is so of an expression that joins no truths.
    fn weigh_whole(&self, expression: &'e Expr) -> Weighed
        requires { is_joined (expression_of expression.now) ≡ false }
        ensures { Weighs self.now (expression_of expression.now) result }
    {
        let number = self.numbers.of(expression);
        Weighed {
            number,
            is_entailed: self.is_listed(number),
            is_total: total(expression),
        }
    }

    // What is so of an expression, each part of which is looked at once.
    fn weigh(&self, expression: &'e Expr) -> Weighed
        ensures { Weighs self.now (expression_of expression.now) result }
    {
        match expression {
            Expr::Binary(operator, left, right) => {
                if joins_truths(*operator) {
                    let left = self.weigh(left);
                    let right = self.weigh(right);
                    let number = self.numbers.of_two(expression, left.number, right.number);
                    self.join(*operator, number, left, right)
                } else {
                    self.weigh_whole(expression)
                }
            }
            Expr::Empty | Expr::This | Expr::Resource | Expr::Context => {
                self.weigh_whole(expression)
            }
            Expr::Boolean(_) | Expr::Number(_) | Expr::Text(_) => self.weigh_whole(expression),
            Expr::Name(_) | Expr::Child(..) | Expr::Call(..) => self.weigh_whole(expression),
            Expr::Typed(..) | Expr::Filtered(..) => self.weigh_whole(expression),
        }
    }

    /// Whether they entail an expression, by their form alone.
    pub fn entails(&self, expression: &'e Expr) -> bool
        ensures { (known : List Expression) → Knows self.now known → result ≡ entails known (expression_of expression.now) }
    {
        self.weigh(expression).is_entailed
    }
}
