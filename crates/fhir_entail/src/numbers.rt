//! Numbers of expressions: equal ones have one number, and others have others.

ghost use Rattle.std.specs.Prelude.{◌≡◌, None, Some, IfOk, OnOk, option_map};
ghost use Rattle.std.specs.Option.{option_and_then};
ghost use Rattle.fhir_fp_syntax.specs.Expression.{expression_of};
ghost use Rattle.fhir_entail.specs.Numbers.{form_of, word_of, text_of, boolean_number, shape_of, seen, number_at, number_by, parts_in, number_in, Extends, AreApart};

use crate::sameness::{filter_number, function_number, operator_number, test_number};
use fhir_fp_syntax::Expr;
use fhir_json::NoMemory;
use std::alloc::Global;
use std::collections::BTreeMap;

/// The form of an expression.
#[derive(Clone, Copy, PartialEq, Eq, PartialOrd, Ord)]
pub(crate) enum Form {
    Empty,
    Boolean,
    Number,
    Text,
    This,
    Resource,
    Context,
    Name,
    Child,
    Call,
    Typed,
    Filtered,
    Binary,
}

/// An expression whose parts stand as their numbers.
#[derive(Clone, Copy, PartialEq, Eq, PartialOrd, Ord)]
pub(crate) struct Shape<'e> {
    form: Form,
    // Which boolean it is, or which operator, function or test it has.
    word: u8,
    // Its name, or its literal.
    text: &'e str,
    first: usize,
    second: usize,
}

fn boolean_number(truth: bool) -> u8
    ensures { result ≡ boolean_number truth }
{
    if truth { 1 } else { 0 }
}

fn outer_of(expression: &Expr) -> (Form, u8, &str)
    ensures form { result.0 ≡ form_of (expression_of expression.now) }
    ensures word { result.1 ≡ word_of (expression_of expression.now) }
    ensures text { result.2.now ≡ text_of (expression_of expression.now) }
{
    match expression {
        Expr::Empty => (Form::Empty, 0, ""),
        Expr::Boolean(truth) => (Form::Boolean, boolean_number(*truth), ""),
        Expr::Number(digits) => (Form::Number, 0, digits.as_str()),
        Expr::Text(text) => (Form::Text, 0, text.as_str()),
        Expr::This => (Form::This, 0, ""),
        Expr::Resource => (Form::Resource, 0, ""),
        Expr::Context => (Form::Context, 0, ""),
        Expr::Name(name) => (Form::Name, 0, name.as_str()),
        Expr::Child(_, name) => (Form::Child, 0, name.as_str()),
        Expr::Call(function, _) => (Form::Call, function_number(*function), ""),
        Expr::Typed(test, _, code) => (Form::Typed, test_number(*test), code.as_str()),
        Expr::Filtered(filter, _, _) => (Form::Filtered, filter_number(*filter), ""),
        Expr::Binary(operator, _, _) => (Form::Binary, operator_number(*operator), ""),
    }
}

fn shape_of(expression: &Expr, parts: (usize, usize)) -> Shape<'_>
    ensures { seen result ≡ shape_of (expression_of expression.now) parts }
{
    let (form, word, text) = outer_of(expression);
    let (first, second) = parts;
    Shape {
        form,
        word,
        text,
        first,
        second,
    }
}

/// The numbers of some expressions, and of all parts of these.
#[derive(Drop)]
pub(crate) struct Numbers<'e> {
    shapes: BTreeMap<Shape<'e>, usize>,
}

impl<'e> Numbers<'e> {
    /// Those of no expressions, which take no memory.
    pub(crate) fn new(alloc: Global) -> Numbers<'e>
        ensures { AreApart result.shapes }
    {
        Numbers {
            shapes: BTreeMap::new(alloc),
        }
    }

    fn at(&self, shape: Shape<'e>) -> Option<usize>
        ensures { result ≡ number_at self.now.shapes (seen shape.entry) }
    {
        self.shapes.get(&shape).copied()
    }

    // The number of a shape, which it gets where it has none.
    fn put_shape(&mut self, shape: Shape<'e>) -> Result<usize, NoMemory>
        ensures at { IfOk result (λ n. number_at self.new.shapes (seen shape.entry) ≡ Some n) }
        ensures extends { OnOk result (Extends self.old.shapes self.new.shapes) }
        ensures apart { OnOk result (AreApart self.old.shapes → AreApart self.new.shapes) }
    {
        if let Some(number) = self.at(shape) {
            return Ok(number);
        }
        let number = self.shapes.len();
        self.shapes.insert(shape, number)?;
        Ok(number)
    }

    // The numbers of an expression's parts, if they have such.
    #[cycle(numbers)]
    fn parts(&self, expression: &'e Expr) -> Option<(usize, usize)>
        ensures { result ≡ parts_in self.now.shapes (expression_of expression.now) }
    {
        match expression {
            Expr::Child(part, _) | Expr::Call(_, part) | Expr::Typed(_, part, _) => {
                Some((self.of(part)?, 0))
            }
            Expr::Filtered(_, first, second) | Expr::Binary(_, first, second) => {
                Some((self.of(first)?, self.of(second)?))
            }
            Expr::Empty | Expr::This | Expr::Resource | Expr::Context => Some((0, 0)),
            Expr::Boolean(_) | Expr::Number(_) | Expr::Text(_) | Expr::Name(_) => Some((0, 0)),
        }
    }

    /// The number of an expression, if it has one.
    #[cycle(numbers)]
    pub(crate) fn of(&self, expression: &'e Expr) -> Option<usize>
        ensures { result ≡ number_in self.now.shapes (expression_of expression.now) }
    {
        let parts = self.parts(expression)?;
        self.at(shape_of(expression, parts))
    }

    /// The number of an expression with two parts, which have these.
    pub(crate) fn of_two(
        &self,
        expression: &'e Expr,
        first: Option<usize>,
        second: Option<usize>,
    ) -> Option<usize>
        ensures { result ≡ number_by self.now.shapes (expression_of expression.now)
            (option_and_then (λ i. option_map (λ j. (i, j)) second) first) }
    {
        let parts = (first?, second?);
        self.at(shape_of(expression, parts))
    }

    // Gives an expression's parts numbers.
    #[cycle(putting)]
    fn put_parts(&mut self, expression: &'e Expr) -> Result<(usize, usize), NoMemory>
        ensures parts { IfOk result (λ p. parts_in self.new.shapes (expression_of expression.now) ≡ Some p) }
        ensures extends { OnOk result (Extends self.old.shapes self.new.shapes) }
        ensures apart { OnOk result (AreApart self.old.shapes → AreApart self.new.shapes) }
    {
        match expression {
            Expr::Child(part, _) | Expr::Call(_, part) | Expr::Typed(_, part, _) => {
                Ok((self.put(part)?, 0))
            }
            Expr::Filtered(_, first, second) => Ok((self.put(first)?, self.put(second)?)),
            Expr::Binary(_, first, second) => Ok((self.put(first)?, self.put(second)?)),
            Expr::Empty | Expr::This | Expr::Resource | Expr::Context => Ok((0, 0)),
            Expr::Boolean(_) | Expr::Number(_) | Expr::Text(_) | Expr::Name(_) => Ok((0, 0)),
        }
    }

    /// Gives an expression a number, and all its parts, where they have none. The one refusal is want of memory.
    #[cycle(putting)]
    pub(crate) fn put(&mut self, expression: &'e Expr) -> Result<usize, NoMemory>
        ensures put { IfOk result (λ n. number_in self.new.shapes (expression_of expression.now) ≡ Some n) }
        ensures extends { OnOk result (Extends self.old.shapes self.new.shapes) }
        ensures apart { OnOk result (AreApart self.old.shapes → AreApart self.new.shapes) }
    {
        let parts = self.put_parts(expression)?;
        let number = self.put_shape(shape_of(expression, parts))?;
        Ok(number)
    }
}
