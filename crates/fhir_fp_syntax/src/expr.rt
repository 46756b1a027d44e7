//! An expression, once read (FHIRPath N1, section 3 and Appendix B).

/// What stands between two operands, with the index of `a[i]` and the argument of `intersect`.
#[derive(Clone, Copy, Debug, PartialEq, Eq)]
pub enum Operator {
    /// `a[b]`
    Index,
    /// `a.intersect(b)`
    Intersect,
    /// `a | b`
    Union,
    /// `a < b`
    Less,
    /// `a <= b`
    LessOrEqual,
    /// `a > b`
    Greater,
    /// `a >= b`
    GreaterOrEqual,
    /// `a = b`
    Equal,
    /// `a != b`
    NotEqual,
    /// `a in b`
    In,
    /// `a contains b`
    Contains,
    /// `a and b`
    And,
    /// `a or b`
    Or,
    /// `a xor b`
    Xor,
    /// `a implies b`
    Implies,
}

/// A function without an argument.
#[derive(Clone, Copy, Debug, PartialEq, Eq)]
pub enum Function {
    /// `a.exists()`
    Exists,
    /// `a.empty()`
    Empty,
    /// `a.count()`
    Count,
    /// `a.first()`
    First,
    /// `a.children()`
    Children,
    /// `a.descendants()`
    Descendants,
    /// `a.not()`
    Not,
    /// `a.hasValue()` (FHIR R4, FHIRPath, additional functions)
    HasValue,
}

/// A function whose argument is evaluated for each item.
#[derive(Clone, Copy, Debug, PartialEq, Eq)]
pub enum Filter {
    /// `a.where(c)`
    Where,
    /// `a.exists(c)`
    Exists,
    /// `a.all(c)`
    All,
}

/// What is done with the name of a type.
#[derive(Clone, Copy, Debug, PartialEq, Eq)]
pub enum TypeTest {
    /// `a.ofType(T)`
    OfType,
    /// `a is T`
    Is,
    /// `a as T`
    As,
}

/// An expression. A function at the start of a path has `$this` before it. `FHIR.T` is the type T.
#[derive(Drop)]
pub enum Expr {
    /// `{}`
    Empty,
    /// `true` or `false`
    Boolean(bool),
    /// A number, as it is written.
    Number(String),
    /// A string, without its quotes and escapes.
    Text(String),
    /// `$this`
    This,
    /// `%resource`
    Resource,
    /// `%context`
    Context,
    /// A name at the start of a path.
    Name(String),
    /// A name behind a dot.
    Child(Box<Expr>, String),
    /// A function without an argument, and what it is called on.
    Call(Function, Box<Expr>),
    /// A test by a type's name, and what is tested.
    Typed(TypeTest, Box<Expr>, String),
    /// A function whose argument is evaluated for each item, what it is called on, and that argument.
    Filtered(Filter, Box<Expr>, Box<Expr>),
    /// An operator and its operands.
    Binary(Operator, Box<Expr>, Box<Expr>),
}
