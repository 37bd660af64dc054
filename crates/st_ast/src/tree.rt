//! The tree of a Structured Text program (IEC 61131-3, "Structured Text").

ghost use Rattle.std.specs.Prelude.{◌≡◌, true};
ghost use Rattle.st_ast.specs.Parts.{program_of_parts};
ghost use Rattle.st_ast.specs.Spelled.{is_spelled};

use cif_base::{Boxed, Items, Text};

/// The block in which a variable is declared: `VAR`, `VAR CONSTANT`, `VAR_INPUT` or `VAR_OUTPUT`.
#[derive(Clone, Copy, Debug, PartialEq, Eq)]
pub enum StClass {
    Plain,
    Constant,
    Input,
    Output,
}

/// A type: `BOOL`, `LINT`, or the subrange of `LINT` from `lo` to `hi`.
#[derive(Clone, Copy, Debug, PartialEq, Eq)]
pub enum StTy {
    Bool,
    Lint,
    Range { lo: i64, hi: i64 },
}

/// A literal as the first value of a variable.
#[derive(Clone, Copy, Debug, PartialEq, Eq)]
pub enum StLit {
    Bool(bool),
    Int(i64),
}

/// How many bits an address names: one, 32 or 64.
#[derive(Clone, Copy, Debug, PartialEq, Eq)]
pub enum Size {
    Bit,
    Double,
    Long,
}

/// The address of an input or of an output (IEC 61131-3, "Directly represented variables"). `bit` is 0 where the size is not
/// `Bit`.
#[derive(Clone, Copy, Debug, PartialEq, Eq)]
pub struct Address {
    pub input: bool,
    pub size: Size,
    pub byte: u32,
    pub bit: u32,
}

/// The declaration of a variable. No text gives one an address so far: `at` is always None.
#[derive(Debug, Drop)]
pub struct StVar {
    pub name: Text,
    pub class: StClass,
    pub ty: StTy,
    pub init: Option<StLit>,
    pub at: Option<Address>,
}

/// An operator of products: `*`, `/`, `MOD`.
#[derive(Clone, Copy, Debug, PartialEq, Eq)]
pub enum StMul {
    Times,
    Div,
    Mod,
}

/// An order: `<`, `>`, `<=`, `>=`.
#[derive(Clone, Copy, Debug, PartialEq, Eq)]
pub enum StOrder {
    Lt,
    Gt,
    Le,
    Ge,
}

/// An expression. A list of operands of one level is one form. `Sel` has the condition first, then the value where it is FALSE,
/// and then the one where it is TRUE.
#[cycle(expressions)]
#[derive(Debug, Drop)]
pub enum StExpr {
    Bool(bool),
    Int(i64),
    Named(Text),
    Paren(Boxed<StExpr>),
    Neg(Boxed<StExpr>),
    Not(Boxed<StExpr>),
    Product {
        first: Boxed<StExpr>,
        rest: Items<StFactor>,
    },
    Sum {
        first: Boxed<StExpr>,
        rest: Items<StTerm>,
    },
    Order {
        left: Boxed<StExpr>,
        op: StOrder,
        right: Boxed<StExpr>,
    },
    Equal {
        left: Boxed<StExpr>,
        equal: bool,
        right: Boxed<StExpr>,
    },
    And(Items<StExpr>),
    Xor(Items<StExpr>),
    Or(Items<StExpr>),
    Abs(Boxed<StExpr>),
    Min(Boxed<StExpr>, Boxed<StExpr>),
    Max(Boxed<StExpr>, Boxed<StExpr>),
    Sel(Boxed<StExpr>, Boxed<StExpr>, Boxed<StExpr>),
}

/// A further operand of a product, with the operator before it.
#[cycle(expressions)]
#[derive(Debug, Drop)]
pub struct StFactor {
    pub op: StMul,
    pub value: StExpr,
}

/// A further operand of a sum, added or, where `minus` is set, subtracted.
#[cycle(expressions)]
#[derive(Debug, Drop)]
pub struct StTerm {
    pub minus: bool,
    pub value: StExpr,
}

/// A statement. `other` is what stands after `ELSE`, if it is there.
#[cycle(statements)]
#[derive(Debug, Drop)]
pub enum Stmt {
    Assign {
        target: Text,
        value: StExpr,
    },
    If {
        branches: Items<StBranch>,
        other: Option<Items<Stmt>>,
    },
    While {
        cond: StExpr,
        body: Items<Stmt>,
    },
}

/// A condition after `IF` or `ELSIF`, and what stands after its `THEN`.
#[cycle(statements)]
#[derive(Debug, Drop)]
pub struct StBranch {
    pub cond: StExpr,
    pub body: Items<Stmt>,
}

/// A program: its name, its variables in the order of declaration, and its statements. It has a spelling: there is a text
/// whose tokens derive it.
#[derive(Debug, Drop)]
pub struct Program {
    pub name: Text,
    pub vars: Items<StVar>,
    pub body: Items<Stmt>,
    pub ghost spelled: { is_spelled (program_of_parts name vars body) ≡ true },
}
