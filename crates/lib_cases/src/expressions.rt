//! Expressions of a net as they are written in cases: those of a CIF source over variables with names of one letter.

use case_text::Fault;
use cif_ast::{Branch, CmpOp, Expr, Factor, Form, MulOp, Name, Term};
use cif_base::{Boxed, Items, Memory};
use cif_lex::lex;
use cif_net_expr::{NetBranch, NetExpr, NetFactor, NetForm, NetTerm};
use cif_parse_expr::expr;
use std::alloc::Global;

/// The most bytes of a source.
const MOST_BYTES: usize = 4_194_304;

/// The expression that a text is.
pub fn expression_of(alloc: Global, text: &[u8]) -> Result<Boxed<NetExpr>, Fault> {
    if text.len() > MOST_BYTES {
        return Err(Fault::Form("a source has at most 4194304 bytes"));
    }
    let Ok(tokens) = lex(alloc, text) else {
        return Err(Fault::Form("no tokens"));
    };
    match expr(alloc, text, tokens.as_slice()) {
        Ok((tree, rest)) if rest.is_empty() => Ok(net_of(tree.get(), alloc)?),
        _ => Err(Fault::Form("no expression")),
    }
}

/// The number of a variable: `a` is 0, `b` is 1 and so on.
fn number_of(name: &Name) -> u32 {
    match name.parts.get(0) {
        Some(part) => match part.text.get(0) {
            Some(letter) => u32::from(letter.saturating_sub(b'a')),
            None => 0,
        },
        None => 0,
    }
}

fn operator_of(op: CmpOp) -> cif_net_expr::CmpOp {
    match op {
        CmpOp::Eq => cif_net_expr::CmpOp::Eq,
        CmpOp::Ne => cif_net_expr::CmpOp::Ne,
        CmpOp::Lt => cif_net_expr::CmpOp::Lt,
        CmpOp::Le => cif_net_expr::CmpOp::Le,
        CmpOp::Gt => cif_net_expr::CmpOp::Gt,
        CmpOp::Ge => cif_net_expr::CmpOp::Ge,
    }
}

fn factor_of(op: MulOp) -> cif_net_expr::MulOp {
    match op {
        MulOp::Times => cif_net_expr::MulOp::Times,
        MulOp::Div => cif_net_expr::MulOp::Div,
        MulOp::Mod => cif_net_expr::MulOp::Mod,
    }
}

#[cycle(nets)]
fn net_of(e: &Expr, alloc: Global) -> Result<Boxed<NetExpr>, Memory> {
    let form = form_of(&e.form, alloc)?.into_inner();
    Boxed::new(alloc, NetExpr { form, at: e.at })
}

#[cycle(nets)]
fn form_of(form: &Form, alloc: Global) -> Result<Boxed<NetForm>, Memory> {
    let net = match form {
        Form::Bool(value) => NetForm::Bool(*value),
        Form::Int(value) => NetForm::Int(*value),
        Form::Named(name) => NetForm::Var(number_of(name)),
        Form::Received => NetForm::Received,
        Form::Paren(a) => net_of(a.get(), alloc)?.into_inner().form,
        Form::Plus(a) => NetForm::Plus(net_of(a.get(), alloc)?),
        Form::Neg(a) => NetForm::Neg(net_of(a.get(), alloc)?),
        Form::Not(a) => NetForm::Not(net_of(a.get(), alloc)?),
        Form::Abs(a) => NetForm::Abs(net_of(a.get(), alloc)?),
        Form::Min(a, b) => NetForm::Min(net_of(a.get(), alloc)?, net_of(b.get(), alloc)?),
        Form::Max(a, b) => NetForm::Max(net_of(a.get(), alloc)?, net_of(b.get(), alloc)?),
        Form::Sum { first, rest } => NetForm::Sum {
            first: net_of(first.get(), alloc)?,
            rest: terms_of(rest.as_slice(), alloc)?,
        },
        Form::Product { first, rest } => NetForm::Product {
            first: net_of(first.get(), alloc)?,
            rest: factors_of(rest.as_slice(), alloc)?,
        },
        Form::Compare { left, op, right } => NetForm::Compare {
            left: net_of(left.get(), alloc)?,
            op: operator_of(*op),
            right: net_of(right.get(), alloc)?,
        },
        Form::And(all) => NetForm::And(all_of(all.as_slice(), alloc)?),
        Form::Or(all) => NetForm::Or(all_of(all.as_slice(), alloc)?),
        Form::Implies(a, b) => NetForm::Implies(net_of(a.get(), alloc)?, net_of(b.get(), alloc)?),
        Form::Iff(a, b) => NetForm::Iff(net_of(a.get(), alloc)?, net_of(b.get(), alloc)?),
        Form::If { branches, other } => NetForm::If {
            branches: branches_of(branches.as_slice(), alloc)?,
            other: net_of(other.get(), alloc)?,
        },
    };
    Boxed::new(alloc, net)
}

#[cycle(nets)]
fn terms_of(all: &[Term], alloc: Global) -> Result<Items<NetTerm>, Memory> {
    let mut terms = Items::new(alloc);
    for term in all {
        let value = net_of(&term.value, alloc)?.into_inner();
        terms.push(NetTerm {
            minus: term.minus,
            value,
        })?;
    }
    Ok(terms)
}

#[cycle(nets)]
fn factors_of(all: &[Factor], alloc: Global) -> Result<Items<NetFactor>, Memory> {
    let mut factors = Items::new(alloc);
    for factor in all {
        let op = factor_of(factor.op);
        let value = net_of(&factor.value, alloc)?.into_inner();
        factors.push(NetFactor { op, value })?;
    }
    Ok(factors)
}

#[cycle(nets)]
fn all_of(all: &[Expr], alloc: Global) -> Result<Items<NetExpr>, Memory> {
    let mut found = Items::new(alloc);
    for one in all {
        found.push(net_of(one, alloc)?.into_inner())?;
    }
    Ok(found)
}

/// Several conditions of a branch are one conjunction, with the place of the first.
#[cycle(nets)]
fn condition_of(all: &[Expr], alloc: Global) -> Result<Boxed<NetExpr>, Memory> {
    match all {
        [only] => net_of(only, alloc),
        _ => {
            let at = match all.first() {
                Some(first) => first.at,
                None => 0,
            };
            let form = NetForm::And(all_of(all, alloc)?);
            Boxed::new(alloc, NetExpr { form, at })
        }
    }
}

#[cycle(nets)]
fn branches_of(all: &[Branch], alloc: Global) -> Result<Items<NetBranch>, Memory> {
    let mut branches = Items::new(alloc);
    for branch in all {
        let cond = condition_of(branch.conds.as_slice(), alloc)?.into_inner();
        let value = net_of(&branch.value, alloc)?.into_inner();
        branches.push(NetBranch { cond, value })?;
    }
    Ok(branches)
}
