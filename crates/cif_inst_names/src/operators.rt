//! Operators of a source as those of a flat net.

ghost use Rattle.std.specs.Prelude.{◌≡◌};
ghost use Rattle.cif_net_expr.specs.View.{view_cmp, view_mul};
ghost use Rattle.cif_inst_model.specs.Translation.{net_comparison, net_factor};

pub fn comparison(op: cif_ast::CmpOp) -> cif_net_expr::CmpOp
    ensures { view_cmp result ≡ net_comparison op }
{
    match op {
        cif_ast::CmpOp::Eq => cif_net_expr::CmpOp::Eq,
        cif_ast::CmpOp::Ne => cif_net_expr::CmpOp::Ne,
        cif_ast::CmpOp::Lt => cif_net_expr::CmpOp::Lt,
        cif_ast::CmpOp::Le => cif_net_expr::CmpOp::Le,
        cif_ast::CmpOp::Gt => cif_net_expr::CmpOp::Gt,
        cif_ast::CmpOp::Ge => cif_net_expr::CmpOp::Ge,
    }
}

pub fn factor(op: cif_ast::MulOp) -> cif_net_expr::MulOp
    ensures { view_mul result ≡ net_factor op }
{
    match op {
        cif_ast::MulOp::Times => cif_net_expr::MulOp::Times,
        cif_ast::MulOp::Div => cif_net_expr::MulOp::Div,
        cif_ast::MulOp::Mod => cif_net_expr::MulOp::Mod,
    }
}
