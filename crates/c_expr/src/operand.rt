ghost use Rattle.std.specs.Prelude.{◌≡◌, ◌-◌, IfOk, ℕ};
ghost use Rattle.c_reading.specs.ReadExpr.{operators, name_from};
ghost use Rattle.c_raw.specs.Tokens.{ident_view};
ghost use Rattle.c_raw.specs.Exprs.{expr_view};
ghost use Rattle.c_raw.specs.Simples.{index_view};
ghost use Rattle.c_expr.specs.Operators.{index_operators};

use c_raw::{Expr, Ident, Place};
use cfix_base::NoMemory;
use sqlite_items::Boxed;
use std::alloc::Global;

/// An expression that was read, and how many binary operators more its chain may have.
#[derive(Drop)]
pub struct Operand {
    pub expr: Expr,
    pub left: u32,
}

/// The index behind a name, if there is one, and how many binary operators more the chain may have.
#[derive(Drop)]
pub struct Indexed {
    pub place: Option<Place>,
    pub left: u32,
}

/// A name, with the index behind it where there is one.
pub(crate) fn with_index(alloc: Global, name: Ident, indexed: Indexed) -> Result<Operand, NoMemory>
    ensures expr { IfOk result (λ x. expr_view x.expr ≡ name_from (ident_view name, index_view indexed.place)) }
    ensures left { IfOk result (λ x. (n : ℕ) → indexed.left ≡ n - index_operators indexed.place → x.left ≡ n - operators (expr_view x.expr)) }
{
    let left = indexed.left;
    match indexed.place {
        None => {
            let expr = Expr::Name(name);
            Ok(Operand { expr, left })
        }
        Some(place) => {
            let Place {
                before,
                index,
                after,
            } = place;
            let index = Boxed::new(alloc, index)?;
            let expr = Expr::Index {
                name,
                before,
                index,
                after,
            };
            Ok(Operand { expr, left })
        }
    }
}
