// Binding of expressions and conditions.
ghost use Rattle.std.specs.Prelude.{◌≡◌, true, map, IfOk};
ghost use Rattle.std.specs.List.{list_all};
ghost use Rattle.ifdb_catalog.specs.Terms.{bound_cond, bound_expr, bound_operand, bound_where, is_known, is_known_cond, is_known_operand, where_is_known};
ghost use Rattle.ifdb_select.specs.Lacks.{RefusedUnless};

use crate::scope::{ScopeSource, resolve};
use ifdb_bound::{BoundCond, BoundConds, BoundExpr, BoundOperand};
use ifdb_syntax::{Cond, Conds, Expr, Operand};
use ifdb_value::{Box, Sequence};
use ifdb_wire::Fault;
use std::alloc::Global;

/// An expression with places for its columns. Costs its size.
#[tactic(auto, using(ifdb_catalog::proofs::Forms::expr_forms))]
pub fn bound_expr(alloc: Global, scope: &[ScopeSource<'_>], expr: &Expr) -> Result<BoundExpr, Fault>
    ensures known { IfOk result (λ _. is_known scope.now expr.now ≡ true) }
    ensures tree { IfOk result (λ tree. tree ≡ bound_expr scope.now expr.now) }
    ensures lacks { RefusedUnless (is_known scope.now expr.now) result }
{
    match expr {
        Expr::Column(column) => Ok(BoundExpr::Column(resolve(scope, column)?)),
        Expr::Literal(value) => Ok(BoundExpr::Literal(value.share()?)),
        Expr::Add(left, right) => {
            let left = Box::new(alloc, bound_expr(alloc, scope, left.get())?)?;
            let right = Box::new(alloc, bound_expr(alloc, scope, right.get())?)?;
            Ok(BoundExpr::Add(left, right))
        }
        Expr::Sub(left, right) => {
            let left = Box::new(alloc, bound_expr(alloc, scope, left.get())?)?;
            let right = Box::new(alloc, bound_expr(alloc, scope, right.get())?)?;
            Ok(BoundExpr::Sub(left, right))
        }
        Expr::Mul(left, right) => {
            let left = Box::new(alloc, bound_expr(alloc, scope, left.get())?)?;
            let right = Box::new(alloc, bound_expr(alloc, scope, right.get())?)?;
            Ok(BoundExpr::Mul(left, right))
        }
    }
}

/// An operand with a place for its column.
fn bound_operand(
    alloc: Global,
    scope: &[ScopeSource<'_>],
    operand: &Operand,
) -> Result<BoundOperand, Fault>
    ensures known { IfOk result (λ _. is_known_operand scope.now operand.now ≡ true) }
    ensures tree { IfOk result (λ tree. tree ≡ bound_operand scope.now operand.now) }
    ensures lacks { RefusedUnless (is_known_operand scope.now operand.now) result }
{
    match operand {
        Operand::Column(column) => Ok(BoundOperand::Column(resolve(scope, column)?)),
        Operand::Literal(value) => Ok(BoundOperand::Literal(value.share()?)),
    }
}

/// A condition with places for its columns. Costs its size.
#[cycle(binds)]
#[tactic(auto, using(ifdb_catalog::proofs::Forms::cond_forms))]
fn bound_cond(alloc: Global, scope: &[ScopeSource<'_>], cond: &Cond) -> Result<BoundCond, Fault>
    ensures known { IfOk result (λ _. is_known_cond scope.now cond.now ≡ true) }
    ensures tree { IfOk result (λ tree. tree ≡ bound_cond scope.now cond.now) }
    ensures lacks { RefusedUnless (is_known_cond scope.now cond.now) result }
{
    match cond {
        Cond::Or(members) => Ok(BoundCond::Or(bound_members(alloc, scope, members)?)),
        Cond::And(members) => Ok(BoundCond::And(bound_members(alloc, scope, members)?)),
        Cond::Not(inner) => {
            let inner = Box::new(alloc, bound_cond(alloc, scope, inner.get())?)?;
            Ok(BoundCond::Not(inner))
        }
        Cond::Compare { left, how, right } => {
            let left = bound_operand(alloc, scope, left)?;
            let right = bound_operand(alloc, scope, right)?;
            Ok(BoundCond::Compare {
                left,
                how: *how,
                right,
            })
        }
        Cond::IsNull { operand, negated } => Ok(BoundCond::IsNull {
            operand: bound_operand(alloc, scope, operand)?,
            negated: *negated,
        }),
    }
}

/// The members with places for their columns, in order.
#[cycle(binds)]
fn bound_members(
    alloc: Global,
    scope: &[ScopeSource<'_>],
    members: &Conds,
) -> Result<BoundConds, Fault>
    ensures known { IfOk result (λ _. list_all (is_known_cond scope.now) members.now ≡ true) }
    ensures trees { IfOk result (λ trees. trees ≡ map (bound_cond scope.now) members.now) }
    ensures lacks { RefusedUnless (list_all (is_known_cond scope.now) members.now) result }
{
    let mut trees = Sequence::new(alloc);
    for member in members.items() {
        trees.push(bound_cond(alloc, scope, member)?)?;
    }
    Ok(trees)
}

/// What stands behind WHERE with places for its columns.
pub fn bound_where(
    alloc: Global,
    scope: &[ScopeSource<'_>],
    cond: &Option<Cond>,
) -> Result<Option<BoundCond>, Fault>
    ensures known { IfOk result (λ _. where_is_known scope.now cond.now ≡ true) }
    ensures tree { IfOk result (λ tree. tree ≡ bound_where scope.now cond.now) }
    ensures lacks { RefusedUnless (where_is_known scope.now cond.now) result }
{
    match cond {
        Some(cond) => Ok(Some(bound_cond(alloc, scope, cond)?)),
        None => Ok(None),
    }
}
