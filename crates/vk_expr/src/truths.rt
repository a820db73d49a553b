ghost use Rattle.std.specs.Prelude.{◌≡◌};
ghost use Rattle.vk_spec.specs.Conditions.{holds, all_hold, any_holds};
ghost use Rattle.vk_expr.specs.Views.{condition_of};

use crate::exprs::Expr;
use crate::marks::Marks;

/// Whether an expression is true where these marks hold and no others. Takes no memory.
pub fn truth(e: &Expr, marks: &Marks) -> bool
    ensures { result ≡ holds (condition_of e.now) marks.now.names }
{
    match e {
        Expr::Always => true,
        Expr::Mark(name) => marks.has(name.as_str()),
        Expr::Not(member) => !truth(member, marks),
        Expr::All(members) => {
            for member in members {
                if !truth(member, marks) {
                    return false;
                }
            }
            true
        }
        Expr::Any(members) => {
            for member in members {
                if truth(member, marks) {
                    return true;
                }
            }
            false
        }
    }
}
