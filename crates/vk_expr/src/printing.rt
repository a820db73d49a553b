ghost use Rattle.std.specs.Prelude.{◌≡◌, ◌++◌, map, IfOk, OnOk};
ghost use Rattle.vk_spec.specs.Conditions.{conditions_of};
ghost use Rattle.vk_expr.specs.Printing.{opening, closing, printed, printed_as, members_of};
ghost use Rattle.vk_expr.specs.Views.{condition_of};

use crate::exprs::Expr;
use std::alloc::Global;
use vk_base::{Memory, Text};

fn opening(member: bool) -> &'static str
    ensures { result.now ≡ opening member }
{
    if member { "(" } else { "" }
}

fn closing(member: bool) -> &'static str
    ensures { result.now ≡ closing member }
{
    if member { ")" } else { "" }
}

/// Puts members at the end, with a sign between them.
#[cycle(members)]
fn push_members(out: &mut Text, members: &[Expr], sign: &str) -> Result<(), Memory>
    ensures { OnOk result (out.new
        ≡ out.old ++ members_of sign.now (conditions_of (map condition_of members.now))) }
{
    let mut between = "";
    for member in members {
        out.push_str(between)?;
        push(out, member, true)?;
        between = sign;
    }
    Ok(())
}

/// Puts a chain at the end.
#[cycle(members)]
fn push_chain(out: &mut Text, members: &[Expr], sign: &str, member: bool) -> Result<(), Memory>
    ensures { OnOk result (out.new
        ≡ out.old ++ (opening member
        ++ (members_of sign.now (conditions_of (map condition_of members.now))
        ++ closing member))) }
{
    out.push_str(opening(member))?;
    push_members(out, members, sign)?;
    out.push_str(closing(member))?;
    Ok(())
}

/// Puts an expression at the end, told whether it is a member.
#[cycle(members)]
fn push(out: &mut Text, e: &Expr, member: bool) -> Result<(), Memory>
    ensures { OnOk result (out.new ≡ out.old ++ printed_as member (condition_of e.now)) }
{
    match e {
        Expr::Always => Ok(()),
        Expr::Mark(name) => Ok(out.push_str(name.as_str())?),
        Expr::Not(inner) => {
            out.push_str("!")?;
            push(out, inner, true)
        }
        Expr::All(members) => push_chain(out, members, " & ", member),
        Expr::Any(members) => push_chain(out, members, " | ", member),
    }
}

/// Prints an expression: `!` before a NOT's member, ` & ` and ` | ` between members, parentheses
/// round a member that is a chain. `Always` prints as the empty text. What was read and is printed
/// reads as the same expression.
pub fn print(alloc: Global, e: &Expr) -> Result<Text, Memory>
    ensures { IfOk result (λ t. t ≡ printed (condition_of e.now)) }
{
    let mut out = Text::new(alloc);
    push(&mut out, e, false)?;
    Ok(out)
}
