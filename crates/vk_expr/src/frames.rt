ghost use Rattle.std.specs.Prelude.{◌≡◌, Ok, map};
ghost use Rattle.vk_spec.specs.Reading.{Gives};
ghost use Rattle.vk_expr.specs.Grammar.{joined_by};
ghost use Rattle.vk_expr.specs.Reading.{value_of, cut_off};
ghost use Rattle.vk_expr.specs.Views.{condition_of};
ghost use Rattle.vk_base.specs.Stops.{fault_in};
ghost use Rattle.vk_expr.specs.ReaderViews.{joint_of, chain_of, frame_of, frames_of, is_pending};
ghost use Rattle.vk_expr.specs.ReaderViews.{is_negated};

use crate::exprs::Expr;
use crate::faults::ExprFault;
use crate::tokens::Joint;
use vk_base::{List, Unread};

/// The members of a level that ended with an operator.
#[derive(Drop)]
pub(crate) enum Chain {
    Single,
    Joined(Joint, List<Expr>),
}

/// What is pending: a NOT, or a parenthesis at a place, and the chain that it stands in.
#[derive(Drop)]
pub(crate) enum Frame {
    Pending,
    Around(u32, Chain),
}

/// Members that are joined.
fn joined(joint: Joint, members: List<Expr>) -> Expr
    ensures { condition_of result ≡ joined_by (joint_of joint) (map condition_of members) }
{
    match joint {
        Joint::Both => Expr::All(members.into_vec()),
        Joint::Either => Expr::Any(members.into_vec()),
    }
}

/// The value of a level with its last member.
pub(crate) fn value(chain: Chain, last: Expr) -> Result<Expr, Unread<ExprFault>>
    ensures { Gives condition_of fault_in result
        (Ok (value_of (chain_of chain) (condition_of last))) }
{
    match chain {
        Chain::Single => Ok(last),
        Chain::Joined(joint, mut members) => {
            members.push(last)?;
            Ok(joined(joint, members))
        }
    }
}

fn is_pending(frame: &Frame) -> bool
    ensures { result ≡ is_pending (frame_of frame.now) }
{
    match frame {
        Frame::Pending => true,
        Frame::Around(_, _) => false,
    }
}

/// Whether a NOT is the innermost that is pending.
pub(crate) fn is_negated(frames: &List<Frame>) -> bool
    ensures { result ≡ is_negated (frames_of frames.now) }
{
    match frames.as_slice().split_last() {
        None => false,
        Some((last, _)) => is_pending(last),
    }
}

/// The fault of a text that ends here.
pub(crate) fn cut_off(mut frames: List<Frame>, length: u32) -> ExprFault
    ensures { result ≡ cut_off length (frames_of frames) }
{
    loop {
        match frames.pop() {
            None => return ExprFault::Unexpected { at: length },
            Some(Frame::Around(at, _)) => return ExprFault::Open { at },
            Some(Frame::Pending) => {}
        }
    }
}
