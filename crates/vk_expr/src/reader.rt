ghost use Rattle.std.specs.Prelude.{◌≡◌, ◌∷◌, ◌++◌, map, ◌+◌, ◌<◌, ◌^◌, [], length, drop};
ghost use Rattle.std.specs.Prelude.{slice_index, option_map, option_to_list, Ok};
ghost use Rattle.std.specs.List.{list_all};
ghost use Rattle.vk_spec.specs.Reading.{Gives};
ghost use Rattle.vk_spec.specs.Conditions.{negation};
ghost use Rattle.vk_expr.specs.Tokens.{token, tokens_of, sign_begun, is_blank};
ghost use Rattle.vk_expr.specs.Reading.{wanted, ended, settled, deeper, joined_on, closed_on};
ghost use Rattle.vk_expr.specs.Reading.{same_joint, joined, start, step, steps, at_end, reading_of};
ghost use Rattle.vk_expr.specs.Views.{condition_of};
ghost use Rattle.vk_base.specs.Stops.{fault_in};
ghost use Rattle.vk_expr.specs.ReaderViews.{joint_of, sign_of, chain_of, frame_of, frames_of};
ghost use Rattle.vk_expr.specs.ReaderViews.{state_of};
ghost use Rattle.vk_expr.specs.declared.faults.ExprFault.TheVariants as fault;

use crate::exprs::Expr;
use crate::faults::ExprFault;
use crate::frames::{Chain, Frame, cut_off, is_negated, value};
use crate::tokens::{Joint, Sign, is_blank, is_word_byte, sign_at};
use std::alloc::Global;
use vk_base::{List, Unread};

/// What the tokens so far have led to.
#[derive(Drop)]
pub(crate) enum State {
    Wanted(List<Frame>, Chain),
    Ended(List<Frame>, Chain, Expr),
}

fn negation(alloc: Global, member: Expr) -> Result<Expr, Unread<ExprFault>>
    ensures { Gives condition_of fault_in result (Ok (negation (condition_of member))) }
{
    Ok(Expr::Not(Box::new(alloc, member)?))
}

/// A unary has ended: so have the NOTs before it.
fn settled(
    alloc: Global,
    mut frames: List<Frame>,
    chain: Chain,
    mut value: Expr,
) -> Result<State, Unread<ExprFault>>
    ensures { Gives state_of fault_in result
        (Ok (settled (frames_of frames) (chain_of chain) (condition_of value))) }
{
    while is_negated(&frames) {
        frames.pop();
        value = negation(alloc, value)?;
    }
    Ok(State::Ended(frames, chain, value))
}

/// What stands at a place can't: what was read before it is let go.
fn unexpected(frames: List<Frame>, chain: Chain, last: Expr, at: u32) -> ExprFault
    ensures { result ≡ fault.Unexpected at }
{
    drop(frames);
    drop(chain);
    drop(last);
    ExprFault::Unexpected { at }
}

/// One more NOT or parenthesis.
fn deeper(mut frames: List<Frame>, frame: Frame, chain: Chain) -> Result<State, Unread<ExprFault>>
    ensures { Gives state_of fault_in result
        (deeper (frames_of frames) (frame_of frame) (chain_of chain)) }
{
    if frames.len() >= 64 {
        return Err(Unread::Fault(ExprFault::Deep));
    }
    frames.push(frame)?;
    Ok(State::Wanted(frames, chain))
}

/// What a token leads to where a unary is wanted.
#[tactic(auto, unfolding(crate::specs::Reading::step))]
fn step_wanted(
    alloc: Global,
    frames: List<Frame>,
    chain: Chain,
    at: u32,
    sign: Sign,
) -> Result<State, Unread<ExprFault>>
    ensures { Gives state_of fault_in result
        (step (wanted (frames_of frames) (chain_of chain)) (token at (sign_of sign))) }
{
    match sign {
        Sign::Name(word) => settled(alloc, frames, chain, Expr::Mark(word)),
        Sign::Negates => deeper(frames, Frame::Pending, chain),
        Sign::Opens => deeper(frames, Frame::Around(at, chain), Chain::Single),
        Sign::Joins(_) => Err(Unread::Fault(ExprFault::Unexpected { at })),
        Sign::Closes => Err(Unread::Fault(ExprFault::Unexpected { at })),
        Sign::Stray => Err(Unread::Fault(ExprFault::Unexpected { at })),
    }
}

/// A chain begins with its first member.
fn begun(
    alloc: Global,
    frames: List<Frame>,
    joint: Joint,
    first: Expr,
) -> Result<State, Unread<ExprFault>>
    ensures { Gives state_of fault_in result
        (Ok (wanted (frames_of frames) (joined (joint_of joint) (condition_of first ∷ [])))) }
{
    let mut members = List::new(alloc);
    members.push(first)?;
    Ok(State::Wanted(frames, Chain::Joined(joint, members)))
}

/// A chain has one member more.
fn grown(
    frames: List<Frame>,
    joint: Joint,
    mut members: List<Expr>,
    member: Expr,
) -> Result<State, Unread<ExprFault>>
    ensures { Gives state_of fault_in result
        (Ok (wanted (frames_of frames)
        (joined (joint_of joint) (map condition_of members ++ condition_of member ∷ [])))) }
{
    members.push(member)?;
    Ok(State::Wanted(frames, Chain::Joined(joint, members)))
}

fn is_same(one: Joint, other: Joint) -> bool
    ensures { result ≡ same_joint (joint_of one) (joint_of other) }
{
    one == other
}

/// An operator after a unary, and after a chain.
fn joined_later(
    frames: List<Frame>,
    joint: Joint,
    members: List<Expr>,
    member: Expr,
    at: u32,
    operator: Joint,
) -> Result<State, Unread<ExprFault>>
    ensures { Gives state_of fault_in result
        (joined_on at (joint_of operator) (frames_of frames)
        (joined (joint_of joint) (map condition_of members)) (condition_of member)) }
{
    if is_same(operator, joint) {
        grown(frames, joint, members, member)
    } else {
        Err(Unread::Fault(ExprFault::Mixed { at }))
    }
}

/// An operator after a unary.
fn joined_on(
    alloc: Global,
    frames: List<Frame>,
    chain: Chain,
    member: Expr,
    at: u32,
    joint: Joint,
) -> Result<State, Unread<ExprFault>>
    ensures { Gives state_of fault_in result
        (joined_on at (joint_of joint) (frames_of frames) (chain_of chain) (condition_of member)) }
{
    match chain {
        Chain::Single => begun(alloc, frames, joint, member),
        Chain::Joined(other, members) => joined_later(frames, other, members, member, at, joint),
    }
}

/// A closing parenthesis after a unary, where this is the innermost that is pending.
fn closed(
    alloc: Global,
    frames: List<Frame>,
    innermost: Frame,
    chain: Chain,
    last: Expr,
    at: u32,
) -> Result<State, Unread<ExprFault>>
    ensures { Gives state_of fault_in result
        (closed_on at (frame_of innermost ∷ frames_of frames) (chain_of chain)
        (condition_of last)) }
{
    match innermost {
        Frame::Pending => Err(Unread::Fault(unexpected(frames, chain, last, at))),
        Frame::Around(_, outer) => settled(alloc, frames, outer, value(chain, last)?),
    }
}

/// A closing parenthesis after a unary.
fn closed_on(
    alloc: Global,
    mut frames: List<Frame>,
    chain: Chain,
    last: Expr,
    at: u32,
) -> Result<State, Unread<ExprFault>>
    ensures { Gives state_of fault_in result
        (closed_on at (frames_of frames) (chain_of chain) (condition_of last)) }
{
    match frames.pop() {
        None => Err(Unread::Fault(unexpected(frames, chain, last, at))),
        Some(innermost) => closed(alloc, frames, innermost, chain, last, at),
    }
}

/// What a token leads to after a unary.
#[tactic(auto, unfolding(crate::specs::Reading::step))]
fn step_ended(
    alloc: Global,
    frames: List<Frame>,
    chain: Chain,
    last: Expr,
    at: u32,
    sign: Sign,
) -> Result<State, Unread<ExprFault>>
    ensures { Gives state_of fault_in result
        (step (ended (frames_of frames) (chain_of chain) (condition_of last))
        (token at (sign_of sign))) }
{
    match sign {
        Sign::Joins(joint) => joined_on(alloc, frames, chain, last, at, joint),
        Sign::Closes => closed_on(alloc, frames, chain, last, at),
        Sign::Name(word) => {
            drop(word);
            Err(Unread::Fault(unexpected(frames, chain, last, at)))
        }
        Sign::Negates => Err(Unread::Fault(unexpected(frames, chain, last, at))),
        Sign::Opens => Err(Unread::Fault(unexpected(frames, chain, last, at))),
        Sign::Stray => Err(Unread::Fault(unexpected(frames, chain, last, at))),
    }
}

/// What a token leads to.
fn step(alloc: Global, state: State, at: u32, sign: Sign) -> Result<State, Unread<ExprFault>>
    ensures { Gives state_of fault_in result (step (state_of state) (token at (sign_of sign))) }
{
    match state {
        State::Wanted(frames, chain) => step_wanted(alloc, frames, chain, at, sign),
        State::Ended(frames, chain, last) => step_ended(alloc, frames, chain, last, at, sign),
    }
}

/// What a token leads to, if one begins here.
#[tactic(auto, unfolding(crate::specs::Reading::steps))]
fn step_maybe(
    alloc: Global,
    state: State,
    at: u32,
    sign: Option<Sign>,
) -> Result<State, Unread<ExprFault>>
    ensures { Gives state_of fault_in result
        (steps (state_of state) (option_to_list
        (option_map (token at) (option_map sign_of sign)))) }
{
    match sign {
        None => Ok(state),
        Some(sign) => step(alloc, state, at, sign),
    }
}

/// What a byte leads to, told whether the byte before is of a word.
fn step_byte(
    alloc: Global,
    state: State,
    bytes: &[u8],
    at: usize,
    inside: bool,
) -> Result<State, Unread<ExprFault>>
    requires short { length bytes.now < 2 ^ 32 }
    requires within { at < length bytes.now }
    ensures { Gives state_of fault_in result
        (steps (state_of state) (option_to_list
        (option_map (token at)
        (sign_begun inside (slice_index bytes.now at) (drop (at + 1) bytes.now))))) }
{
    let sign = sign_at(alloc, bytes, at, inside)?;
    step_maybe(alloc, state, at as u32, sign)
}

/// What all tokens of a text lead to.
fn run(alloc: Global, bytes: &[u8]) -> Result<State, Unread<ExprFault>>
    requires short { length bytes.now < 2 ^ 32 }
    ensures { Gives state_of fault_in result (steps start (tokens_of bytes.now)) }
{
    let mut state = State::Wanted(List::new(alloc), Chain::Single);
    let mut inside = false;
    for (at, byte) in bytes.iter().enumerate() {
        state = step_byte(alloc, state, bytes, at, inside)?;
        inside = is_word_byte(*byte);
    }
    Ok(state)
}

/// What the end of a text makes of a level whose last member has ended.
#[tactic(auto, unfolding(crate::specs::Reading::at_end))]
fn finish_ended(
    frames: List<Frame>,
    chain: Chain,
    last: Expr,
    length: u32,
) -> Result<Expr, Unread<ExprFault>>
    ensures { Gives condition_of fault_in result
        (at_end length (ended (frames_of frames) (chain_of chain) (condition_of last))) }
{
    if frames.is_empty() {
        value(chain, last)
    } else {
        Err(Unread::Fault(cut_off(frames, length)))
    }
}

/// What the end of a text makes of what its tokens led to.
#[tactic(auto, unfolding(crate::specs::Reading::at_end))]
fn finish(state: State, length: u32) -> Result<Expr, Unread<ExprFault>>
    ensures { Gives condition_of fault_in result (at_end length (state_of state)) }
{
    match state {
        State::Wanted(frames, _) => Err(Unread::Fault(cut_off(frames, length))),
        State::Ended(frames, chain, last) => finish_ended(frames, chain, last, length),
    }
}

fn is_blank_text(bytes: &[u8]) -> bool
    ensures { result ≡ list_all is_blank bytes.now }
{
    bytes.iter().all(|byte| is_blank(*byte))
}

/// Reads a platform expression in one pass from left to right. A text of blanks alone is `Always`.
/// NOT is `!` or `not`, AND is `&` or `and`, OR is `|` or `,`; a level has ANDs or ORs, never both.
/// Otherwise the first fault is told, at the first token such that no readable text begins with the
/// tokens up to it: `Mixed` where the other operator could stand, `Deep` for a NOT or parenthesis
/// where a name could stand, since more than 64 would be open, and else `Unexpected`. Where the
/// text ends too early it is `Open` at the innermost parenthesis that isn't closed, or `Unexpected`
/// at the end.
#[tactic(auto, unfolding(crate::specs::Reading::reading_of))]
pub fn read(alloc: Global, text: &str) -> Result<Expr, Unread<ExprFault>>
    requires short { length text.now < 2 ^ 32 }
    ensures { Gives condition_of fault_in result (reading_of text.now) }
{
    let bytes = text.as_bytes();
    if is_blank_text(bytes) {
        return Ok(Expr::Always);
    }
    let state = run(alloc, bytes)?;
    finish(state, bytes.len() as u32)
}
