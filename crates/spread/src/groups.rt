// The groups of a spread list: which kind of word each is, and what is wrong at the first place in the list.
ghost use Rattle.std.specs.Prelude.{◌≡◌, ◌<◌, length, drop};
ghost use Rattle.model.specs.Fields.{widths_of, kept_fields};
ghost use Rattle.model.specs.Spread.{known_op, kind_of_op, kind_at, judged, op_known, judged_group, scan};

use crate::kept::{fits_kept, size_of};
use model::{Kind, Refusal, Refused, Scan};

#[tactic(auto, unfolding(model::specs::Spread::known_op))]
fn known_op(op: u32) -> bool
    ensures { result ≡ known_op op }
{
    matches!(
        op,
        words::VAR_OP | words::CON_OP | words::CLAUSE_OP | words::GOAL_OP
    )
}

#[tactic(auto, unfolding(model::specs::Spread::kind_of_op))]
fn kind_of_op(op: u32) -> Kind
    ensures { result ≡ kind_of_op op }
{
    match op {
        words::VAR_OP => Kind::Var,
        words::CON_OP => Kind::Con,
        words::CLAUSE_OP => Kind::Clause,
        _ => Kind::Goal,
    }
}

// The kind of the word at a number, counted from the header, where the header says `count` predicates.
#[tactic(auto, unfolding(model::specs::Spread::kind_at))]
pub fn kind_at(count: u32, number: usize, op: u32) -> Kind
    ensures { result ≡ kind_at count number op }
{
    if number == 0 {
        return Kind::Header;
    }
    if number <= count as usize {
        return Kind::Predicate;
    }
    kind_of_op(op)
}

#[tactic(auto, unfolding(model::specs::Spread::op_known))]
fn op_known(count: u32, number: usize, op: u32) -> bool
    ensures { result ≡ op_known count number op }
{
    number <= count as usize || known_op(op)
}

// The values of one group: 19 at the list's length, 18 at the value.
fn judge(list: &[u32], kind: Kind, at: usize) -> Scan
    requires { at < length list.now }
    ensures { result ≡ judged (widths_of kind) (kept_fields kind) at (drop at list.now) }
{
    let size = size_of(kind);
    for j in 0..size {
        let place = at + j;
        if list.len() <= place {
            return Err(Refused(Refusal::ListEnds, place));
        }
        if !fits_kept(list[place], kind, j) {
            return Err(Refused(Refusal::TooWide, place));
        }
    }
    Ok(at + size)
}

// An op is only known or unknown: its width is not judged.
fn judge_group(list: &[u32], count: u32, number: usize, at: usize) -> Scan
    requires { at < length list.now }
    ensures { result ≡ judged_group count number at (drop at list.now) }
{
    let first = list[at];
    if !op_known(count, number, first) {
        return Err(Refused(Refusal::UnknownOp, at));
    }
    let kind = kind_at(count, number, first);
    judge(list, kind, at)
}

// What is wrong with a list at its first place, or the count of its words. Groups have unequal lengths, so their places are not counted.
pub fn scan_list(list: &[u32]) -> Scan
    ensures { result ≡ scan list.now }
{
    let count = words::word_at(list, 1);
    let mut at: usize = 0;
    let mut number: usize = 0;
    while at < list.len() {
        at = judge_group(list, count, number, at)?;
        number += 1;
    }
    Ok(number)
}
