// One run: the lists are read, the calls made, and what they answer and leave is compared.
use crate::bits::Stop;
use crate::lists::Lists;
use crate::stored::{Answer, By, Call, Head, Outcome};
use by_profile::{
    profile_full_svd_decomposition, profile_ordered_svd_decomposition, profile_svd_decomposition,
};
use order::ordered::{Unordered, ordered_svd_decomposition};
use std::io::Read;
use svd::interface::{full_svd_decomposition, svd_decomposition};
use svd::report::Report;

// What a run came to: whether it is wrong on purpose, whether it was made by a profile, whether it
// agrees, what the accumulating call answered, or the plain one where that alone is made, and whether
// the ordered call put values in order. A wrong run agrees where not as many of its calls differ as are
// to.
// Kept: flags, since each is counted by itself, whatever the answer is.
#[derive(Clone, Copy)]
pub(crate) struct Made {
    pub(crate) wrong: bool,
    pub(crate) by_profile: bool,
    pub(crate) agrees: bool,
    pub(crate) answer: Result<Report, Unordered>,
    pub(crate) in_order: bool,
}

// The call on these lists, by settings or by a profile.
fn make(call: Call, head: &Head, lists: &mut Lists) -> Result<Report, Unordered> {
    let Head { rows, cols, by, .. } = *head;
    let Lists {
        matrix,
        u,
        v,
        values,
    } = lists;
    let b = matrix.as_mut_slice();
    let u = u.as_mut_slice();
    let v = v.as_mut_slice();
    let values = values.as_mut_slice();
    match (call, by) {
        (Call::Plain, By::Settings(s)) => Ok(svd_decomposition(b, rows, cols, s)?),
        (Call::Plain, By::Profile(p)) => Ok(profile_svd_decomposition(b, rows, cols, p)?),
        (Call::Full, By::Settings(s)) => Ok(full_svd_decomposition(b, u, v, rows, cols, s)?),
        (Call::Full, By::Profile(p)) => Ok(profile_full_svd_decomposition(b, u, v, rows, cols, p)?),
        (Call::Ordered, By::Settings(s)) => {
            ordered_svd_decomposition(b, u, v, values, rows, cols, s)
        }
        (Call::Ordered, By::Profile(p)) => {
            profile_ordered_svd_decomposition(b, u, v, values, rows, cols, p)
        }
    }
}

// What a call answered, and whether it came to what is stored.
// Kept: the answer is counted whether it agrees or not: a Result would hold it on both sides.
#[derive(Clone, Copy)]
struct Tried {
    answer: Result<Report, Unordered>,
    agrees: bool,
}

// Makes the call on a copy of the lists, in this room.
fn attempt(call: Call, head: &Head, before: &Lists, stored: &Outcome, lists: &mut Lists) -> Tried {
    lists.copy_from(before);
    let answer = make(call, head, lists);
    let agrees = Answer::from(answer) == stored.answer && lists.same_as(stored.lists);
    Tried { answer, agrees }
}

// Whether the plain call beside the accumulating one gives its report and leaves its matrix. The plain
// call has no numbers 4 and 5: where one of them is stored, it is not made.
// Kept: a bool: a call that is not made differs in nothing, which an Option would leave to be said here.
fn plain_agrees(head: &Head, before: &Lists, full: &Outcome, lists: &mut Lists) -> bool {
    if matches!(full.answer.number(), 4 | 5) {
        return true;
    }
    lists.copy_from(before);
    let answer = make(Call::Plain, head, lists);
    Answer::from(answer) == full.answer
        && lists.matrix.same_as(&full.lists.matrix)
        && lists.same_beside(before)
}

// Room for the lists before the calls of a run, for those that a call is to leave, and for those that
// it is made on.
// Kept: the same for all runs: made for each, it would be cleared for the shortest too.
#[derive(Drop)]
pub(crate) struct Rooms {
    before: Lists,
    after: Lists,
    lent: Lists,
}

impl Rooms {
    pub(crate) fn new() -> Rooms {
        Rooms {
            before: Lists::new(),
            after: Lists::new(),
            lent: Lists::new(),
        }
    }
}

// Replays the run of this head.
pub(crate) fn replayed<R: Read>(
    input: &mut R,
    head: &Head,
    rooms: &mut Rooms,
) -> Result<Made, Stop> {
    let Rooms {
        before,
        after,
        lent,
    } = rooms;
    head.read_lists(input, before)?;
    let stored = Outcome::read_first(input, before, after)?;
    let mut differ = 0;
    let first = if head.kept == Call::Plain {
        attempt(Call::Plain, head, before, &stored, lent)
    } else {
        differ += u64::from(!plain_agrees(head, before, &stored, lent));
        attempt(Call::Full, head, before, &stored, lent)
    };
    differ += u64::from(!first.agrees);
    let mut in_order = false;
    if head.kept == Call::Ordered {
        let stored = Outcome::read_ordered(input, before, after)?;
        let ordered = attempt(Call::Ordered, head, before, &stored, lent);
        differ += u64::from(!ordered.agrees);
        in_order = ordered.answer.is_ok();
    }
    let wrong = head.is_wrong();
    let as_told = differ == head.differ;
    Ok(Made {
        wrong,
        by_profile: matches!(head.by, By::Profile(_)),
        agrees: as_told != wrong,
        answer: first.answer,
        in_order,
    })
}
