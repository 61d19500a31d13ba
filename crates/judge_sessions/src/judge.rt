//! Judges all sessions together: what is left of the table at the end, compared with what each session did and was
//! answered.
use crate::bags::BagReplay;
use crate::event::Event;
use crate::keys::{COUNTED, KEYS, OPEN, Object, first_at, owner};
use crate::puts::Puts;
use crate::replay::{LastWrite, Replay};
use crate::worker::Worker;
use crate::wrong::{Failure, Wrong, check};
use kit_rows::was_ok;
use part_core::TableKind;
use std::alloc::Global;

/// Returns the object that was taken in this event, at a key at which each object is inserted once.
fn taken_by(event: Event) -> Option<Object> {
    match event {
        Event::Taken(_, object) => object,
        Event::ItemTaken(object) if owner(object.key).is_none() => Some(object),
        _ => None,
    }
}

/// Records that an object was taken, which must be the first time.
fn takes(taken: &mut [bool], puts: &Puts, object: Object) -> Result<(), Wrong> {
    let Some(place) = puts.place(object) else {
        return Err(Wrong::NeverPut(object));
    };
    let Some(is_taken) = taken.get_mut(place) else {
        return Err(Wrong::NeverPut(object));
    };
    if *is_taken {
        return Err(Wrong::TakenTwice(object));
    }
    *is_taken = true;
    Ok(())
}

/// Records all objects that a session took.
fn takes_all(taken: &mut [bool], puts: &Puts, events: &[Event]) -> Result<(), Wrong> {
    for event in events {
        if let Some(object) = taken_by(*event) {
            takes(taken, puts, object)?;
        }
    }
    Ok(())
}

/// Records all objects that the sessions took, none of which must be taken twice.
fn all_take(taken: &mut [bool], puts: &Puts, workers: &[Worker]) -> Result<(), Wrong> {
    for worker in workers {
        takes_all(taken, puts, worker.events.as_slice())?;
    }
    Ok(())
}

/// Checks that no object was taken twice.
fn are_taken_once(alloc: Global, puts: &Puts, workers: &[Worker]) -> Result<(), Failure> {
    let Ok(mut taken) = Vec::from_elem(alloc, false, puts.keys.len()) else {
        return Err(Failure::Refused);
    };
    let came = all_take(taken.as_mut_slice(), puts, workers);
    drop(taken);
    match came {
        Ok(()) => Ok(()),
        Err(wrong) => Err(Failure::Left(wrong)),
    }
}

/// Adds to the balance of each key the number of objects inserted by `insert_new`, less those that were taken. The last
/// balance, after those of the keys, is the number of objects that queries deleted at the keys whose objects are
/// counted.
fn add_balance(events: &[Event], balances: &mut [i64]) {
    for event in events {
        let (key, more) = match *event {
            Event::PutNew(object, true) => (object.key, 1),
            Event::Taken(key, Some(_)) => (key, -1),
            Event::ItemTaken(object) => (object.key, -1),
            Event::Cleared(count) => (KEYS, i64::try_from(count).unwrap_or(i64::MAX)),
            _ => (KEYS, 0),
        };
        if let Some(balance) = balances.get_mut(key as usize) {
            *balance = balance.saturating_add(more);
        }
    }
}

/// Checks that as many objects are left at each key as its balance says, except for those that queries deleted.
fn is_balanced(balances: &[i64], left: &[Object]) -> Result<(), Wrong> {
    let mut deleted = balance_at(balances, KEYS);
    for key in COUNTED..KEYS {
        let there = i64::from(first_at(left, key).is_some());
        let missing = balance_at(balances, key).saturating_sub(there);
        deleted = deleted.saturating_sub(missing);
        if missing < 0 || deleted < 0 {
            return Err(Wrong::Unbalanced(key));
        }
    }
    check(deleted == 0, Wrong::NeverDeleted(deleted))
}

/// Returns the balance of a key, or -1 if there is none.
fn balance_at(balances: &[i64], key: u32) -> i64 {
    match balances.get(key as usize) {
        Some(balance) => *balance,
        None => -1,
    }
}

/// Checks that at the keys whose objects are counted as many are left as were inserted, not taken, and not deleted by
/// queries.
fn are_balanced(alloc: Global, workers: &[Worker], left: &[Object]) -> Result<(), Failure> {
    let Ok(mut balances) = Vec::from_elem(alloc, 0, KEYS as usize + 1) else {
        return Err(Failure::Refused);
    };
    for worker in workers {
        add_balance(worker.events.as_slice(), balances.as_mut_slice());
    }
    let came = is_balanced(balances.as_slice(), left);
    drop(balances);
    match came {
        Ok(()) => Ok(()),
        Err(wrong) => Err(Failure::Left(wrong)),
    }
}

/// Returns whether what is left at a key is the result of some session's last write there.
fn is_last(replays: &[Replay<'_>], key: u32, left: Option<Object>) -> bool {
    match left {
        Some(object) => match replays.get(usize::from(object.session)) {
            Some(replay) => replay.last_write(key) == LastWrite::Put(object.sequence),
            None => false,
        },
        None => {
            let mut is_put = false;
            for replay in replays {
                match replay.last_write(key) {
                    LastWrite::Removal => return true,
                    LastWrite::Put(_) => is_put = true,
                    LastWrite::Nothing => {}
                }
            }
            !is_put
        }
    }
}

/// Checks that what is left is the result of some session's last write, at each key at which all sessions write in
/// every way.
fn are_last(replays: &[Replay<'_>], left: &[Object]) -> Result<(), Failure> {
    for key in OPEN..COUNTED {
        if !is_last(replays, key, first_at(left, key)) {
            return Err(Failure::Left(Wrong::NotLast(key)));
        }
    }
    Ok(())
}

/// Judges a session of a bag by its record and by all that is left.
fn judge_bag(
    alloc: Global,
    kind: TableKind,
    worker: &Worker,
    puts: &Puts,
    left: &[Object],
) -> Result<(), Failure> {
    let Some(mut replay) = BagReplay::new(alloc, worker.number, kind, puts) else {
        return Err(Failure::Refused);
    };
    let came = replay.goes_through(worker.events.as_slice(), left);
    drop(replay);
    match came {
        Ok(()) => Ok(()),
        Err(wrong) => Err(Failure::Answered(worker.number, wrong)),
    }
}

/// Judges a session of a set by its record and by all that is left, and appends its replay.
fn judge_set<'a>(
    alloc: Global,
    worker: &Worker,
    puts: &'a Puts,
    left: &[Object],
    replays: &mut Vec<Replay<'a>>,
) -> Result<(), Failure> {
    let Some(mut replay) = Replay::new(alloc, worker.number, puts) else {
        return Err(Failure::Refused);
    };
    let came = replay.goes_through(worker.events.as_slice(), left);
    let is_put = was_ok(replays.push(replay));
    match came {
        Ok(()) if is_put => Ok(()),
        Ok(()) => Err(Failure::Refused),
        Err(wrong) => Err(Failure::Answered(worker.number, wrong)),
    }
}

/// Judges each session by its record and, for a set, what is left by the last writes of all sessions.
fn judge_each<'a>(
    alloc: Global,
    kind: TableKind,
    workers: &[Worker],
    puts: &'a Puts,
    left: &[Object],
    replays: &mut Vec<Replay<'a>>,
) -> Result<(), Failure> {
    for worker in workers {
        if kind.is_set() {
            judge_set(alloc, worker, puts, left, replays)?;
        } else {
            judge_bag(alloc, kind, worker, puts, left)?;
        }
    }
    if kind.is_set() {
        are_last(replays.as_slice(), left)
    } else {
        Ok(())
    }
}

/// Judges the objects that were taken, each session, and what is left at the keys whose objects are counted.
fn judge_all(
    alloc: Global,
    kind: TableKind,
    workers: &[Worker],
    puts: &Puts,
    left: &[Object],
) -> Result<(), Failure> {
    are_taken_once(alloc, puts, workers)?;
    let mut replays = Vec::new(alloc);
    let came = judge_each(alloc, kind, workers, puts, left, &mut replays);
    drop(replays);
    came?;
    are_balanced(alloc, workers, left)
}

/// Collects what each session inserted. Returns `None` if a session did not complete its calls or memory runs out.
fn put_all(workers: &[Worker], puts: &mut Puts) -> Option<()> {
    for worker in workers {
        if !worker.is_whole {
            return None;
        }
        puts.add(worker.events.as_slice())?;
    }
    Some(())
}

/// Judges what the sessions of a table recorded, in the order of their numbers, and what is left.
pub(crate) fn judge(
    alloc: Global,
    kind: TableKind,
    workers: &[Worker],
    left: &[Object],
) -> Result<(), Failure> {
    let mut puts = Puts::new(alloc);
    let came = match put_all(workers, &mut puts) {
        Some(()) => judge_all(alloc, kind, workers, &puts, left),
        None => Err(Failure::Refused),
    };
    drop(puts);
    came
}
