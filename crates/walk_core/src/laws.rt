//! Laws of walks, each the contract of a function that does nothing.
ghost use Rattle.walk_core.specs.Laws.{WalksBegin, TurnsAreVisits, VisitsAreAnswered, WalksGoOn, WalksStop, WalksOutlastOthers, WalksEnd};
ghost use Rattle.walk_core.specs.Once.{DeletionsAreTheMarks, OtherVisitsTakeNothing, WalksBeginOnce, WalksCoverOnce, StopsCoverOnce, OnceOutlastsOthers, MomentsAreTheMarks, DeletingWalksTakeTheMarks, WiderCallsCoverOnce};
ghost use Rattle.walk_core.specs.Stayed.{WhoStayedIsAnswered, NothingIsInvented, ContentsHaveTheirKey, OneAnswerAKey};

/// A walk that begins has collected nothing.
pub fn walks_begin()
    ensures { WalksBegin }
{}

/// A turn that was not refused is a visit.
pub fn turns_are_visits()
    ensures { TurnsAreVisits }
{}

/// The next visit of a walk is not refused.
pub fn visits_are_answered()
    ensures { VisitsAreAnswered }
{}

/// Visits continue a walk.
pub fn walks_go_on()
    ensures { WalksGoOn }
{}

/// Visits continue a walk also if the next one runs out of memory.
pub fn walks_stop()
    ensures { WalksStop }
{}

/// What other sessions do, and other calls of the session, doesn't change a walk so far.
pub fn walks_outlast_others()
    ensures { WalksOutlastOthers }
{}

/// At its end, with nothing kept, what a walk returned is its answer.
pub fn walks_end()
    ensures { WalksEnd }
{}

/// The visit at a key's moment, in a walk that deletes, removes the objects for which the query returns `true`.
pub fn deletions_are_the_marks()
    ensures { DeletionsAreTheMarks }
{}

/// A visit removes nothing from what it doesn't cover, and nothing at all if it doesn't delete.
pub fn other_visits_take_nothing()
    ensures { OtherVisitsTakeNothing }
{}

/// A walk that begins has covered nothing.
pub fn walks_begin_once()
    ensures { WalksBeginOnce }
{}

/// The visits of a walk cover each key once.
pub fn walks_cover_once()
    ensures { WalksCoverOnce }
{}

/// The visits of a walk cover each key once also if the next one runs out of memory.
pub fn stops_cover_once()
    ensures { StopsCoverOnce }
{}

/// What other sessions do, and other calls of the session, doesn't make a walk cover a key a second time.
pub fn once_outlasts_others()
    ensures { OnceOutlastsOthers }
{}

/// At each moment of a walk, its answers are gathered, or there are none.
pub fn moments_are_the_marks()
    ensures { MomentsAreTheMarks }
{}

/// The visits of a deleting walk remove what is gathered, and nothing else.
pub fn deleting_walks_take_the_marks()
    ensures { DeletingWalksTakeTheMarks }
{}

/// An object that matched and stayed throughout is answered once.
pub fn who_stayed_is_answered()
    ensures { WhoStayedIsAnswered }
{}

/// There is no answer for an object that was never there.
pub fn nothing_is_invented()
    ensures { NothingIsInvented }
{}

/// The content of a key consists of objects with this key, in a set at most one.
pub fn contents_have_their_key()
    ensures { ContentsHaveTheirKey }
{}

/// A set gives at most one answer for a key at a moment.
pub fn one_answer_a_key()
    ensures { OneAnswerAKey }
{}

/// Calls that do more than the visits cover each key once too.
pub fn wider_calls_cover_once()
    ensures { WiderCallsCoverOnce }
{}
