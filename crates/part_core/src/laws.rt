//! Laws of legal histories, each the contract of a function that does nothing.
ghost use Rattle.part_core.specs.Laws.{ContentIsThatOfTheRows, NoneElsewhere, VisitsAnswerTheirCover, VisitsMoveOn, VisitsLead, VisitsLeadInside, CursorsStayInside, StatesAreKept, FixesAreCounted, FixesShow, BaseNeverFalls, FixedRowsStay, LegalGoesOn, LegalLast, LegalFront};

/// The objects of each key in a part's rows are those that its history wrote.
pub fn content_is_that_of_the_rows()
    ensures { ContentIsThatOfTheRows }
{}

/// A part at which only objects of its own keys are inserted has no object of another key.
pub fn none_elsewhere()
    ensures { NoneElsewhere }
{}

/// A visit that was not refused could look at its scope. It returns the query's answers for the keys that it covers, on
/// their content before the visit.
pub fn visits_answer_their_cover()
    ensures { VisitsAnswerTheirCover }
{}

/// A visit of an ordered set that stops before the end covers the key at which it stops, which has a row, live or dead.
pub fn visits_move_on()
    ensures { VisitsMoveOn }
{}

/// Where a walk goes on after a visit that was not refused: at the next class, after a further key, or nowhere.
pub fn visits_lead()
    ensures { VisitsLead }
{}

/// A walk can go on where a visit says that it does.
pub fn visits_lead_inside()
    ensures { VisitsLeadInside }
{}

/// Where a walk can go on, it can go on later too.
pub fn cursors_stay_inside()
    ensures { CursorsStayInside }
{}

/// No key has two rows, and those of an ordered set are in ascending key order. Each object is at its key. Dead rows
/// stay only under a fix. Without a fix the base is the number of slots.
pub fn states_are_kept()
    ensures { StatesAreKept }
{}

/// The counts of fixes in a part's state are those of its history.
pub fn fixes_are_counted()
    ensures { FixesAreCounted }
{}

/// A part that some session fixes is fixed.
pub fn fixes_show()
    ensures { FixesShow }
{}

/// The base of walks never falls.
pub fn base_never_falls()
    ensures { BaseNeverFalls }
{}

/// As long as some session fixes a part, its rows and its base stay.
pub fn fixed_rows_stay()
    ensures { FixedRowsStay }
{}

/// A legal history with a right entry appended is legal.
pub fn legal_goes_on()
    ensures { LegalGoesOn }
{}

/// The last entry of a legal history is right.
pub fn legal_last()
    ensures { LegalLast }
{}

/// The beginning of a legal history is legal.
pub fn legal_front()
    ensures { LegalFront }
{}
