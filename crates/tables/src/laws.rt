//! Laws of sessions, each the contract of a function that does nothing.
ghost use Rattle.tables.specs.Laws.{InsertsAreSeen, ChangesGoOn, ChangesReachAll};

/// A look-up of a session finds an object that the session inserted before, unless another session removed it in
/// between.
pub fn inserts_are_seen()
    ensures { InsertsAreSeen }
{}

/// A change of fixes that is put off and goes on is one change.
pub fn changes_go_on()
    ensures { ChangesGoOn }
{}

/// A change of fixes that is made from the first part to the last is a turn at each part.
pub fn changes_reach_all()
    ensures { ChangesReachAll }
{}
