//! Laws of tours, each the contract of a function that does nothing.
ghost use Rattle.walk_laws.specs.Laws.{ToursGoOn, ToursMeetOnce, ToursMeetWhoIsThere, ToursMeetWhoStayed, ToursRise};

/// A key that a tour returned isn't refused when the session requests the key after it.
pub fn tours_go_on()
    ensures { ToursGoOn }
{}

/// No key is met twice.
pub fn tours_meet_once()
    ensures { ToursMeetOnce }
{}

/// Each key that is met had objects at a turn of the tour.
pub fn tours_meet_who_is_there()
    ensures { ToursMeetWhoIsThere }
{}

/// At its end a tour has met each key that stayed.
pub fn tours_meet_who_stayed()
    ensures { ToursMeetWhoStayed }
{}

/// The keys that a tour of an ordered set meets are ascending, whether it is fixed or not.
pub fn tours_rise()
    ensures { ToursRise }
{}
