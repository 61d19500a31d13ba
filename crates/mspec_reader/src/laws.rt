//! Laws of reading. Each is the contract of a function that does nothing.
ghost use Rattle.mspec_reader.specs.Laws.{HasOneReading, HasOneRefusal, ReadIsNotRefused};

/// A term is read as at most one specification.
pub fn one_specification_is_read()
    ensures { HasOneReading }
{}

/// A term has at most one fault for which it is rejected. A term that is read as a specification within the limits has
/// none, so reading it fails only if memory runs out.
pub fn one_fault_is_refused()
    ensures read { ReadIsNotRefused }
    ensures fault { HasOneRefusal }
{}
