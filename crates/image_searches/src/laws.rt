// A law of searches, the contract of a function.
ghost use Rattle.image_searches.specs.SearchLaws.{ImageSearchesGoOn};

/// A search of so many moves is one of fewer, and one of the others if none of these ended it.
pub fn searches_go_on()
    ensures { ImageSearchesGoOn }
{}
