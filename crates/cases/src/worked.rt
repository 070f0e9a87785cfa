// The worked cases, as one statement about the definitions that the contracts of the calls cite.
ghost use Rattle.cases.specs.Worked.{Cases};

pub fn cases_hold()
    ensures { Cases }
{}
