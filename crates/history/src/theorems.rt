// The law of all successions of calls, the contract of a function that does nothing, and that it speaks of taking over.
ghost use Rattle.history.specs.Runs.{NoSuccessionLeadsToAFault, TakingOverIsLoading};

use lives::archive_laws;

// Whatever calls a study was given: it holds the lives of the plain list with their marks, answers and refuses as the list says,
// its counts are those of the unmarked lives and are lawful, and no curve answered for it has a fault.
pub fn no_succession_leads_to_a_fault()
    ensures { NoSuccessionLeadsToAFault }
{}

// A study that takes over a sealed one is a study that loads its archive, or stays as it is: the law holds of it too.
pub fn taking_over_is_loading()
    ensures { TakingOverIsLoading }
{
    archive_laws();
}
