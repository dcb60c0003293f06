//! Laws of runs, for the proofs of callers: functions that do nothing.

ghost use Rattle.client_runs.specs.OfUsers.{RunsAreSteps, StepsAreRuns};
ghost use Rattle.client_runs.specs.Carried.{script_keys};
ghost use Rattle.client_runs.specs.UsedOnce.{CertificatesOnce, EachClient, LeavesOnce, StructuresOnce};
ghost use Rattle.layout.specs.Types.{User};
ghost use Rattle.release_runs.specs.UsedOnce.{AreApart};

/// Over every run of a user's client, with any crashes and failures of its devices, no two different texts that it
/// releases carry one leaf of one key, no two different certificates one number, but for their signatures, and no two
/// different structures one number.
pub fn each_is_used_once()
    ensures leaves { EachClient LeavesOnce }
    // Of the keys of scripts no two of a user's have one identifier.
    ensures scripts { (u : User) → AreApart (script_keys u) }
    ensures certificates { EachClient CertificatesOnce }
    ensures structures { EachClient StructuresOnce }
{}

/// Steps of each user's client, in any order, are a run of all clients; and in each run the steps of a user's client
/// are steps of it from the beginning.
pub fn users_steps_are_runs()
    ensures runs { StepsAreRuns }
    ensures steps { RunsAreSteps }
{}
