//! Laws of runs, for the proofs of callers: functions that do nothing.

ghost use Rattle.release_runs.specs.UsedOnce.{CertificatesOnce, EachIdentifierOnce, EachRun, LeavesOnce};
ghost use Rattle.release_runs.specs.UsedOnce.{StructuresOnce};

/// Over every run of what a user's client releases by its keys, with any crashes and failures of its devices, each text
/// that it releases is signed by one of the keys, and no two different texts of one key carry one leaf number. Where each
/// certificate that is declared has the next number, certificates of one number are one certificate, which may be
/// signed several times, and no two different structures carry one number. Of a run in which one has another number
/// nothing is said of these: the client of client_verify declares none but the next.
pub fn each_is_used_once()
    ensures leaves { EachRun LeavesOnce }
    // Where no two keys have one identifier, that is so of what they are, and not of their places alone.
    ensures identifiers { EachIdentifierOnce }
    ensures certificates { EachRun CertificatesOnce }
    ensures structures { EachRun StructuresOnce }
{}
