//! A worked set of messages, the contract of a function that does nothing.

ghost use Rattle.std.specs.Prelude.{[], ◌∷◌, codes};
ghost use Rattle.grants.specs.WorkedAdmission.{site};
ghost use Rattle.outcomes.specs.HostFile.{IsHostFile, IsHostFileAfter};
ghost use Rattle.outcomes.specs.Outcomes.{AreLive};
ghost use Rattle.outcomes.specs.Parked.{AreParked};
ghost use Rattle.outcomes.specs.WorkedSet.{base, grant, worked};

/// A worked set: ann asks for nine to eleven, and bob approves that, and also what carol has not
/// asked for.
pub fn worked_set()
    ensures parked { AreParked worked
        (codes "{\"at\":\"20260105083000Z\",\"by\":\"bob\",\"kind\":\"approve\",\"no\":8,\"of\":\"carol\"}"
        ∷ []) }
    // The grant is in force at nine and at eleven, but not a second before nine or after eleven.
    ensures before { AreLive site worked 1_767_603_599 [] }
    ensures first { AreLive site worked 1_767_603_600 (grant ∷ []) }
    ensures last { AreLive site worked 1_767_610_800 (grant ∷ []) }
    ensures over { AreLive site worked 1_767_610_801 [] }
    // Its line comes after the base on its own host only, and is left out after eleven.
    ensures file { IsHostFile site base worked (codes "db1")
        (codes "bob db1 = (root) ALL\nann db1 = (root) NOTBEFORE=20260105090000Z NOTAFTER=20260105110000Z /bin/ls\n") }
    ensures other_host { IsHostFile site base worked
        (codes "db2") (codes "bob db1 = (root) ALL\n") }
    ensures after { IsHostFileAfter site base worked
        (codes "db1") 1_767_610_801 (codes "bob db1 = (root) ALL\n") }
{}
