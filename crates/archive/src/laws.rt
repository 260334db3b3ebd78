//! The laws of a history that is cut, each the contract of a function that does nothing.

ghost use Rattle.std.specs.Prelude.{◌≡◌, ◌↔◌, ◌<◌, ◌≤◌, ◌++◌, ℕ, List, [], ◌∷◌, Contains, Option};
ghost use Rattle.sudo_words.specs.declared.cmnd.Cmnd.{Cmnd};
ghost use Rattle.sudo_policy.specs.declared.entry.Entry.{Entry};
ghost use Rattle.messages.specs.Fields.{RequestFields};
ghost use Rattle.messages.specs.Names.{NobodyAsks, SameMessages, name_of};
ghost use Rattle.messages.specs.Wire.{IsMessage};
ghost use Rattle.messages.specs.declared.message.Message.{Message};
ghost use Rattle.messages.specs.declared.message.Message.TheVariants.{Request, Verdict};
ghost use Rattle.messages.specs.declared.request_name.RequestName.{RequestName};
ghost use Rattle.roster.specs.Faults.{IsRosterText};
ghost use Rattle.roster.specs.Fields.{RosterFields};
ghost use Rattle.grants.specs.Statuses.{InWindow};
ghost use Rattle.grants.specs.Verdicts.{IsDisputed};
ghost use Rattle.grants.specs.WorkedAdmission.{site};
ghost use Rattle.outcomes.specs.About.{name_in};
ghost use Rattle.outcomes.specs.HostFile.{IsHostFileAfter};
ghost use Rattle.outcomes.specs.Outcomes.{AreLive, ComesTo};
ghost use Rattle.outcomes.specs.Parked.{AreParked};
ghost use Rattle.messages.specs.WorkedTexts.{bob_approves};
ghost use Rattle.outcomes.specs.WorkedSet.{ann_asks_ls, early, worked};
ghost use Rattle.grants.specs.declared.outcome.Status.{Status};
ghost use Rattle.archive.specs.Archive.{HasEnded, IsArchive, IsCut};
ghost use Rattle.archive.specs.SameFrom.{GrantTheSameFrom};
ghost use Rattle.archive.specs.WorkedCut.{ann_asked_before, history, revoked};

/// A history can be cut. Whatever messages come later, under every roster, what is kept grants at
/// the moment and from then on what the whole history would: the same windows, grants in force,
/// lines, files and rights. It does not matter whether what was archived comes again, or whether
/// somebody asks again under a name that has ended: its request was kept, so both requests dispute
/// the name.
pub fn history_can_be_cut()
    ensures grants { (f : RosterFields Cmnd) (set kept later : List Message) (moment : ℕ)
        → IsCut set moment kept → GrantTheSameFrom f moment (set ++ later) (kept ++ later) }
    // Both have files, under a roster that was read from a text, and it is the same one.
    ensures files { (text : List ℕ) (f : RosterFields Cmnd) (base : List Entry)
        (set kept later : List Message) (moment at : ℕ) (host file : List ℕ)
        → IsRosterText text f → ((m : Message) → Contains (set ++ later) m → IsMessage m)
        → IsCut set moment kept → moment ≤ at → IsHostFileAfter f base (set ++ later) host at file
        ↔ IsHostFileAfter f base (kept ++ later) host at file }
    // A name that has not ended comes to the same, so the same names wait for approval.
    ensures statuses { (f : RosterFields Cmnd) (set kept later : List Message) (moment : ℕ)
        (name : RequestName) (o : Option Status)
        → IsCut set moment kept → ¬ HasEnded set moment name
        → ComesTo f (set ++ later) name o ↔ ComesTo f (kept ++ later) name o }
    // The same verdicts wait for their request.
    ensures parked { (set kept later : List Message) (moment : ℕ) (texts : List (List ℕ))
        → IsCut set moment kept → AreParked (set ++ later) texts ↔ AreParked (kept ++ later) texts }
{}

/// What a cut keeps: all requests, and all messages about a name that has not ended. So the same
/// names are asked under, and the same ones are disputed. A request whose name has ended is not in
/// force from then on, whatever comes later.
pub fn cut_keeps_requests()
    ensures requests { (set kept : List Message) (moment : ℕ) (q : RequestFields)
        → IsCut set moment kept → Contains set (Request q) ↔ Contains kept (Request q) }
    ensures messages { (set kept later : List Message) (moment : ℕ) (m : Message)
        → IsCut set moment kept → ¬ HasEnded set moment (name_in m)
        → Contains (set ++ later) m ↔ Contains (kept ++ later) m }
    ensures disputed { (set kept later : List Message) (moment : ℕ) (name : RequestName)
        → IsCut set moment kept
        → IsDisputed (set ++ later) name ↔ IsDisputed (kept ++ later) name }
    ensures nobody { (set kept later : List Message) (moment : ℕ) (name : RequestName)
        → IsCut set moment kept
        → NobodyAsks (set ++ later) name ↔ NobodyAsks (kept ++ later) name }
    ensures ended { (f : RosterFields Cmnd) (set later : List Message) (moment at : ℕ)
        (q : RequestFields) → HasEnded set moment (name_of q) → moment ≤ at
        → ¬ InWindow f (set ++ later) q at }
{}

/// A set has one cut at a moment, whatever its order. What is kept and the archive are together the
/// whole history. What is kept can be cut again later, and that is the cut of the whole then: so
/// desks that hold the same and are cut at two moments grant the same from the later one on.
pub fn cuts_go_together()
    ensures one { (s t kept other : List Message) (moment : ℕ) → SameMessages s t
        → IsCut s moment kept → IsCut t moment other → SameMessages kept other }
    ensures whole { (set kept archived later : List Message) (moment : ℕ)
        → IsCut set moment kept → IsArchive set moment archived
        → SameMessages (set ++ later) ((kept ++ later) ++ archived) }
    ensures again { (set kept left : List Message) (early late : ℕ) → early ≤ late
        → IsCut set early kept → IsCut kept late left → IsCut set late left }
    ensures between { (set kept other : List Message) (early late : ℕ) → early ≤ late
        → IsCut set early kept → IsCut set late other → IsCut kept late other }
    // Before the first moment nothing has ended.
    ensures first { (set kept : List Message) → IsCut set 0 kept → SameMessages set kept }
{}

/// Why a request that has ended has to stay. Ann's first request ends at a quarter to nine: then it
/// is still in force, and a second later its approval is archived. Now she uses its number again,
/// and the approval comes again: the name is disputed, and nothing is granted. Without the first
/// request the second one would be in force then, by an approval that was not given for it
/// (`outcomes::laws::worked_set`, `first`).
pub fn worked_cut()
    ensures last { IsCut history 1_767_602_700 history }
    ensures over { IsCut history 1_767_602_701 (Request ann_asked_before ∷ []) }
    ensures stays { AreLive site ((Request ann_asked_before ∷ []) ++ worked) 1_767_603_600 [] }
{}

/// Why a history is cut only at a moment that has come: nothing is said of what is in force before
/// it. Ann's request for nine to eleven is approved, and she revokes it before nine. A cut at a
/// second past eleven archives both. If the approval comes again at nine, and the revocation does
/// not, the whole history grants nothing then, but what was kept is in force
/// (`outcomes::laws::worked_set`, `first`, has just these messages).
pub fn worked_early_cut()
    ensures cut { IsCut revoked 1_767_610_801 (Request ann_asks_ls ∷ []) }
    ensures whole { AreLive site (revoked ++ Verdict bob_approves ∷ Verdict early ∷ [])
        1_767_603_600 [] }
    ensures same { (Request ann_asks_ls ∷ []) ++ Verdict bob_approves ∷ Verdict early ∷ []
        ≡ worked }
{}
