//! Laws of admission, each the contract of a function that does nothing.

ghost use Rattle.std.specs.Prelude.{◌≡◌, ◌+◌, ◌≤◌, ◌⊎◌, ℕ, Contains, List, Some, codes};
ghost use Rattle.sudo_words.specs.declared.cmnd.Cmnd.{Cmnd as AnyCmnd};
ghost use Rattle.sudo_words.specs.declared.cmnd.Cmnd.TheVariants.{All, Dir};
ghost use Rattle.messages.specs.Fields.{RequestFields, VerdictFields};
ghost use Rattle.messages.specs.Wire.{IsMessage};
ghost use Rattle.messages.specs.declared.message.Message.{Message as AnyMessage};
ghost use Rattle.messages.specs.declared.message.Message.TheVariants.{Request, Verdict};
ghost use Rattle.roster.specs.Faults.{IsRosterText};
ghost use Rattle.roster.specs.Fields.{CeilingFields, RosterFields};
ghost use Rattle.roster.specs.Relations.{ceiling_at};
ghost use Rattle.grants.specs.Admission.{Admits, AdmitsRequest, Denies};
ghost use Rattle.grants.specs.Admission.{IsDenial, IsInTime, IsWithin};
ghost use Rattle.grants.specs.Privilege.{AsksFor, CeilingAllows, GivesMore, IsWider};
ghost use Rattle.grants.specs.WorkedAdmission as worked;
ghost use Rattle.grants.specs.declared.denial.Denial.{Denial as AnyDenial};
ghost use Rattle.grants.specs.declared.denial.Denial.TheVariants as denial;

/// Under a roster that was read from a text, each message is admitted or has a first denial; never
/// both, and never two. A verdict's only denial is `UnknownPerson`.
pub fn one_answer()
    ensures some { (text : List ℕ) (f : RosterFields AnyCmnd) (m : AnyMessage) →
        IsRosterText text f → IsMessage m → Admits f m ⊎ ((d : AnyDenial) × IsDenial f m d) }
    ensures not_both { (f : RosterFields AnyCmnd) (m : AnyMessage) (d : AnyDenial)
        → Admits f m → ¬ Denies f m d }
    ensures one { (f : RosterFields AnyCmnd) (m : AnyMessage) (d e : AnyDenial)
        → IsDenial f m d → IsDenial f m e → d ≡ e }
    ensures verdict { (f : RosterFields AnyCmnd) (v : VerdictFields) (d : AnyDenial)
        → Denies f (Verdict v) d → d ≡ denial.UnknownPerson }
{}

/// Least privilege (NIST SP 800-53 AC-6): a request that is admitted under a ceiling reaches no
/// command, host or target outside the ceiling, no moment before the request was made, and no
/// moment further from its first one than the ceiling's longest window.
pub fn least_privilege()
    ensures inside { (f : RosterFields AnyCmnd) (r : RequestFields) (c : CeilingFields AnyCmnd)
        (host target path : List ℕ) (args : List (List ℕ))
        → AdmitsRequest f r → ceiling_at f r.ceiling ≡ Some c
        → AsksFor r host target path args → CeilingAllows c host target path args }
    ensures in_time { (f : RosterFields AnyCmnd) (r : RequestFields) (c : CeilingFields AnyCmnd)
        (moment : ℕ) → AdmitsRequest f r → ceiling_at f r.ceiling ≡ Some c → r.from ≤ moment
        → moment ≤ r.until → (r.at ≤ moment) × (moment ≤ r.from + c.longest) }
{}

/// Enlarging a ceiling denies nothing that was admitted, nor does listing further people, duties
/// and ceilings.
pub fn more_admits_more()
    ensures ceiling { (r : RequestFields) (c d : CeilingFields AnyCmnd) →
        IsWider c d → IsWithin r c → IsInTime r c → IsWithin r d × IsInTime r d }
    ensures roster { (f g : RosterFields AnyCmnd) (m : AnyMessage)
        → GivesMore f g → Admits f m → Admits g m }
    // A ceiling for the same askers is wider if it lists at least as much and its longest window is
    // at least as long.
    ensures listed { (c d : CeilingFields AnyCmnd) →
        d.ask ≡ c.ask → c.longest ≤ d.longest →
        ((host : List ℕ) → Contains c.hosts host → Contains d.hosts host) →
        ((target : List ℕ) → Contains c.runas target → Contains d.runas target) →
        ((cmnd : AnyCmnd) → Contains c.commands cmnd → Contains d.commands cmnd) →
        IsWider c d }
{}

/// Worked windows: as long as the ceiling allows, and a second longer; a single moment; begun
/// before the request was made; ended before its beginning; and both too long and begun too soon.
pub fn worked_windows()
    ensures longest { Admits worked.site (Request worked.asked) }
    ensures second_longer { IsDenial worked.site
        (Request (worked.asked_from 32_400 39_601)) denial.WindowTooLong }
    ensures one_moment { Admits worked.site (Request (worked.asked_from 21_600 21_600)) }
    ensures too_soon { IsDenial worked.site
        (Request (worked.asked_from 21_599 23_400)) denial.WindowBackwards }
    ensures turned { IsDenial worked.site
        (Request (worked.asked_from 32_400 32_399)) denial.WindowBackwards }
    ensures both { IsDenial worked.site
        (Request (worked.asked_from 21_599 28_800)) denial.WindowTooLong }
{}

/// Worked requests: what the ceiling holds, and each thing outside it.
pub fn worked_requests()
    ensures other_host { Admits worked.site (Request (worked.asked_on (codes "db2"))) }
    ensures in_directory { Admits worked.site
        (Request (worked.asked_for (worked.file_alone (codes "/usr/bin/id")))) }
    ensures stranger { IsDenial worked.site
        (Request (worked.asked_by (codes "dan"))) denial.UnknownPerson }
    ensures no_ceiling { IsDenial worked.site
        (Request (worked.asked_under (codes "db-pair"))) denial.UnknownCeiling }
    ensures approver { IsDenial worked.site
        (Request (worked.asked_by (codes "bob"))) denial.NotAsker }
    ensures host { IsDenial worked.site
        (Request (worked.asked_on (codes "web"))) denial.HostOutside }
    ensures target { IsDenial worked.site
        (Request (worked.asked_as (codes "op"))) denial.RunasOutside }
    ensures command { IsDenial worked.site
        (Request (worked.asked_for (worked.file (codes "/bin/cat")))) denial.CommandOutside }
    ensures below_directory { IsDenial worked.site
        (Request (worked.asked_for (worked.file (codes "/usr/bin/x/y")))) denial.CommandOutside }
    ensures parent { IsDenial worked.site
        (Request (worked.asked_for (Dir (codes "/usr/")))) denial.CommandOutside }
    ensures everything { IsDenial worked.site
        (Request (worked.asked_for All)) denial.CommandOutside }
    ensures verdict { Admits worked.site (Verdict (worked.approved (codes "bob") (codes "ann"))) }
    ensures of_stranger { IsDenial worked.site
        (Verdict (worked.approved (codes "bob") (codes "dan"))) denial.UnknownPerson }
    ensures by_stranger { IsDenial worked.site
        (Verdict (worked.approved (codes "dan") (codes "ann"))) denial.UnknownPerson }
{}
