//! Laws about answers and what is held, each the contract of a function that does nothing.

ghost use Rattle.std.specs.Prelude.{◌≡◌, ◌⊎◌, List, Contains, Result};
ghost use Rattle.sudo_words.specs.declared.cmnd.Cmnd.{Cmnd as AnyCmnd};
ghost use Rattle.messages.specs.Names.{SameMessages};
ghost use Rattle.messages.specs.declared.message.Message.{Message as AnyMessage};
ghost use Rattle.roster.specs.Fields.{RosterFields};
ghost use Rattle.store_tables.specs.Sets.{SameSet};
ghost use Rattle.desk.specs.declared.ack.Ack.{Ack as AnyAck};
ghost use Rattle.desk.specs.declared.refusal.Refusal.{Refusal as AnyRefusal};
ghost use Rattle.desk.specs.Delivery.{Answers, AreAnswers, Delivery, HeldAfterAll};
ghost use Rattle.desk.specs.Runs.{Event, IsRun, IsAckedIn, SameAcked, run_of_deliveries};

/// A delivery has at most one right answer.
pub fn one_answer()
    ensures { (f : RosterFields AnyCmnd) (d : Delivery) (a b : Result AnyAck AnyRefusal)
        → Answers f d a → Answers f d b → a ≡ b }
{}

/// A run from any messages leaves exactly these and those that it acknowledges, whatever was lost,
/// repeated, refused or asked between. So two runs that begin with the same messages and
/// acknowledge the same leave the same set. Deliveries that are answered in order are a run.
pub fn run_free()
    ensures held { (f : RosterFields AnyCmnd) (old new : List AnyMessage) (run : List Event)
        → IsRun f old run new
        → SameSet (λ m. Contains old m ⊎ IsAckedIn run m) (λ m. Contains new m) }
    ensures same { (f : RosterFields AnyCmnd) (old s t : List AnyMessage) (r u : List Event)
        → SameAcked r u → IsRun f old r s → IsRun f old u t → SameMessages s t }
    ensures deliveries { (f : RosterFields AnyCmnd) (old new : List AnyMessage)
        (ds : List Delivery) (answers : List (Result AnyAck AnyRefusal)) → AreAnswers f ds answers
        → HeldAfterAll (λ m. Contains old m) ds answers (λ m. Contains new m)
        → IsRun f old (run_of_deliveries ds answers) new }
{}
