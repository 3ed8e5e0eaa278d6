//! What the steps of a choreography mean, by small choreographies and their runs, event by event.

ghost use Rattle.std.specs.Prelude.{ℕ, ◌≡◌, ◌≢◌, ◌++◌, ◌∷◌, []};
ghost use Rattle.chor_base.specs.declared.expr.Expr.{Expr};
ghost use Rattle.chor_base.specs.declared.value.Load.{Load};
ghost use Rattle.chor_base.specs.Expr.{term_of};
ghost use Rattle.chor_semantics.specs.Examples.Source.{HasEndedRun, HasOpenRun, HasNoRun};
ghost use Rattle.chor_semantics.specs.Examples.EventBeforeDecision as decision;
ghost use Rattle.chor_semantics.specs.Examples.DelegationWhileWaiting as delegation;
ghost use Rattle.chor_semantics.specs.Examples.EndlessExchange as endless;
ghost use Rattle.chor_semantics.specs.Examples.ServiceTwice as twice;

/// An event before another's decision. The second start doesn't wait for the first session, and p
/// sends before r has decided, since both branches make that same event; q receives after the
/// decision.
pub fn event_before_a_decision()
    ensures early { HasEndedRun (decision.source 1) decision.early }
    // q can't receive what p hasn't sent
    ensures order { HasNoRun (decision.source 1) (decision.start ∷ decision.receiving ∷ []) }
    // r itself acts in no branch before it has decided
    ensures decided { HasNoRun (decision.source 1) (decision.starts ++ decision.picking ∷ []) }
    // where the other branch sends 2, p can't send 1 before the decision, and can after it
    ensures differs { HasNoRun (decision.source 2) (decision.starts ++ decision.sending ∷ []) }
    ensures late { HasEndedRun (decision.source 2) decision.late }
{}

/// Delegation while a message waits. The buyer sends to the seller past the delegation, which
/// stands before it and doesn't name the buyer; c gains the role, and then receives the message.
pub fn delegation_while_a_message_waits()
    ensures run { HasEndedRun delegation.source delegation.events }
    // until c has gained the role, no process receives what the buyer sent
    ensures waits { (n : ℕ) (sent : Load) → HasNoRun delegation.source (delegation.given ++ delegation.receiving n sent ∷ []) }
{}

/// The endless exchange. Each call is its procedure's body with the live processes and session for
/// its parameters, and q's answer is reckoned from what it received. After ten events something is
/// left to happen.
pub fn endless_exchange()
    ensures run { (e : Expr) → term_of e ≡ endless.x_and_one → HasOpenRun (endless.source e) endless.ten_events }
    // p's next send, in the body of the next call, waits until p has received the answer
    ensures waits { (e : Expr) → term_of e ≡ endless.x_and_one → HasNoRun (endless.source e) (endless.start ∷ endless.asked ++ endless.asking ∷ []) }
{}

/// A service started twice. Each start has a new session and a new process, which do the same for
/// p and for q; q starts the service before the first session has ended, and both go on at once.
pub fn service_started_twice()
    ensures run { HasEndedRun twice.source twice.events }
    // new processes have the next numbers, in the order of the starts
    ensures first { (n : ℕ) → n ≢ 2 → HasNoRun twice.source (twice.first_start n ∷ []) }
    ensures second { (n : ℕ) → n ≢ 3 → HasNoRun twice.source (twice.first_start 2 ∷ twice.second_start n ∷ []) }
{}
