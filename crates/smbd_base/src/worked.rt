//! Worked examples of histories.

ghost use Rattle.smbd_base.specs.Worked.{OpensSo, CarriesSo, RefusesSo, CreditsSo, CutsSo, GathersSo, NegotiatesSo, DeclinesSo, SettlesSo};

/// Worked histories: what comes next, what is counted and what is delivered in small examples.
/// It does nothing. Its contract is proved by computation, and shows what the definitions say.
pub fn worked_histories()
    ensures opening { OpensSo }
    ensures delivery { CarriesSo }
    ensures refusal { RefusesSo }
    ensures credits { CreditsSo }
    ensures pieces { CutsSo }
    ensures gathering { GathersSo }
    ensures negotiation { NegotiatesSo }
    ensures declining { DeclinesSo }
    ensures settling { SettlesSo }
{}
