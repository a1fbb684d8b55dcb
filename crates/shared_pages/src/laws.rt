//! Laws of the pages of a pool. Each function does nothing, and its contract is the law.

ghost use Rattle.shared_pages.specs.ByStep.{AnswersLoads, AnswersFetches, AnswersPlaces, AnswersUnloads};
ghost use Rattle.shared_pages.specs.Meets.{MeetingMakesFit, MeetingMakesOnePast, MeetingSeesAll};

/// What a pool answers is what the life of the page allows: a call is done exactly where its event is a step of the page, and
/// each refusal comes exactly where its cause stands.
pub fn answers_follow_the_steps()
    ensures loads { AnswersLoads }
    ensures fetches { AnswersFetches }
    ensures places { AnswersPlaces }
    ensures unloads { AnswersUnloads }
{}

/// Where all passes of a pool have seen the same of its pages, the lists of the events that they made fit together.
pub fn passes_that_met_fit()
    ensures { MeetingMakesFit }
{}

/// Where passes of a pool have seen the same past of all its pages, it is a run of the pool, made by the pool's passes, and the
/// events that each of them made are its entries there, in their order. Where they are all passes of the pool, it has of each page
/// just the entries that they have seen. So all events of all pages have one order, which agrees with each page's and with each
/// pass's.
pub fn passes_that_met_have_one_past()
    ensures past { MeetingMakesOnePast }
    ensures pages { MeetingSeesAll }
{}
