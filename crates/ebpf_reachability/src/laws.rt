//! What the answer says of runs.

ghost use Rattle.ebpf_reachability.specs.ConcreteMachine.{ExecutionsAgree, ExecutionsAreReached, MachinesGoOn};
ghost use Rattle.ebpf_reachability.specs.Visits.{AllVisitsAreReached, AnswerIsOne, MachinesAreReached, AnswersCoverMachines, VisitsAreReached};

/// A program has one answer: the least assignment is one.
pub fn answer_is_one()
    ensures { AnswerIsOne }
{}

/// The result holds each slot that an execution comes to, and the registers hold the numbers that are known there.
/// Executions are those of a machine of its own, whose rules are RFC 9669's.
pub fn executions_are_reached()
    ensures agree { ExecutionsAgree }
    ensures reached { ExecutionsAreReached }
{}

/// The machine of these executions has a step from each state, but at the end of the program's own function and at a jump
/// to before the first slot.
pub fn executions_go_on()
    ensures { MachinesGoOn }
{}

/// Whatever numbers its registers hold, a machine that goes by the steps of the analysis comes only to slots that are
/// reached, and its registers hold the numbers that are known there; so the answer tells of each slot to which it comes.
pub fn machines_are_reached()
    ensures reached { MachinesAreReached }
    ensures told { AnswersCoverMachines }
{}

/// Each place that the machine of the flat program visits is reached, where its decisions heed the numbers that are known;
/// where these decide no conditional jump, whatever it decides.
pub fn visits_are_reached()
    ensures heeding { VisitsAreReached }
    ensures all { AllVisitsAreReached }
{}
