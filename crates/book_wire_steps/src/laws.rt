//! What the definitions imply.

ghost use Rattle.book_wire_steps.specs.Steps.{AreRunsBetweenAdoptions, LogsTellSteps, StepsFallBack, StepsLeadOffices, StepsLeave};

use book_wire_serving::Service;

/// What a server answers while no policy is adopted is a run of the service, wherever it stands among its steps: so each law of
/// runs holds of it, and that of stops where each round was kept.
pub fn adoptions_part_runs<M: Service>()
    ensures { AreRunsBetweenAdoptions M.serving }
{}

/// What a server does to the Office is what its steps do to it, one after the other: the requests by the rules of the machine,
/// and each policy as it is adopted or refused, from the Office that all before it left. A round that was not kept does nothing.
pub fn steps_lead_offices<M: Service>()
    ensures { StepsLeadOffices M.serving }
{}

/// What a stop leaves of a server is what its steps let it leave, one after the other. After a round that was not kept that is what
/// could be left before it, or what would be left if it were kept, until an edit is acknowledged or a policy adopted.
pub fn steps_leave<M: Service>()
    ensures { StepsLeave M.serving }
{}

/// Whatever a server did over a store that is in a transaction, where that is not kept all is left that was left before.
pub fn steps_fall_back<M: Service>()
    ensures { StepsFallBack M.serving }
{}

/// The log gains the lines of the steps in their order, as long as each could be written: those of what was answered, and for
/// each policy one that tells what came of it.
pub fn logs_tell_steps<M: Service>()
    ensures { LogsTellSteps M.serving }
{}
