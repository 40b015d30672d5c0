//! What is true of a link, however its ends are called.

ghost use Rattle.std.specs.Prelude.{◌≡◌, List, ◌++◌};
ghost use Rattle.agent_link.specs.Plans.{Plan};
ghost use Rattle.agent_link.specs.Fates.{let_through};
ghost use Rattle.agent_link.specs.Line.{Step, after_all, unused};

/// What was given or let go of, what is known and what was let through since are, in order, what the plan lets through of all that was put.
pub fn in_order()
    ensures { (plan : Plan) (steps : List Step) → let l = after_all steps (unused plan) in
        (l.gone ++ l.known) ++ l.out ≡ let_through plan l.put }
{}
