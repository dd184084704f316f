// A law of sessions, the contract of a function.
ghost use Rattle.live_session.specs.SessionLaws.{ScriptIsSession};

/// The lines of a script, one by one: without their last lines, the replies are what `trace` prints.
pub fn script_is_session()
    ensures { ScriptIsSession }
{}
