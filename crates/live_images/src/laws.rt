// A law of sessions, the contract of a function.
ghost use Rattle.live_images.specs.AlongLaws.{ScriptIsSessionAlong};

/// The lines of a script, one by one: without their last lines, the replies are what `debug` prints.
pub fn script_is_session_along()
    ensures { ScriptIsSessionAlong }
{}
