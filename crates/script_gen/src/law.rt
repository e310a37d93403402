//! The law of the generated script, as the contract of a function that does nothing.

ghost use Rattle.script_gen.specs.Law.{GeneratedScriptsAreAccepted};

/// The script grammar accepts the generated script of each number of calls from 1 to `SIM_CALL_LIMIT`, for a replay.
pub fn generated_scripts_are_accepted()
    ensures { GeneratedScriptsAreAccepted }
{}
