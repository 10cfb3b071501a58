//! Laws of builds and refusals. Each function does nothing: its contract is the law.
ghost use Rattle.rc_build.specs.Laws.{BuiltLaw, RefusalLaw};

/// Engines may run over the program of patterns that can be built, and the kept groups have as many
/// slots as the program.
pub fn built_patterns_run()
    ensures { BuiltLaw }
{}

/// Except for `Memory`, no error applies to patterns that can be built, and exactly one applies to
/// the others.
pub fn refusals_are_exact()
    ensures { RefusalLaw }
{}
