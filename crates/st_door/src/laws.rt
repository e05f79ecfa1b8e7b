//! A law of scripts: it is shown once, and calling it does nothing.
ghost use Rattle.std.specs.Prelude.{◌≡◌, ℕ, List};
ghost use Rattle.st_door.specs.Script.{status_of_script};
ghost use Rattle.st_door.specs.declared.mode.Mode.TheVariants.{Run, Trace};

/// A script has the same status in each mode: what is kept for traces changes nothing of what lines come to.
///
/// Ours: docs/SCRIPTS.md, Traces.
pub fn each_mode_has_the_same_status()
    ensures { (input : List ℕ) → status_of_script Trace input ≡ status_of_script Run input }
{}
