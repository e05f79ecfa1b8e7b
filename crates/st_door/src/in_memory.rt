//! A script whose input and output are in memory.
ghost use Rattle.std.specs.Prelude.{◌≡◌, ◌<◌, ◌≤◌, ◌⊎◌, IfOk, IfErr, OnOk, Err, length};
ghost use Rattle.st_door.specs.Script.{output_of, status_of_script};
ghost use Rattle.st_doors.specs.declared.script_fault.ScriptFault.TheVariants.{Memory, TooLong};

use crate::run::{run_input, trace_input};
use crate::{Mode, RunOutput};
use st_doors::{Counted, INPUT_LIMIT, ScriptFault};
use std::alloc::Global;
use std::marker::Brand;
use std::sync::ledger::{Blank, Ledger};

/// Does the lines of an input that is not too long. The blank opens the ledger that counts failures of writing.
fn run_counted<L: Ledger>(
    alloc: Global,
    mode: Mode,
    input: &[u8],
    blank: Blank,
) -> Result<RunOutput, ScriptFault>
    requires blank { (blank.name ≡ L.name) × (blank.parts ≡ L.parts) × (0 < blank.parts) }
    ensures output { IfOk result (λ done. done.output.items ≡ output_of mode input.now) }
    ensures status { IfOk result (λ done. done.status ≡ status_of_script mode input.now) }

    ensures faults { IfErr result (λ fault. fault ≡ Memory) }
{
    let mut writer: Counted<Vec<u8>, L> = Counted::new(Vec::new(alloc), blank);
    let done = match mode {
        Mode::Run => run_input(alloc, input, &mut writer),
        Mode::Trace => trace_input(alloc, input, &mut writer),
    };
    match done {
        Ok(status) => Ok(RunOutput {
            output: writer.into_inner(),
            status,
        }),
        Err(_) => Err(ScriptFault::Memory),
    }
}

/// Runs a script whose bytes are in memory, and answers the bytes that it prints, or in mode `Trace` the traces, with its
/// status.
///
/// `TooLong`: the input has more than 1,048,576 bytes. `Memory`: memory was wanted and there was none.
///
/// Ours: docs/SCRIPTS.md.
pub fn run_in_memory(alloc: Global, mode: Mode, input: &[u8]) -> Result<RunOutput, ScriptFault>
    ensures output { IfOk result (λ done. done.output.items ≡ output_of mode input.now) }
    ensures status { IfOk result (λ done. done.status ≡ status_of_script mode input.now) }
    ensures short { OnOk result (length input.now ≤ INPUT_LIMIT) }

    ensures faults { IfErr result (λ fault. (fault ≡ TooLong) ⊎ (fault ≡ Memory)) }
    ensures too_long { result ≡ Err ScriptFault.TooLong → INPUT_LIMIT < length input.now }
{
    if INPUT_LIMIT < input.len() {
        return Err(ScriptFault::TooLong);
    }
    run_counted::<Brand>(alloc, mode, input, Blank::new(1))
}
