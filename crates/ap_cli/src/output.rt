ghost use Rattle.std.specs.Prelude.{◌≡◌, ◌≤◌, ◌<◌, length, IfErr, OnOk, OnErr};
ghost use Rattle.ap_text.specs.Causes.{Rose};
ghost use Rattle.ap_tree.specs.Written.{Gains};
ghost use Rattle.ap_cli.specs.Output.{GainsFront};
ghost use Rattle.ap_cli.specs.declared.stop.Stop.TheVariants.{Output};

use crate::stop::Stop;
use ap_tree::Sink;

/// Writes all of a text.
pub(crate) fn write_text<O: Sink>(out: &mut O, text: &[u8]) -> Result<(), Stop>
    ensures whole { OnOk result (Gains (O.written out.old) (O.written out.new) text.now) }
    ensures front { OnErr result (GainsFront (O.written out.old) (O.written out.new) text.now) }
    ensures short { OnErr result (O.room out.old < length text.now) }
    ensures cause { OnErr result (Rose (O.faults out.old) (O.faults out.new)) }
    ensures stop { IfErr result (λ stop. stop ≡ Output) }
    ensures later { O.faults out.old ≤ O.faults out.new }
{
    let mut rest = text;
    while !rest.is_empty() {
        match out.write(rest) {
            Ok(count) => rest = &rest[count..],
            Err(_) => return Err(Stop::Output),
        }
    }
    Ok(())
}
