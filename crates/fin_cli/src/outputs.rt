//! The outputs of a job, written one after another.
ghost use Rattle.std.specs.Prelude.{◌≡◌, ◌<◌, ◌≤◌, ℕ, All, IfErr, length};
ghost use Rattle.fin_ports.specs.Bytes.{PutsAll};
ghost use Rattle.fin_ports.specs.Causes.{Rose};
ghost use Rattle.fin_tensor.specs.declared.storage.Storage.{Storage};
ghost use Rattle.fin_text.specs.declared.write.WriteFail.TheVariants.{Fault};
ghost use Rattle.fin_cli.specs.Due.{output_text, outputs_text};

use fin_ast::Header;
use fin_ports::Sink;
use fin_tensor::Storage;
use fin_text::{WriteFail, write_tensor};
use std::alloc::Global;

/// Writes the text of each output under its header's name, or a front of them all.
pub(crate) fn write_outputs<O: Sink>(
    alloc: Global,
    headers: &[Header],
    outputs: &[(u8, Storage)],
    out: &mut O,
) -> Result<(), WriteFail>
    requires named { All (λ (output : ℕ × Storage). output.0 < length headers.now) outputs.now }
    ensures bytes { PutsAll (O.taken out.old) (O.taken out.new) result (outputs_text headers.now outputs.now) }
    ensures cause { IfErr result (λ e. e ≡ Fault → Rose (O.faults out.old) (O.faults out.new)) }
    ensures counted { O.faults out.old ≤ O.faults out.new }
    ensures later { O.Later out.old out.new }
{
    for output in outputs {
        if let Err(fail) = write_output(alloc, headers, output, out) {
            return Err(fail);
        }
    }
    Ok(())
}

fn write_output<O: Sink>(
    alloc: Global,
    headers: &[Header],
    output: &(u8, Storage),
    out: &mut O,
) -> Result<(), WriteFail>
    requires named { output.now.0 < length headers.now }
    ensures bytes { PutsAll (O.taken out.old) (O.taken out.new) result (output_text headers.now output.now) }
    ensures cause { IfErr result (λ e. e ≡ Fault → Rose (O.faults out.old) (O.faults out.new)) }
    ensures counted { O.faults out.old ≤ O.faults out.new }
    ensures later { O.Later out.old out.new }
{
    let header = &headers[usize::from(output.0)];
    write_tensor(alloc, out, &header.name, &output.1)
}
