ghost use Rattle.std.specs.Prelude.{◌≡◌, ◌+◌, ◌<◌, ◌≤◌, ◌++◌, [], ◌∷◌, length, All, IfErr, OnOk};
ghost use Rattle.scfs_base.specs.Limits.{carried_limit};
ghost use Rattle.scfs_model.specs.UnitFormat.{under};
ghost use Rattle.scfs_schedule.specs.declared.types.Header.{Header};
ghost use Rattle.scfs_world.specs.Doing.{AsksAmong, line_out, lines_out, net_by, net_with, step_out, steps_out};
ghost use Rattle.scfs_world.specs.declared.fault.StepFault.TheVariants as StepFault;

use crate::StepFault;
use crate::seat::StepAsked;
use crate::shown::request_line;
use scfs_agent::Output;
use scfs_base::{Memory, Sequence};
use scfs_net::Net;
use scfs_schedule::Line;
use std::alloc::Global;
use std::collections::VecDeque;

/// A step waits behind the others.
fn ask(asked: &mut VecDeque<StepAsked>, step: StepAsked) -> Result<(), Memory>
    ensures { OnOk result (asked.new.items ≡ asked.old.items ++ step ∷ []) }
{
    asked.push_back(step)?;
    Ok(())
}

/// Does one output of an agent: a step waits for the space, a request waits at its cloud, and lines say so.
fn do_output(
    alloc: Global,
    output: Output,
    asked: &mut VecDeque<StepAsked>,
    net: &mut Net,
    lines: &mut Sequence<Line>,
) -> Result<(), StepFault>
    requires clouds { AsksAmong (length net.old.clouds) output }
    requires carried { net.old.carried ≤ carried_limit }
    ensures lines { OnOk result ((header : Header) → lines.new ≡ lines.old ++ line_out (under header) output) }
    ensures asked { OnOk result (asked.new.items ≡ asked.old.items ++ step_out output) }
    ensures net { OnOk result (net.new ≡ net_by net.old output) }
    ensures carried { OnOk result (net.new.carried ≤ carried_limit) }
    ensures too_large { IfErr result (λ fault. fault ≡ StepFault.TooLarge → carried_limit < (net_by net.old output).carried) }
{
    match output {
        Output::Space(request, step) => ask(asked, StepAsked { request, step })?,
        Output::Cloud(cloud, request, body) => {
            lines.push(request_line(alloc, request, cloud, &body)?)?;
            net.ask(cloud, request, body)?;
        }
        Output::Line(line) => lines.push(line)?,
    }
    Ok(())
}

/// Does the outputs of an agent, in their order.
pub fn do_outputs(
    alloc: Global,
    outputs: Sequence<Output>,
    asked: &mut VecDeque<StepAsked>,
    net: &mut Net,
    lines: &mut Sequence<Line>,
) -> Result<(), StepFault>
    requires clouds { All (AsksAmong (length net.old.clouds)) outputs }
    requires carried { net.old.carried ≤ carried_limit }
    ensures lines { OnOk result ((header : Header) → lines.new ≡ lines.old ++ lines_out (under header) outputs) }
    ensures asked { OnOk result (asked.new.items ≡ asked.old.items ++ steps_out outputs) }
    ensures net { OnOk result (net.new ≡ net_with net.old outputs) }
    ensures carried { OnOk result (net.new.carried ≤ carried_limit) }
    ensures too_large { IfErr result (λ fault. fault ≡ StepFault.TooLarge → carried_limit < (net_with net.old outputs).carried) }
{
    let mut outputs = outputs;
    'each: while let Some(output) = outputs.pop_front() {
        do_output(alloc, output, asked, net, lines)?;
    }
    Ok(())
}
