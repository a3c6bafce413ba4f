// A small scenario, stated by its text.
ghost use Rattle.std.specs.Prelude.{IfOk};
ghost use Rattle.stx_judge.specs.Judge.{IsValid};

use std::alloc::Global;
use stx_read::{ReadFault, read_scenario};
use stx_scenario::Scenario;

/// A method that writes a row and reads it, in a transaction.
const SMALLEST: &str =
    "beans = [{name=\"b\"}]\nmethods = [{bean=\"b\",name=\"m\",tx={},body=[\"write a 5\",\"read a\"]}]\nclients = [{calls=[\"b.m\"]}]\n";

pub fn smallest(alloc: Global) -> Result<Scenario, ReadFault>
    ensures { IfOk result (λ scenario. IsValid scenario) }
{
    read_scenario(alloc, SMALLEST.as_bytes())
}
