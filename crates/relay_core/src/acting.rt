//! ACTIONs and the button: a method of the switch or of the script table, executed on the core (IEC
//! 62056-5-3).
ghost use Rattle.std.specs.Prelude.{◌≡◌};
ghost use Rattle.relay_core.specs.World.{World};
ghost use Rattle.relay_core.specs.Stands.{StandsFor};
ghost use Rattle.relay_core.specs.Acting.{switch_trigger, at_execution, at_method, at_execute, at_button};
ghost use Rattle.disconnect_control.specs.declared.state.ControlState.TheVariants.{Connected};
ghost use Rattle.disconnect_control.specs.Control.{Control};
ghost use Rattle.disconnect_control.specs.Transitions.{is_state};
ghost use Rattle.relay_core.specs.Switch.{with_entries_since, at_trigger};

use crate::access::method_target;
use crate::relay::RelayCore;
use crate::scripts::Origin;
use cosem_axdr::Data;
use cosem_names::{Instance, Level, MethodRef, ResultCode};
use disconnect_control::Trigger;

// Returns the trigger of a method of the switch, or `None` if the switch has no such method.
#[tactic(auto, unfolding(crate::specs::Acting::switch_trigger))]
fn switch_trigger(number: u8) -> Option<Trigger>
    ensures { result ≡ switch_trigger number }
{
    match number {
        1 => Some(Trigger::RemoteDisconnect),
        2 => Some(Trigger::RemoteReconnect),
        _ => None,
    }
}

impl RelayCore {
    // Ends the runs of both limiters if the switch has entered Connected. `was_on` says whether
    // the supply was on before.
    #[tactic(auto, unfolding(crate::specs::Switch::with_entries_since))]
    fn note_entry(&mut self, was_on: bool)
        ensures world { (w : World) (before : Control) → StandsFor self.old w
            → was_on ≡ is_state before.state Connected
            → StandsFor self.new (with_entries_since before w) }
        ensures scripts { self.new.scripts ≡ self.old.scripts }
        ensures schedules { self.new.schedules ≡ self.old.schedules }
    {
        if was_on || !self.control.output() {
            return;
        }
        self.import.closed();
        self.export.closed();
    }

    // Applies a trigger to the switch.
    #[tactic(auto, unfolding(crate::specs::Switch::at_trigger))]
    pub(crate) fn pull(&mut self, trigger: Trigger) -> ResultCode
        ensures world { (w : World) → StandsFor self.old w
            → StandsFor self.new (at_trigger trigger w).world }
        ensures code { (w : World) → StandsFor self.old w → result ≡ (at_trigger trigger w).code }
        ensures scripts { self.new.scripts ≡ self.old.scripts }
        ensures schedules { self.new.schedules ≡ self.old.schedules }
    {
        let was_on = self.control.output();
        let code = self.control.apply(trigger);
        self.note_entry(was_on);
        code
    }

    // Executes the script whose selector is the parameter, a long-unsigned.
    #[tactic(auto, unfolding(crate::specs::Acting::at_execution))]
    fn execute_script(&mut self, parameter: &Option<Data>) -> ResultCode
        ensures world { (w : World) → StandsFor self.old w
            → StandsFor self.new (at_execution parameter.now w).world }
        ensures code { (w : World) → StandsFor self.old w
            → result ≡ (at_execution parameter.now w).code }
    {
        let Some(value) = parameter else {
            return ResultCode::TypeUnmatched;
        };
        let Some(selector) = value.long_unsigned() else {
            return ResultCode::TypeUnmatched;
        };
        match self.scripts.step_count(selector) {
            Some(count) => self.run_steps(Origin::Remote, selector, count),
            None => ResultCode::OtherReason,
        }
    }

    // Executes a method of an object.
    #[tactic(auto, unfolding(crate::specs::Acting::at_method))]
    fn call(&mut self, instance: Instance, number: u8, parameter: &Option<Data>) -> ResultCode
        ensures world { (w : World) → StandsFor self.old w
            → StandsFor self.new (at_method instance number parameter.now w).world }
        ensures code { (w : World) → StandsFor self.old w
            → result ≡ (at_method instance number parameter.now w).code }
    {
        match (instance, number) {
            (Instance::ScriptTable, 1) => self.execute_script(parameter),
            (Instance::DisconnectControl, _) => match switch_trigger(number) {
                Some(trigger) => self.pull(trigger),
                None => ResultCode::ReadWriteDenied,
            },
            _ => ResultCode::ReadWriteDenied,
        }
    }

    // Executes a client's ACTION.
    #[tactic(auto, unfolding(crate::specs::Acting::at_execute))]
    pub(crate) fn execute(
        &mut self,
        level: Level,
        method: &MethodRef,
        parameter: &Option<Data>,
    ) -> ResultCode
        ensures world { (w : World) → StandsFor self.old w
            → StandsFor self.new (at_execute level method.now parameter.now w).world }
        ensures code { (w : World) → StandsFor self.old w
            → result ≡ (at_execute level method.now parameter.now w).code }
    {
        match method_target(level, method) {
            Ok(instance) => self.call(instance, method.number, parameter),
            Err(refusal) => refusal,
        }
    }

    // Handles a press of the button: disconnects a connected switch and reconnects any other.
    #[tactic(auto, unfolding(crate::specs::Acting::at_button))]
    pub(crate) fn press(&mut self) -> ResultCode
        ensures world { (w : World) → StandsFor self.old w
            → StandsFor self.new (at_button w).world }
        ensures code { (w : World) → StandsFor self.old w → result ≡ (at_button w).code }
    {
        if self.control.output() {
            self.pull(Trigger::ManualDisconnect)
        } else {
            self.pull(Trigger::ManualReconnect)
        }
    }
}
