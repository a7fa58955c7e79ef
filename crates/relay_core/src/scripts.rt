//! Runs a script on the core, step by step, until a step is refused (IEC 62056-6-2, class 9).
ghost use Rattle.std.specs.Prelude.{◌≡◌, length};
ghost use Rattle.relay_core.specs.Scripts.{disconnect_by, reconnect_by, at_step, at_script};
ghost use Rattle.relay_core.specs.Stands.{StandsFor};
ghost use Rattle.relay_core.specs.World.{World};
ghost use Rattle.script_steps.specs.Table.{running_steps};

use crate::relay::RelayCore;
use cosem_names::ResultCode;
use disconnect_control::Trigger;
use limiter_attributes::Setting;
use script_steps::Step;

// Who runs a script.
#[derive(Clone, Copy, Debug, PartialEq, Eq)]
pub(crate) enum Origin {
    // A client or a schedule.
    Remote,
    // The meter itself.
    Local,
}

impl Origin {
    // Returns the trigger of a step that disconnects.
    fn disconnect(self) -> Trigger
        ensures { result ≡ disconnect_by self }
    {
        match self {
            Origin::Remote => Trigger::RemoteDisconnect,
            Origin::Local => Trigger::LocalDisconnect,
        }
    }

    // Returns the trigger of a step that reconnects.
    fn reconnect(self) -> Trigger
        ensures { result ≡ reconnect_by self }
    {
        match self {
            Origin::Remote => Trigger::RemoteReconnect,
            Origin::Local => Trigger::LocalReconnect,
        }
    }
}

impl RelayCore {
    // Performs a step of a script, as the client's write or method would.
    #[tactic(auto, unfolding(crate::specs::Scripts::at_step))]
    fn act(&mut self, origin: Origin, step: Step) -> ResultCode
        ensures world { (w : World) → StandsFor self.old w
            → StandsFor self.new (at_step origin step w).world }
        ensures code { (w : World) → StandsFor self.old w → result ≡ (at_step origin step w).code }
        ensures scripts { self.new.scripts ≡ self.old.scripts }
        ensures schedules { self.new.schedules ≡ self.old.schedules }
    {
        match step {
            Step::WriteMode(mode) => self.write_mode(mode),
            Step::Disconnect => self.pull(origin.disconnect()),
            Step::Reconnect => self.pull(origin.reconnect()),
            Step::WriteNormal(which, watts) => {
                self.set_limiter(which, Setting::ThresholdNormal(watts))
            }
            Step::WriteEmergency(which, watts) => {
                self.set_limiter(which, Setting::ThresholdEmergency(watts))
            }
            Step::WriteMinOver(which, seconds) => {
                self.set_limiter(which, Setting::MinOverThresholdDuration(seconds))
            }
            Step::WriteMinUnder(which, seconds) => {
                self.set_limiter(which, Setting::MinUnderThresholdDuration(seconds))
            }
            Step::WriteProfile(which, profile) => {
                self.set_limiter(which, Setting::Profile(profile))
            }
        }
    }

    // Runs the script of a selector. A selector without a script runs no steps.
    #[tactic(auto, using(crate::proofs::ScriptLemmas::no_script))]
    pub(crate) fn run_script(&mut self, origin: Origin, selector: u16) -> ResultCode
        ensures world { (w : World) → StandsFor self.old w
            → StandsFor self.new (at_script origin (running_steps selector w.scripts) w).world }
        ensures code { (w : World) → StandsFor self.old w
            → result ≡ (at_script origin (running_steps selector w.scripts) w).code }
        ensures schedules { self.new.schedules ≡ self.old.schedules }
    {
        match self.scripts.step_count(selector) {
            Some(count) => self.run_steps(origin, selector, count),
            None => ResultCode::Success,
        }
    }

    // Runs the steps of a selector's script, up to and including the first that is refused.
    // `count` is the number of steps.
    pub(crate) fn run_steps(&mut self, origin: Origin, selector: u16, count: u8) -> ResultCode
        requires { count ≡ length (running_steps selector self.old.scripts) }
        ensures world { (w : World) → StandsFor self.old w
            → StandsFor self.new (at_script origin (running_steps selector w.scripts) w).world }
        ensures code { (w : World) → StandsFor self.old w
            → result ≡ (at_script origin (running_steps selector w.scripts) w).code }
        ensures scripts { self.new.scripts ≡ self.old.scripts }
        ensures schedules { self.new.schedules ≡ self.old.schedules }
    {
        'steps: for i in 0..count {
            let step = self.scripts.step(selector, i);
            match self.act(origin, step) {
                ResultCode::Success => {}
                refused => return refused,
            }
        }
        ResultCode::Success
    }
}
