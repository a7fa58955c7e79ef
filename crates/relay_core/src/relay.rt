//! `RelayCore`, the state of the meter: a new meter, copies, and the values that callers read.
ghost use Rattle.std.specs.Prelude.{◌≡◌, IfOk};
ghost use Rattle.relay_core.specs.World.{IsDeviceName};

use crate::schedules::Schedules;
use cosem_axdr::Octets;
use cosem_names::Which;
use disconnect_control::{ControlMode, ControlState, DisconnectControl};
use limiter_core::Limiter;
use script_steps::ScriptTable;
use std::alloc::{AllocError, Global};
use wire_bytes::and_keep;

/// The state of the meter: its device name, its supply switch, its limiters (each with the last
/// moment of the clock), its scripts and its schedules.
#[derive(Debug, Drop)]
pub struct RelayCore {
    pub(crate) device: Octets,
    pub(crate) control: DisconnectControl,
    pub(crate) import: Limiter,
    pub(crate) export: Limiter,
    pub(crate) scripts: ScriptTable,
    pub(crate) schedules: Schedules,
    /// The device name has 1 to 16 bytes.
    pub ghost named: { IsDeviceName device },
    /// Both limiters have the meter's clock.
    pub ghost one_clock: { export.moment ≡ import.moment },
}

// Returns copies of a core's lists: the device name, the scripts and the schedules.
pub(crate) fn copy_lists(
    alloc: Global,
    device: &Octets,
    scripts: &ScriptTable,
    schedules: &Schedules,
) -> Result<(Octets, ScriptTable, Schedules), AllocError>
    ensures device { IfOk result (λ copies. copies.0 ≡ device.now) }
    ensures scripts { IfOk result (λ copies. copies.1 ≡ scripts.now) }
    ensures schedules { IfOk result (λ copies. copies.2 ≡ schedules.now) }
{
    let device = device.try_clone(alloc)?;
    let (device, scripts) = and_keep(device, scripts.try_clone(alloc))?;
    let ((device, scripts), schedules) = and_keep((device, scripts), schedules.try_clone(alloc))?;
    Ok((device, scripts, schedules))
}

impl RelayCore {
    ghost use Rattle.disconnect_control.specs.declared.state.ControlState.TheVariants.{Connected};
    ghost use Rattle.disconnect_control.specs.Transitions.{is_state};
    ghost use Rattle.limiter_core.specs.Settings.{active_threshold};
    ghost use Rattle.relay_core.specs.Limiters.{limiter_state_of};
    ghost use Rattle.relay_core.specs.World.{World, new_world};
    ghost use Rattle.relay_core.specs.Stands.{StandsFor, LimiterStateStands};

    /// Makes a new meter. `device` is its logical device name, 1 to 16 bytes. The switch is
    /// connected, in mode 0; there are no scripts; no schedule is ever due; the limiters'
    /// thresholds are the greatest possible; and no sample or moment has arrived. Fails if out of
    /// memory.
    pub fn new(alloc: Global, device: &Octets) -> Result<RelayCore, AllocError>
        requires { IsDeviceName device.now }
        ensures { IfOk result (λ core. StandsFor core (new_world device.now)) }
    {
        Ok(RelayCore {
            device: device.try_clone(alloc)?,
            control: DisconnectControl::new(),
            import: Limiter::new(alloc),
            export: Limiter::new(alloc),
            scripts: ScriptTable::new(alloc),
            schedules: Schedules::new(alloc),
        })
    }

    // Returns copies of the limiters: import, then export.
    fn copy_limiters(&self, alloc: Global) -> Result<(Limiter, Limiter), AllocError>
        ensures import { IfOk result (λ copies. copies.0 ≡ self.now.import) }
        ensures export { IfOk result (λ copies. copies.1 ≡ self.now.export) }
    {
        let import = self.import.try_clone(alloc)?;
        let export = self.export.try_clone(alloc)?;
        Ok((import, export))
    }

    /// Returns a copy of the core. Fails if out of memory.
    pub fn try_copy(&self, alloc: Global) -> Result<RelayCore, AllocError>
        ensures { IfOk result (λ copy. copy ≡ self.now) }
    {
        let (import, export) = self.copy_limiters(alloc)?;
        let lists = copy_lists(alloc, &self.device, &self.scripts, &self.schedules)?;
        let (device, scripts, schedules) = lists;
        Ok(RelayCore {
            device,
            control: self.control,
            import,
            export,
            scripts,
            schedules,
        })
    }

    // Returns one of the limiters.
    pub(crate) fn limiter(&self, which: Which) -> &Limiter
        ensures { (w : World) → StandsFor self.now w
            → LimiterStateStands result.now w.moment (limiter_state_of which w) }
    {
        match which {
            Which::Import => &self.import,
            Which::Export => &self.export,
        }
    }

    /// Returns the state of the supply switch (IEC 62056-6-2, class 70, control_state).
    pub fn state(&self) -> ControlState
        ensures { (w : World) → StandsFor self.now w → result ≡ w.control.state }
    {
        self.control.state()
    }

    /// Returns the mode of the supply switch (IEC 62056-6-2, class 70, control_mode).
    pub fn mode(&self) -> ControlMode
        ensures { (w : World) → StandsFor self.now w → result ≡ w.control.mode }
    {
        self.control.mode()
    }

    /// Returns whether the supply is on: exactly if the state is Connected.
    pub fn output(&self) -> bool
        ensures { (w : World) → StandsFor self.now w → result ≡ is_state w.control.state Connected }
    {
        self.control.output()
    }

    /// Returns the last moment of the clock, in seconds since 2000-01-01 00:00:00 of the meter's
    /// time, or `None` before the first.
    pub fn last_moment(&self) -> Option<u32>
        ensures { (w : World) → StandsFor self.now w → result ≡ w.moment }
    {
        self.import.moment()
    }

    /// Returns the last sample of imported power, in watts; 0 before the first.
    pub fn value(&self) -> u32
        ensures { (w : World) → StandsFor self.now w → result ≡ w.import.last }
    {
        self.import.value()
    }

    /// Returns the last sample of a limiter, in watts; 0 before the first.
    pub fn value_of(&self, which: Which) -> u32
        ensures { (w : World) → StandsFor self.now w → result ≡ (limiter_state_of which w).last }
    {
        self.limiter(which).value()
    }

    /// Returns the active threshold of the import limiter, in watts.
    pub fn threshold(&self) -> u32
        ensures { (w : World) → StandsFor self.now w
            → result ≡ active_threshold w.import.settings w.moment }
    {
        self.import.threshold()
    }

    /// Returns the active threshold of a limiter, in watts.
    pub fn threshold_of(&self, which: Which) -> u32
        ensures { (w : World) → StandsFor self.now w
            → result ≡ active_threshold (limiter_state_of which w).settings w.moment }
    {
        self.limiter(which).threshold()
    }
}
