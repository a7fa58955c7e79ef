//! The saved state of a core: saving, validating and restoring it.
ghost use Rattle.std.specs.Prelude.{◌≡◌, ◌↔◌, IfOk, IsErrOf, IfSome, IsSome, IsTrue};
ghost use Rattle.relay_core.specs.Numbers.{fault_number};
ghost use Rattle.limiter_core.specs.State.{IsFit};
ghost use Rattle.relay_core.specs.Agreeing.{Agree, AreInRange, IsWorld};
ghost use Rattle.relay_core.specs.Opening.{limiter_opening_of, opening_of, opened_limiter, world_of_opening, IsFitLimiterOpening, IsFitOpening};
ghost use Rattle.relay_core.specs.Stands.{StandsFor, LimiterStateStands};
ghost use Rattle.relay_core.specs.World.{World};

use crate::relay::{RelayCore, copy_lists};
use crate::schedules::Schedules;
use cosem_axdr::Octets;
use disconnect_control::{ControlMode, ControlState, DisconnectControl};
use limiter_core::{Count, Limiter, MAX_GROUPS, Settings, are_fit};
use script_steps::ScriptTable;
use std::alloc::{AllocError, AllocFailed, Global};
use thiserror::Error;
use wire_bytes::and_keep;

/// The largest length of the logical device name (IEC 62056-6-2) in this meter, in bytes.
pub const MAX_DEVICE_NAME: usize = 16;

/// The saved state of a limiter: its settings, its last sample and both runs.
#[derive(Debug, Drop)]
pub struct LimiterOpening {
    /// The settings.
    pub settings: Settings,
    /// The last sample, in watts; 0 before the first.
    pub value: u32,
    /// The run of samples over the threshold, and whether it has fired.
    pub over: Count,
    /// The run of samples under the threshold, and whether it has fired.
    pub under: Count,
}

/// The saved state of a core: all of its state, with the runs instead of the samples.
#[derive(Debug, Drop)]
pub struct Opening {
    /// The logical device name, 1 to 16 bytes.
    pub device: Octets,
    /// The state of the switch.
    pub state: ControlState,
    /// The mode of the switch.
    pub mode: ControlMode,
    /// The last moment of the clock, in seconds since 2000-01-01 00:00:00 of the meter's time.
    pub moment: Option<u32>,
    /// The limiter of the imported power.
    pub import: LimiterOpening,
    /// The limiter of the exported power.
    pub export: LimiterOpening,
    /// The script table.
    pub scripts: ScriptTable,
    /// The four schedules.
    pub schedules: Schedules,
}

/// Why an opening could not be restored.
#[derive(Clone, Copy, Debug, PartialEq, Eq, Error)]
pub enum OpeningFault {
    /// No core can have this state: the device name is not 1 to 16 bytes, the mode is 0 outside
    /// Connected, a limiter has more than 32 group ids, or no samples give its runs.
    #[error("an opening that no core has")]
    Unfit = 1,
    /// Out of memory.
    #[error("out of memory")]
    Memory = 2,
}

/// Converts a fault to its number, 1 to 2.
impl From<OpeningFault> for u8 {
    ghost from_gives = { λ fault number. number ≡ fault_number fault };

    fn from(fault: OpeningFault) -> u8 {
        fault as u8
    }
}

impl From<AllocError> for OpeningFault {
    ghost use Rattle.relay_core.specs.declared.opening.OpeningFault.TheVariants.{Memory};

    ghost from_gives = { λ _ fault. fault ≡ Memory };

    fn from(_error: AllocError) -> OpeningFault {
        OpeningFault::Memory
    }
}

impl<T: Drop> From<AllocFailed<T>> for OpeningFault {
    ghost use Rattle.relay_core.specs.declared.opening.OpeningFault.TheVariants.{Memory};

    ghost from_gives = { λ _ fault. fault ≡ Memory };

    fn from(_error: AllocFailed<T>) -> OpeningFault {
        OpeningFault::Memory
    }
}

impl LimiterOpening {
    // Saves the state of a limiter.
    fn from_limiter(alloc: Global, limiter: &Limiter) -> Result<LimiterOpening, AllocError>
        ensures opening { IfOk result (λ opening. opening ≡ limiter_opening_of limiter.now) }
        ensures runs { IfOk result
            (λ _. IsFit limiter.now.last limiter.now.over limiter.now.under) }
        ensures fit { IfOk result IsFitLimiterOpening }
        ensures range { IfOk result (λ opening. AreInRange opening.settings) }
    {
        let settings = limiter.settings().try_clone(alloc)?;
        Ok(LimiterOpening {
            settings,
            value: limiter.value(),
            over: limiter.over_run(),
            under: limiter.under_run(),
        })
    }

    // Returns whether a limiter can have this state.
    fn is_fit(&self) -> bool
        ensures { IsTrue result ↔ IsFitLimiterOpening self.now }
    {
        let few = self.settings.groups.as_slice().len() <= MAX_GROUPS;
        few && are_fit(self.value, self.over, self.under)
    }

    // Returns the limiter of this opening, with its clock at a moment.
    fn limiter(&self, alloc: Global, moment: Option<u32>) -> Result<Limiter, AllocError>
        requires { IsFitLimiterOpening self.now }
        ensures same { IfOk result (λ limiter. limiter_opening_of limiter ≡ self.now) }
        ensures limiter_state { IfOk result
            (λ limiter. LimiterStateStands limiter moment (opened_limiter self.now)) }
    {
        let limiter = Limiter::from_parts(self.settings.try_clone(alloc)?, moment);
        let Some(limiter) = limiter.with_runs(self.value, self.over, self.under) else {
            unreachable!()
        };
        Ok(limiter)
    }
}

impl RelayCore {
    // Returns the state of the core.
    #[tactic(auto, using(crate::proofs::OpeningLemmas::table_in_range))]
    fn save_state(&self, alloc: Global) -> Result<Opening, AllocError>
        ensures opening { IfOk result (λ opening. opening ≡ opening_of self.now) }
        ensures import { IfOk result
            (λ _. IsFit self.now.import.last self.now.import.over self.now.import.under) }
        ensures export { IfOk result
            (λ _. IsFit self.now.export.last self.now.export.over self.now.export.under) }
        ensures fit { IfOk result IsFitOpening }
        ensures range { IfOk result (λ opening. IsWorld (world_of_opening opening)) }
    {
        let import = LimiterOpening::from_limiter(alloc, &self.import)?;
        let (import, export) = and_keep(import, LimiterOpening::from_limiter(alloc, &self.export))?;
        let copies = copy_lists(alloc, &self.device, &self.scripts, &self.schedules);
        let ((import, export), (device, scripts, schedules)) = and_keep((import, export), copies)?;
        Ok(Opening {
            device,
            state: self.control.state(),
            mode: self.control.mode(),
            moment: self.import.moment(),
            import,
            export,
            scripts,
            schedules,
        })
    }

    /// Saves the state of the core, which [`from_opening`](RelayCore::from_opening) restores. No
    /// reply distinguishes the world that the opening gives from any that the core represents, and
    /// the opening's numbers are in their ranges. Fails if out of memory.
    pub fn to_opening(&self, alloc: Global) -> Result<Opening, AllocError>
        ensures opening { IfOk result (λ opening. opening ≡ opening_of self.now) }
        ensures fit { IfOk result IsFitOpening }
        ensures agrees { IfOk result (λ opening. (w : World) → StandsFor self.now w
            → Agree (world_of_opening opening) w) }
        ensures range { IfOk result (λ opening. IsWorld (world_of_opening opening)) }
    {
        let opening = self.save_state(alloc)?;
        Ok(opening)
    }

    /// Proves that the core represents the world that its opening gives. Does nothing at run time.
    pub fn stands_for_its_opening(&self)
        ensures { StandsFor self.now (world_of_opening (opening_of self.now)) }
    {
        let _import = self.import.over_run();
        let _export = self.export.over_run();
    }

    /// Restores a core from an opening. Errors, in this order: `Unfit` if no core can have this
    /// state, `Memory` if out of memory.
    pub fn from_opening(alloc: Global, opening: &Opening) -> Result<RelayCore, OpeningFault>
        ensures unfit { IsErrOf result OpeningFault.Unfit ↔ (¬ IsFitOpening opening.now) }
        ensures fit { IfOk result (λ _. IsFitOpening opening.now) }
        ensures world { IfOk result (λ core. StandsFor core (world_of_opening opening.now)) }
        ensures same { IfOk result (λ core. opening_of core ≡ opening.now) }
    {
        let Some(control) = opening.fit_control() else {
            return Err(OpeningFault::Unfit);
        };
        let limiters = opening.limiters(alloc)?;
        let copies = copy_lists(alloc, &opening.device, &opening.scripts, &opening.schedules);
        let ((import, export), (device, scripts, schedules)) = and_keep(limiters, copies)?;
        Ok(RelayCore {
            device,
            control,
            import,
            export,
            scripts,
            schedules,
        })
    }

    /// Restores a core from an opening that the caller knows to be fit.
    pub fn from_fit_opening(alloc: Global, opening: &Opening) -> Result<RelayCore, AllocError>
        requires { IsFitOpening opening.now }
        ensures { IfOk result (λ core. StandsFor core (world_of_opening opening.now)) }
    {
        match RelayCore::from_opening(alloc, opening) {
            Ok(core) => Ok(core),
            Err(OpeningFault::Memory) => Err(AllocError),
            Err(OpeningFault::Unfit) => unreachable!(),
        }
    }
}

impl Opening {
    // Returns the saved switch, or `None` if no core can have the opening's state.
    fn fit_control(&self) -> Option<DisconnectControl>
        ensures fit { IsSome result ↔ IsFitOpening self.now }
        ensures control { IfSome result (λ control. control
            ≡ record { state = self.now.state; mode = self.now.mode }) }
    {
        if self.device.is_empty() || self.device.len() > MAX_DEVICE_NAME {
            return None;
        }
        if !self.import.is_fit() || !self.export.is_fit() {
            return None;
        }
        DisconnectControl::of(self.state, self.mode)
    }

    // Returns the limiters of this opening: import, then export.
    fn limiters(&self, alloc: Global) -> Result<(Limiter, Limiter), AllocError>
        requires { IsFitOpening self.now }
        ensures import { IfOk result (λ both. limiter_opening_of both.0 ≡ self.now.import) }
        ensures import_stands { IfOk result (λ both.
            LimiterStateStands both.0 self.now.moment (opened_limiter self.now.import)) }
        ensures export { IfOk result (λ both. limiter_opening_of both.1 ≡ self.now.export) }
        ensures export_stands { IfOk result (λ both.
            LimiterStateStands both.1 self.now.moment (opened_limiter self.now.export)) }
    {
        let import = self.import.limiter(alloc, self.moment)?;
        and_keep(import, self.export.limiter(alloc, self.moment))
    }
}
