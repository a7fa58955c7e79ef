//! SETs: writes an attribute of the switch, a limiter, a schedule or the script table, and returns
//! the result code (IEC 62056-5-3).
ghost use Rattle.std.specs.Prelude.{◌≡◌, IfOk, IsOk, IsTrue, OnOk, OnErr};
ghost use Rattle.disconnect_control.specs.Attributes.{attribute_numbered as control_attribute};
ghost use Rattle.limiter_attributes.specs.Attributes.{attribute_numbered};
ghost use Rattle.relay_core.specs.Memory.{writes_plainly_in, writes_plainly};
ghost use Rattle.relay_core.specs.Moving.{list_numbered, with_list, parts_read, set_parts};
ghost use Rattle.relay_core.specs.Stands.{StandsFor};
ghost use Rattle.relay_core.specs.World.{World};
ghost use Rattle.relay_core.specs.Writing.{at_mode, at_setting, at_limiter, at_control, at_plain, at_write, at_set};

use crate::access::write_target;
use crate::parts::{Parts, WrittenList, read_list};
use crate::relay::RelayCore;
use cosem_axdr::Data;
use cosem_names::{AttrRef, Instance, Level, ResultCode, ScheduleNumber, Which};
use disconnect_control::{ControlAttribute, ControlMode, read_mode};
use limiter_attributes::{LimiterAttribute, Setting, read_setting};
use std::alloc::{AllocError, Global};

impl RelayCore {
    // Writes the mode; some states of the switch refuse it.
    #[tactic(auto, unfolding(crate::specs::Writing::at_mode))]
    pub(crate) fn write_mode(&mut self, mode: ControlMode) -> ResultCode
        ensures world { (w : World) → StandsFor self.old w
            → StandsFor self.new (at_mode mode w).world }
        ensures code { (w : World) → StandsFor self.old w → result ≡ (at_mode mode w).code }
        ensures scripts { self.new.scripts ≡ self.old.scripts }
        ensures schedules { self.new.schedules ≡ self.old.schedules }
    {
        self.control.set_mode(mode)
    }

    // Applies a setting to a limiter.
    #[tactic(auto, unfolding(crate::specs::Writing::at_setting))]
    pub(crate) fn set_limiter(&mut self, which: Which, setting: Setting) -> ResultCode
        ensures world { (w : World) → StandsFor self.old w
            → StandsFor self.new (at_setting which setting w).world }
        ensures code { (w : World) → StandsFor self.old w
            → result ≡ (at_setting which setting w).code }
        ensures scripts { self.new.scripts ≡ self.old.scripts }
        ensures schedules { self.new.schedules ≡ self.old.schedules }
    {
        match which {
            Which::Import => setting.apply(&mut self.import),
            Which::Export => setting.apply(&mut self.export),
        }
        ResultCode::Success
    }

    // Writes an attribute of a limiter other than its list of group ids.
    fn write_limiter(&mut self, which: Which, number: u8, value: &Data) -> ResultCode
        ensures world { (w : World) → StandsFor self.old w
            → StandsFor self.new (at_limiter which (attribute_numbered number) value.now w).world }
        ensures code { (w : World) → StandsFor self.old w
            → result ≡ (at_limiter which (attribute_numbered number) value.now w).code }
    {
        let Ok(attribute) = LimiterAttribute::try_from(number) else {
            return ResultCode::ReadWriteDenied;
        };
        match read_setting(attribute, value) {
            Ok(Some(setting)) => self.set_limiter(which, setting),
            Ok(None) => ResultCode::ReadWriteDenied,
            Err(fault) => fault.code(),
        }
    }

    // Replaces the script table with the decoded one.
    fn move_scripts(&mut self, parts: Parts)
        ensures { (w : World) → StandsFor self.old w
            → StandsFor self.new (with_list WrittenList.Scripts parts w) }
    {
        if let Parts::Scripts(scripts) = parts {
            self.scripts = scripts;
        }
    }

    // Replaces the group ids of a limiter with the decoded ones.
    fn move_groups(&mut self, which: Which, parts: Parts)
        ensures { (w : World) → StandsFor self.old w
            → StandsFor self.new (with_list (WrittenList.Groups which) parts w) }
    {
        let Parts::Groups(mut groups) = parts else {
            return;
        };
        match which {
            Which::Import => groups.swap_with(&mut self.import),
            Which::Export => groups.swap_with(&mut self.export),
        }
    }

    // Replaces the entries of a schedule with the decoded ones.
    fn move_entries(&mut self, which: ScheduleNumber, parts: Parts)
        ensures { (w : World) → StandsFor self.old w
            → StandsFor self.new (with_list (WrittenList.Entries which) parts w) }
    {
        if let Parts::Entries(mut entries) = parts {
            self.trade_entries(which, &mut entries);
        }
    }

    // Replaces a list with the decoded one. Does nothing if the list was refused.
    fn move_in(&mut self, list: WrittenList, parts: Parts)
        ensures { (w : World) → StandsFor self.old w → StandsFor self.new (with_list list parts w) }
    {
        match list {
            WrittenList::Scripts => self.move_scripts(parts),
            WrittenList::Entries(which) => self.move_entries(which, parts),
            WrittenList::Groups(which) => self.move_groups(which, parts),
        }
    }

    // Writes an attribute of the switch; only its mode can be written.
    #[tactic(auto, unfolding(crate::specs::Writing::at_mode))]
    fn write_control(&mut self, number: u8, value: &Data) -> ResultCode
        ensures world { (w : World) → StandsFor self.old w
            → StandsFor self.new (at_control (control_attribute number) value.now w).world }
        ensures code { (w : World) → StandsFor self.old w
            → result ≡ (at_control (control_attribute number) value.now w).code }
    {
        let Ok(ControlAttribute::ControlMode) = ControlAttribute::try_from(number) else {
            return ResultCode::ReadWriteDenied;
        };
        match read_mode(value) {
            Ok(mode) => self.control.set_mode(mode),
            Err(fault) => fault.code(),
        }
    }

    // Writes an attribute of an object other than a list.
    pub(crate) fn write_plain(&mut self, instance: Instance, number: u8, value: &Data) -> ResultCode
        ensures world { (w : World) → StandsFor self.old w
            → StandsFor self.new (at_plain instance number value.now w).world }
        ensures code { (w : World) → StandsFor self.old w
            → result ≡ (at_plain instance number value.now w).code }
    {
        match instance {
            Instance::Schedule(which) => self.write_schedule(which, number, value),
            Instance::Limiter(which) => self.write_limiter(which, number, value),
            Instance::DisconnectControl => self.write_control(number, value),
            Instance::Association
            | Instance::DeviceName
            | Instance::Register(_)
            | Instance::ScriptTable => ResultCode::ReadWriteDenied,
        }
    }

    // Writes an attribute of an object.
    #[tactic(auto, unfolding(crate::specs::Writing::at_write))]
    pub(crate) fn write(
        &mut self,
        alloc: Global,
        instance: Instance,
        number: u8,
        value: &Data,
    ) -> Result<ResultCode, AllocError>
        ensures world { OnOk result ((w : World) → StandsFor self.old w
            → StandsFor self.new (at_write instance number value.now w).world) }
        ensures code { IfOk result (λ code. (w : World) → StandsFor self.old w
            → code ≡ (at_write instance number value.now w).code) }
        ensures plain { IsTrue (writes_plainly_in instance number) → IsOk result }
        ensures err { OnErr result (self.new ≡ self.old) }
    {
        let Some(list) = WrittenList::new(instance, number) else {
            return Ok(self.write_plain(instance, number, value));
        };
        match read_list(alloc, list, value)? {
            Ok(parts) => {
                self.move_in(list, parts);
                Ok(ResultCode::Success)
            }
            Err(refusal) => Ok(refusal),
        }
    }

    // Writes an attribute of an object whose list, if it is one, was decoded before.
    #[tactic(auto, unfolding(crate::specs::Writing::at_write), using(crate::proofs::WriteLemmas::moved_list))]
    fn write_by(&mut self, instance: Instance, number: u8, value: &Data, parts: Parts)
        requires { parts ≡ parts_read (list_numbered instance number) value.now }
        ensures { (w : World) → StandsFor self.old w
            → StandsFor self.new (at_write instance number value.now w).world }
    {
        match WrittenList::new(instance, number) {
            Some(list) => self.move_in(list, parts),
            None => {
                drop(parts);
                let _code = self.write_plain(instance, number, value);
            }
        }
    }

    // Handles a client's SET.
    #[tactic(auto, unfolding(crate::specs::Writing::at_set, crate::specs::Memory::writes_plainly))]
    pub(crate) fn set(
        &mut self,
        alloc: Global,
        level: Level,
        attr: &AttrRef,
        selected: bool,
        value: &Data,
    ) -> Result<ResultCode, AllocError>
        ensures world { OnOk result ((w : World) → StandsFor self.old w
            → StandsFor self.new (at_set level attr.now selected value.now w).world) }
        ensures code { IfOk result (λ code. (w : World) → StandsFor self.old w
            → code ≡ (at_set level attr.now selected value.now w).code) }
        ensures plain { IsTrue (writes_plainly level attr.now selected) → IsOk result }
        ensures err { OnErr result (self.new ≡ self.old) }
    {
        match write_target(level, attr, selected) {
            Ok(instance) => self.write(alloc, instance, attr.number, value),
            Err(refusal) => Ok(refusal),
        }
    }

    // Handles a client's SET whose list, if it writes one, was decoded before.
    #[tactic(auto, unfolding(crate::specs::Writing::at_set, crate::specs::Moving::set_parts))]
    pub(crate) fn set_by(
        &mut self,
        level: Level,
        attr: &AttrRef,
        selected: bool,
        value: &Data,
        parts: Parts,
    )
        requires { parts ≡ set_parts level attr.now selected value.now }
        ensures { (w : World) → StandsFor self.old w
            → StandsFor self.new (at_set level attr.now selected value.now w).world }
    {
        if let Ok(instance) = write_target(level, attr, selected) {
            self.write_by(instance, attr.number, value, parts);
        } else {
            drop(parts);
        }
    }
}
