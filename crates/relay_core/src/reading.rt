//! GETs: the value of an attribute of each object, or the result code that refuses the read (IEC
//! 62056-5-3).
ghost use Rattle.std.specs.Prelude.{◌≡◌, ◌≢◌, IfOk, IsOk, IsTrue};
ghost use Rattle.relay_core.specs.World.{World};
ghost use Rattle.relay_core.specs.Stands.{StandsFor};
ghost use Rattle.disconnect_control.specs.Attributes.{attribute_numbered as control_attribute, data_at as control_data};
ghost use Rattle.limiter_attributes.specs.Attributes.{attribute_numbered as limiter_attribute, is_plain as is_plain_limiter};
ghost use Rattle.limiter_attributes.specs.Writing.{data_at as limiter_data};
ghost use Rattle.relay_core.specs.Limiters.{limiter_state_of};
ghost use Rattle.relay_core.specs.Memory.{is_plain_where, is_plain, reads_plainly};
ghost use Rattle.relay_core.specs.Reading.{result_of_attribute, own_value_in, value_in, get_result, get_results};
ghost use Rattle.relay_core.specs.Registers.{attribute_numbered as register_attribute, data_at as register_data, is_plain as is_plain_register};

use crate::access::read_target;
use crate::registers::{RegisterAttribute, read_register};
use crate::relay::RelayCore;
use crate::schedules::read_schedule;
use cosem_axdr::{Data, Octets};
use cosem_names::{
    AttrRef, AttributeSelection, GetResult, Instance, Level, ResultCode, Which, object_list,
};
use disconnect_control::ControlAttribute;
use limiter_attributes::{LimiterAttribute, read_attribute};
use std::alloc::{AllocError, Global};
use wire_bytes::Listed;

impl RelayCore {
    // Reads an attribute of the switch other than the logical name.
    fn control_value(&self, number: u8) -> GetResult
        ensures { (w : World) → StandsFor self.now w
            → result ≡ result_of_attribute (λ attribute. control_data attribute w.control)
            (control_attribute number) }
    {
        match ControlAttribute::try_from(number) {
            Ok(attribute) => GetResult::Value(self.control.to_data(attribute)),
            Err(_) => GetResult::Code(ResultCode::ReadWriteDenied),
        }
    }

    // Reads an attribute of a register other than the logical name.
    fn register_value(
        &self,
        alloc: Global,
        which: Which,
        number: u8,
    ) -> Result<GetResult, AllocError>
        ensures value { IfOk result (λ r. (w : World) → StandsFor self.now w
            → r ≡ result_of_attribute (λ attribute. register_data attribute
            (limiter_state_of which w).last)
            (register_attribute number)) }
        ensures plain { IsTrue (is_plain_where is_plain_register (register_attribute number))
            → IsOk result }
    {
        let Ok(attribute) = RegisterAttribute::try_from(number) else {
            return Ok(GetResult::Code(ResultCode::ReadWriteDenied));
        };
        let data = read_register(alloc, attribute, self.limiter(which).value())?;
        Ok(GetResult::Value(data))
    }

    // Reads an attribute of a limiter other than the logical name.
    fn limiter_value(
        &self,
        alloc: Global,
        which: Which,
        number: u8,
    ) -> Result<GetResult, AllocError>
        ensures value { IfOk result (λ r. (w : World) → StandsFor self.now w
            → r ≡ result_of_attribute (λ attribute.
            limiter_data which attribute (limiter_state_of which w).settings w.moment)
            (limiter_attribute number)) }
        ensures plain { IsTrue (is_plain_where is_plain_limiter (limiter_attribute number))
            → IsOk result }
    {
        let Ok(attribute) = LimiterAttribute::try_from(number) else {
            return Ok(GetResult::Code(ResultCode::ReadWriteDenied));
        };
        let data = read_attribute(alloc, which, self.limiter(which), attribute)?;
        Ok(GetResult::Value(data))
    }

    // Reads an attribute of an object other than the logical name, for a client of this level.
    fn own_value(
        &self,
        alloc: Global,
        level: Level,
        instance: Instance,
        number: u8,
    ) -> Result<GetResult, AllocError>
        ensures value { IfOk result (λ r. (w : World) → StandsFor self.now w
            → r ≡ own_value_in level instance number w) }
        ensures plain { IsTrue (is_plain instance number) → number ≢ 1 → IsOk result }
    {
        let data = match instance {
            Instance::Association if number == 2 => object_list(alloc, level)?,
            Instance::DeviceName if number == 2 => {
                Data::OctetString(self.device.try_clone(alloc)?)
            }
            Instance::Register(which) => return self.register_value(alloc, which, number),
            Instance::ScriptTable if number == 2 => self.scripts.to_data(alloc)?,
            Instance::Schedule(which) => {
                return read_schedule(alloc, self.schedules.get(which), number);
            }
            Instance::DisconnectControl => return Ok(self.control_value(number)),
            Instance::Limiter(which) => return self.limiter_value(alloc, which, number),
            _ => return Ok(GetResult::Code(ResultCode::ReadWriteDenied)),
        };
        Ok(GetResult::Value(data))
    }

    // Reads an attribute of an object, for a client of this level.
    #[tactic(auto, unfolding(crate::specs::Reading::value_in))]
    fn attribute_value(
        &self,
        alloc: Global,
        level: Level,
        instance: Instance,
        attr: &AttrRef,
    ) -> Result<GetResult, AllocError>
        ensures value { IfOk result (λ r. (w : World) → StandsFor self.now w
            → r ≡ value_in level instance attr.now w) }
        ensures plain { IsTrue (is_plain instance attr.now.number) → IsOk result }
    {
        if attr.number == 1 {
            let name = Octets::from_slice(alloc, &attr.name.0)?;
            return Ok(GetResult::Value(Data::OctetString(name)));
        }
        self.own_value(alloc, level, instance, attr.number)
    }

    // Handles a client's GET.
    #[tactic(auto, unfolding(crate::specs::Reading::get_result, crate::specs::Memory::reads_plainly))]
    pub(crate) fn get(
        &self,
        alloc: Global,
        level: Level,
        attr: &AttrRef,
        selected: bool,
    ) -> Result<GetResult, AllocError>
        ensures value { IfOk result (λ r. (w : World) → StandsFor self.now w
            → r ≡ get_result level attr.now selected w) }
        ensures plain { IsTrue (reads_plainly level attr.now selected) → IsOk result }
    {
        match read_target(level, attr, selected) {
            Ok(instance) => self.attribute_value(alloc, level, instance, attr),
            Err(refusal) => Ok(GetResult::Code(refusal)),
        }
    }

    // Handles a client's GET with list.
    pub(crate) fn get_list(
        &self,
        alloc: Global,
        level: Level,
        items: &[AttributeSelection],
    ) -> Result<Listed<GetResult>, AllocError>
        ensures { IfOk result (λ rs. (w : World) → StandsFor self.now w
            → rs ≡ get_results level items.now w) }
    {
        let mut results = Listed::from_vec(Vec::with_capacity(alloc, items.len())?);
        for item in items {
            results.push(self.get(alloc, level, &item.attr, item.selected)?)?;
        }
        Ok(results)
    }
}
