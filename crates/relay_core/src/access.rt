//! Finds the object that a request names, or the first result code that refuses the request.
ghost use Rattle.std.specs.Prelude.{◌≡◌, false};
ghost use Rattle.cosem_names.specs.Objects.{rights_of, may_execute_of};
ghost use Rattle.relay_core.specs.Access.{target_of};

use cosem_names::{
    AttrRef, ClassId, Instance, Level, MethodRef, Obis, ResultCode, class_rights,
    may_execute_of_class, object,
};

// Returns the object that a request names, or the first refusal, in this order: an unknown name, a
// class that is not the object's, an attribute or method that is not `allowed`, selective access.
#[tactic(auto, unfolding(crate::specs::Access::target_of))]
fn target(name: Obis, class: ClassId, allowed: bool, selected: bool) -> Result<Instance, ResultCode>
    ensures { result ≡ target_of name class allowed selected }
{
    let Some(object) = object(name) else {
        return Err(ResultCode::ObjectUndefined);
    };
    if object.class != class {
        return Err(ResultCode::ObjectClassInconsistent);
    }
    if !allowed {
        return Err(ResultCode::ReadWriteDenied);
    }
    if selected {
        return Err(ResultCode::ScopeOfAccessViolated);
    }
    Ok(object.instance)
}

// Returns the object of the attribute that a client of this level reads, or the first refusal. The
// rights are those of the class that the request names: if it is not the object's, `target` refuses
// the request before it asks for rights. So the table of objects is searched once.
pub(crate) fn read_target(
    level: Level,
    attr: &AttrRef,
    selected: bool,
) -> Result<Instance, ResultCode>
    ensures { result
        ≡ target_of attr.now.name attr.now.class (rights_of level attr.now).read selected }
{
    let rights = class_rights(level, attr.class, attr.number);
    target(attr.name, attr.class, rights.read, selected)
}

// Returns the object of the attribute that a client of this level writes, or the first refusal.
pub(crate) fn write_target(
    level: Level,
    attr: &AttrRef,
    selected: bool,
) -> Result<Instance, ResultCode>
    ensures { result
        ≡ target_of attr.now.name attr.now.class (rights_of level attr.now).write selected }
{
    let rights = class_rights(level, attr.class, attr.number);
    target(attr.name, attr.class, rights.write, selected)
}

// Returns the object of the method that a client of this level executes, or the first refusal.
pub(crate) fn method_target(level: Level, method: &MethodRef) -> Result<Instance, ResultCode>
    ensures { result
        ≡ target_of method.now.name method.now.class (may_execute_of level method.now) false }
{
    let allowed = may_execute_of_class(level, method.class, method.number);
    target(method.name, method.class, allowed, false)
}
