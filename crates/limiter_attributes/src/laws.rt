//! The laws of the limiters' attributes.
ghost use Rattle.cosem_names.specs.declared.objects.Which.{Which};
ghost use Rattle.limiter_attributes.specs.declared.attribute.LimiterAttribute.{LimiterAttribute};
ghost use Rattle.limiter_attributes.specs.Law.{IsInTable, IsMonitored};

/// Proves that the attributes of both limiters are in the table of the meter's objects, with their
/// access rights, and that each limiter monitors the register of its direction.
pub fn limiters_are_in_the_table()
    ensures attributes { (which : Which) (attribute : LimiterAttribute)
        → IsInTable which attribute }
    ensures monitored { (which : Which) → IsMonitored which }
{}
