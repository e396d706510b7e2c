//! Laws of all service parameters.
ghost use Rattle.rdata_svcb.specs.OneReason.{HaveParamsOneReason, HaveValuesOneReason};
ghost use Rattle.rdata_svcb.specs.ParamsBack.{AreParamsOnce, AreParamsReadBack, AreParamsWords};

/// States that tokens spell one list of service parameters, and that right parameters print as
/// words which spell them again. Does nothing.
pub fn parameters_are_spelled()
    ensures once { AreParamsOnce }
    ensures back { AreParamsReadBack }
    ensures words { AreParamsWords }
{}

/// States that a text which spells no value of its kind has one reason for it, and that tokens which
/// are rejected as parameters have one error: kind and place are a function of the tokens. A text that
/// spells a value, and tokens that spell parameters, have none. Does nothing.
pub fn rejected_parameters_have_one_reason()
    ensures values { HaveValuesOneReason }
    ensures params { HaveParamsOneReason }
{}
