//! Laws of the RDATA of all shapes.
ghost use Rattle.rdata.specs.DataLaws.{AreSpelledData};
ghost use Rattle.rdata.specs.OneError.{HaveOneDataError};
ghost use Rattle.rdata.specs.RestLaws.{AreRestForms};

/// States that what the tokens of an entry spell as RDATA of a shape is RDATA of that shape, and
/// that they spell one only. States the same of each kind of tail. Does nothing.
pub fn spelled_data_is_of_its_shape()
    ensures rests { AreRestForms }
    ensures data { AreSpelledData }
{}

/// States that tokens which are rejected as RDATA have one error: kind, offset and field are a
/// function of the tokens, the origin and the type, and tokens that are parsed have none. `ShortBuf`,
/// which depends on the room, is the exception. States it of each kind of tail, of each shape, and of
/// each type. Does nothing.
pub fn rejected_data_has_one_error()
    ensures { HaveOneDataError }
{}
