//! Laws of RDATA that is printed.
ghost use Rattle.rdata.specs.PrintLaws.{IsDataOfTokens, IsDataQuotedWell, IsDataReadBack, IsDataWordedWell, IsPrintedGeneric};

/// States that the tokens that RDATA prints as in its own form spell it, whatever the origin is,
/// and that other RDATA prints in the generic form. Does nothing.
pub fn printed_data_is_read_back()
    ensures back { IsDataReadBack }
    ensures generic { IsPrintedGeneric }
{}

/// States that each token that prints as a quoted string is a quoted string of a zone file: no
/// octet in it ends it or its line. Does nothing.
pub fn printed_quotes_are_tokens()
    ensures { IsDataQuotedWell }
{}

/// States that each token that RDATA prints as is a token of a zone file. Without quotes it is a
/// word of one character or more, none of which ends it. In quotes it is a quoted string. Does
/// nothing.
pub fn printed_data_is_tokens()
    ensures words { IsDataWordedWell }
    ensures tokens { IsDataOfTokens }
{}
