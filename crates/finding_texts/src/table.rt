//! The table of codes: what each means, in three columns.

use finding_codes::code::Code;

/// Returns what is wrong, in a sentence without a full stop.
pub fn summary_of(code: Code) -> &'static str {
    match code {
        Code::OpenQuote => "A quoted string is not closed",
        Code::OpenParenthesis => "A parenthesis is not closed",
        Code::ClosingParenthesis => "A parenthesis is closed that is not open",
        Code::LoneReturn => "A CR is not followed by LF",
        Code::BadEscape => "An escape is not complete, or its number is above 255",
        Code::Nul => "A NUL octet is outside of comments",
        Code::ByteOrderMark => "The file begins with a byte order mark",
        Code::ControlZ => "An entry begins with Ctrl-Z",
        Code::MaxEntry => "An entry is longer than --max-entry allows",
        Code::Directive => "A directive is unknown, or its arguments are wrong",
        Code::Owner => "The owner of a record is not a name",
        Code::Ttl => "A TTL is not valid",
        Code::Class => "A class is not valid",
        Code::RecordType => "The type of a record is unknown or missing",
        Code::Data => "The RDATA of a record is not that of its type",
        Code::Include => "A file is not included",
        Code::File => "A zone file can't be read",
        Code::NoOwner => "A record has no owner",
        Code::NoTtl => "A record has no TTL, and none is known",
        Code::OtherClass => "A record has another class than the zone",
        Code::NoSoa => "The apex has no SOA",
        Code::TwoSoas => "The apex has two SOAs that differ",
        Code::NoNs => "The apex has no NS",
        Code::NsAddress => "A name server in the zone has no address",
        Code::Cname => "A CNAME has other records beside it, or another CNAME",
        Code::Dname => "A name has two DNAMEs",
        Code::DsApex => "A DS is at the apex",
        Code::WildcardNs => "A wildcard has an NS",
        Code::SoaNotApex => "An SOA is below the apex",
        Code::NsBesideDname => "A name below the apex has both a DNAME and an NS",
        Code::Nsec3Wildcard => "The first label of the owner of an NSEC3 is not base32hex",
        Code::BelowDname => "A record is below a DNAME",
        Code::Outside => "A record is outside of the zone",
        Code::MaxTtl => "A TTL exceeds --max-ttl",
        Code::NoOrigin => "A name is relative, and no origin is known",
        Code::HighOctet => "A name or string has an octet from 0x80 on",
        Code::ControlOctet => "A name or string has a control octet",
        Code::Crlf => "Lines end in CR LF",
        Code::NestedParentheses => "A parenthesis is opened inside of others",
        Code::LeadingParenthesis => "An entry begins with a parenthesis",
        Code::AdjacentTokens => "No blank is between two tokens",
        Code::NoFinalNewline => "The last line has no end",
        Code::RelativeOrigin => "An origin is a relative name",
        Code::SoaMinimumTtl => "The minimum of the SOA is used as a TTL",
        Code::IncludeTtl => "The $TTL of an included file stays in effect",
        Code::MissingDot => "A relative name ends like the origin",
        Code::GenerateDot => "A name of $GENERATE ends in a dot of nibbles",
        Code::EmptyUri => "The target of a URI record is empty",
        Code::TlsaLength =>
            "The data of a TLSA or SMIMEA has another length than its matching type",
        Code::IpseckeyAlgorithm => "The algorithm of an IPSECKEY is 0",
        Code::OhttpValue => "The service parameter ohttp has a value",
        Code::Glue => "A name server below its delegation has no address",
        Code::TargetCname => "The target of a record is an alias",
        Code::TargetMissing => "The target of a record is not in the zone",
        Code::HostName => "A name that must be that of a host is not",
        Code::Cds => "A CDS or CDNSKEY is of an algorithm of which the apex has no DNSKEY",
        Code::TtlDiffers => "The TTLs of an RRset differ",
        Code::Duplicate => "A record occurs twice",
        Code::NotAtApex => "A record of this type belongs at the apex",
        Code::KeyProtocol => "The protocol of a DNSKEY is not 3",
        Code::KeyAlgorithm => "The algorithm of a DNSKEY or DS is 0",
        Code::CnameTargetMissing => "The target of a CNAME has no records in the zone",
        Code::CnameLoop => "CNAMEs lead back to the name where they begin",
        Code::TwoSpf => "A name has two SPF records",
        Code::WeakDigest => "SHA-1 is the only digest of a key",
        Code::SingleNs => "A zone has only one name server",
        Code::Hidden => "A delegation hides a record",
        Code::NoDnskey => "The zone is signed or must be, and has no DNSKEY at its apex",
        Code::Expired => "A signature has expired",
        Code::ExpiresSoon => "A signature expires within the time of --within",
        Code::NotYetValid => "A signature is not valid yet",
        Code::RrsigTimes => "A signature ends before it begins",
        Code::RrsigSigner => "The signer of an RRSIG is not the zone",
        Code::RrsigLabels =>
            "The labels field of an RRSIG is not the number of labels of its owner",
        Code::OriginalTtl => "The original TTL of an RRSIG is not the TTL of its RRset",
        Code::RrsigTtl => "The TTL of an RRSIG is not the TTL of its RRset",
        Code::Unsigned => "An RRset has no RRSIG",
        Code::NoKey => "No signature of an RRset fits a DNSKEY of the apex",
        Code::KeyMissing =>
            "A signature fits no DNSKEY of the apex, and another one of its RRset does",
        Code::RrsigKey => "A signature is by a revoked key",
        Code::SignsNothing => "An RRSIG covers a type that its owner doesn't have",
        Code::OccludedDnssec => "An NSEC or RRSIG is where the zone has no authority",
        Code::NoNsec => "A name has no NSEC",
        Code::NsecNext => "The next name of an NSEC is wrong",
        Code::NsecTypes => "The types of an NSEC are not those of its owner",
        Code::DsWithoutNs => "A DS has no NS beside it",
        Code::NoNsec3 => "A name, or an empty non-terminal above it, has no NSEC3",
        Code::Nsec3Next => "The next hash of an NSEC3 is wrong",
        Code::Nsec3Types => "The types of an NSEC3 are not those of its name",
        Code::Nsec3Owner => "The owner of an NSEC3 is not a hash one label below the apex",
        Code::Nsec3Iterations => "An NSEC3PARAM has more than 150 iterations",
        Code::Nsec3Iterations50 => "An NSEC3PARAM has more than 50 iterations",
        Code::Nsec3Iterations0 => "An NSEC3PARAM has iterations",
        Code::NsecTtl => "The TTL of an NSEC or NSEC3 is not that of negative answers",
        Code::CdsDelete => "A CDS or CDNSKEY asks to delete, and another asks for keys",
        Code::RrsigLength => "A signature has another length than those of its algorithm",
        Code::KeyLength => "A key has another length than those of its algorithm",
        Code::Nsec3Extra => "An NSEC3 is of no name of the zone",
        Code::RrsigAlgorithm => "An RRset lacks a signature of an algorithm that signs others",
        Code::OptOut => "The Opt-Out flag of an NSEC3 is not that of all others of its chain",
        Code::SpfType => "A record has the type SPF",
        Code::NaptrRegexp => "The regexp of a NAPTR is not a substitution expression",
        Code::NaptrBoth => "A NAPTR has both a regexp and a replacement",
        Code::CaaTag => "The tag of a CAA is not known, or has capital letters",
        Code::SoaMail => "The mail name of an SOA has an @, or is one label",
        Code::SoaTimers =>
            "The timers of an SOA contradict each other, or its minimum is above a day",
        Code::ReverseName => "The owner of a PTR in a reverse tree is not the name of an address",
        Code::WildcardInside => "A label of an owner after the first is an asterisk",
        Code::TargetAddress => "The target of a record is the text of an IPv4 address",
        Code::TxtWords => "A TXT that begins with v= has several strings without quotes",
        Code::CommentInData => "A comment begins where a word of a TXT, SPF or CAA ends",
        Code::PtrDot => "The owner and the target of a PTR are below in-addr.arpa or ip6.arpa",
        Code::TlsaField =>
            "The usage, selector or matching type of a TLSA or SMIMEA is not assigned",
        Code::CaaValue =>
            "The value of a CAA is not of the form of its tag, or its flags are unknown",
        Code::Spf => "An SPF record has a term that is neither a mechanism nor a modifier",
        Code::NullMx => "The exchange of an MX is the root, and its owner has another MX",
        Code::ZonemdSerial => "The serial of a ZONEMD is not that of the SOA",
        Code::TlsaHost => "The host of a TLSA has no address in the zone",
        Code::SvcbAlias =>
            "An SVCB or HTTPS of priority 0 has parameters, its name has others of the type, or it leads back to its name",
        Code::CdsKey => "No CDS, or no CDNSKEY, is of a DNSKEY of the zone",
        Code::CdsDiffers => "The CDS and the CDNSKEY of the apex are not of the same keys",
        Code::UnsignedApex =>
            "A zone has a DNSKEY and signatures, but no signature of SOA or NS at its apex",
        Code::Unportable => "A word is one that not every name server reads",
        Code::KeyBesideCname => "A KEY is at the owner of a CNAME",
        Code::SpfUnused => "An SPF record has a mechanism after all, or a redirect beside it",
        Code::Dmarc => "A DMARC record is malformed",
        Code::Dkim => "A DKIM key record is malformed",
        Code::Delegation => "A zone and its parent, both checked, have other name servers for it",
        Code::DelegationDs =>
            "No DS of a delegation is of a DNSKEY of the zone below, which is signed and checked too",
        Code::GlueDiffers =>
            "An address below a delegation is not one of those in the zone that answers for it, which is checked too",
        Code::Exception => "An exception in a comment is malformed, or names an unknown code",
        Code::UnusedAllow => "An exception in a comment excepts no finding",
    }
}

/// Returns what it leads to and what to write instead, with the RFC.
pub fn text_of(code: Code) -> &'static str {
    match code {
        Code::OpenQuote =>
            "The file ends, or an entry ends at a syntax error, inside of double quotes. Close the string; write a double quote in it as \\\" (RFC 1035 section 5.1).",
        Code::OpenParenthesis =>
            "Parentheses join the lines of an entry, and the file ends before the last one is closed (RFC 1035 section 5.1). The message has the position where it was opened.",
        Code::ClosingParenthesis =>
            "Remove it, or open one before it. A parenthesis in a name or a string is written as \\( or in quotes (RFC 1035 section 5.1).",
        Code::LoneReturn =>
            "Lines end in LF or CR LF. Name servers disagree on a lone CR: some end the line there, some treat it as a blank. Write it as \\013 if it is part of a string (RFC 1035 section 5.1).",
        Code::BadEscape =>
            "A backslash is followed by three digits up to 255, or by one octet that is not a digit (RFC 1035 section 5.1). Write a backslash itself as \\\\.",
        Code::Nul =>
            "Name servers end a string or the file at a NUL. Write it as \\000 if it is part of a name or string (RFC 1035 section 5.1).",
        Code::ByteOrderMark =>
            "A mark of UTF-8 is skipped, and a file in UTF-16 is not read. Name servers read the mark as part of the first word. Save the file as UTF-8 without a mark, or better as ASCII: zone files are octets without an encoding (RFC 1035 section 5.1).",
        Code::ControlZ =>
            "Editors of CP/M and DOS end files with the octet 0x1A, which name servers read as a name. Remove it.",
        Code::MaxEntry =>
            "The rest of the file is not read. Often a quote or parenthesis is not closed: the message has its position. --max-entry SIZE accepts longer entries.",
        Code::Directive =>
            "The directives are $ORIGIN NAME, $TTL TIME and $INCLUDE FILE [ORIGIN] (RFC 1035 section 5.1, RFC 2308 section 4). Names that begin with a dollar sign are written as \\$name.",
        Code::Owner =>
            "A label has at most 63 octets, a name at most 255, and no label is empty (RFC 1035 section 2.3.4).",
        Code::Ttl =>
            "A TTL is a number of seconds up to 2147483647, or numbers with units, as 1h30m (RFC 2181 section 8, RFC 1035 section 3.2.1). One from 2^31 to 2^32 - 1 is read as 0, with a warning; any other is an error.",
        Code::Class =>
            "The classes are IN, CH, HS and CLASSn with a number up to 65535 (RFC 1035 section 3.2.4, RFC 3597 section 5). Before a type such a word is reported with the code type, since it could be one.",
        Code::RecordType =>
            "An entry is an owner, a TTL and a class in any order or left out, a type, and its RDATA (RFC 1035 section 5.1). An unknown type is written as TYPEn (RFC 3597 section 5). An owner begins in column 1.",
        Code::Data =>
            "The message names the type and the field, and what was expected. Data of any type can be written as \\# LENGTH HEX (RFC 3597 section 5).",
        Code::Include =>
            "It can't be read, is outside of the folders that are allowed (--include DIR), includes itself, or is nested too deep (RFC 1035 section 5.1).",
        Code::File =>
            "It is missing, is a folder, or may not be read. The finding is where a configuration or a list names the file, or else at the start of the file. Other zones are checked, and the status is 3.",
        Code::NoOwner =>
            "It begins with a blank, so it has the owner of the record before, and there is none, or that owner was rejected (RFC 1035 section 5.1).",
        Code::NoTtl =>
            "Write $TTL TIME at the start of the file (RFC 2308 section 4), or a TTL in the record. The minimum of an SOA before it is used as well (RFC 1035 section 5.1).",
        Code::OtherClass =>
            "All records of a zone have one class (RFC 1035 section 5.2). --class CLASS sets that of the zone.",
        Code::NoSoa =>
            "A zone has exactly one SOA, and its owner is the apex (RFC 1035 section 5.2). Is --zone the right name?",
        Code::TwoSoas => "A zone has exactly one SOA (RFC 1035 section 5.2, RFC 2181 section 6.1).",
        Code::NoNs =>
            "The NS records of the apex name the servers of the zone; a zone without them can't be delegated (RFC 1035 section 3.3.11).",
        Code::NsAddress =>
            "The target of an NS of the apex is a name of this zone, and has neither A nor AAAA, also by no wildcard (RFC 1035 section 3.3.11). Add an address, or correct the name.",
        Code::Cname =>
            "A name with a CNAME has no other records but RRSIG, NSEC and KEY (RFC 4035 section 2.5, RFC 2181 section 10.1).",
        Code::Dname => "A name has at most one DNAME (RFC 6672 section 2.4).",
        Code::DsApex =>
            "The DS of a zone belongs to its parent, at the delegation (RFC 4035 section 2.4).",
        Code::WildcardNs =>
            "Name servers treat a delegation of a wildcard in different ways (RFC 4592 section 4.2).",
        Code::SoaNotApex =>
            "Only the apex of a zone has an SOA (RFC 1035 section 5.2). Are two zones in one file?",
        Code::NsBesideDname =>
            "The DNAME redirects the names below, which the NS delegates (RFC 6672 section 2.3).",
        Code::Nsec3Wildcard => "The label is the hash of a name in base32hex (RFC 5155 section 3).",
        Code::BelowDname =>
            "A DNAME redirects all names below its owner, so that no record there is found (RFC 6672 section 2.4).",
        Code::Outside =>
            "Its owner does not end in the name of the zone. Often a dot at the end of a name is too much, or --zone is another zone (RFC 1035 section 5.2).",
        Code::MaxTtl =>
            "The limit is that of the command line. RFC 8767 section 4 advises at most a week.",
        Code::NoOrigin =>
            "The name is read below the root. Write --zone ORIGIN, --zone-from-name, or $ORIGIN in the file (RFC 1035 section 5.1).",
        Code::HighOctet =>
            "DNS gives these octets no characters. Write a domain name in its ASCII form (IDNA, RFC 5891), and other octets as \\DDD (RFC 1035 section 5.1).",
        Code::ControlOctet => "Write it as \\DDD, or remove it (RFC 1035 section 5.1).",
        Code::Crlf =>
            "Knot rejects the file, and scripts may keep the CR. It is reported once for each file. zonetext fmt writes LF.",
        Code::NestedParentheses =>
            "Some name servers reject it. One pair is enough for an entry (RFC 1035 section 5.1).",
        Code::LeadingParenthesis =>
            "Name servers disagree on whether an owner follows. Write the owner first (RFC 1035 section 5.1).",
        Code::AdjacentTokens =>
            "A quoted string begins or ends at another token. Name servers read it as one token, as two, or not at all (RFC 1035 section 5.1). Write a blank.",
        Code::NoFinalNewline =>
            "Programs that append to the file, or read it by lines, may join or lose a line.",
        Code::RelativeOrigin =>
            "The current origin is appended to the name of $ORIGIN or $INCLUDE; often a dot is missing at its end (RFC 1035 section 5.1).",
        Code::SoaMinimumTtl =>
            "The file has no $TTL before this record. The minimum is the TTL of negative answers (RFC 2308 section 4). Write $TTL TIME.",
        Code::IncludeTtl =>
            "RFC 1035 section 5.1 restores the origin after an included file, and not the TTL. Name servers differ. Write $TTL after the $INCLUDE.",
        Code::MissingDot =>
            "With the origin appended, the name has it twice, as www.example.example. Write a dot at its end (RFC 1035 section 5.1).",
        Code::GenerateDot =>
            "Dots count in the width of the bases n and N, so 8 writes 4 digits with a dot after each. The name is absolute: write 7, or a label after the brace.",
        Code::EmptyUri => "The target has at least one octet (RFC 7553 section 4.4).",
        Code::TlsaLength =>
            "SHA-256, matching type 1, has 32 octets, and SHA-512, matching type 2, has 64 (RFC 6698 section 2.1.3, RFC 8162 section 2).",
        Code::IpseckeyAlgorithm =>
            "It means that no key is present (RFC 4025 section 2.4). BIND 9.18 doesn't load it without a key, and Knot 3.2 doesn't with one.",
        Code::OhttpValue => "Its value must be empty (RFC 9540 section 4).",
        Code::Glue =>
            "Resolvers need an A or AAAA record of it in this zone, called glue (RFC 1034 section 4.2.1, RFC 9471).",
        Code::TargetCname =>
            "The name in an NS, MX or SRV has a CNAME, or is below a DNAME; it must have an address itself (RFC 2181 section 10.3, RFC 6672 section 5.1).",
        Code::TargetMissing =>
            "The name in an NS, MX or SRV is in this zone, and has no address there (RFC 2181 section 10.3, RFC 2782). So is the target of an SVCB or HTTPS (RFC 9460 section 2.4.3), which needs only records if the priority is 0 (section 2.4.2).",
        Code::HostName =>
            "Labels of host names are letters, digits and hyphens, without a hyphen at their ends (RFC 952, RFC 1123 section 2.1). Owners of A, AAAA and MX, and names in NS, MX, SRV, SOA and reverse PTR records are host names. named refuses them.",
        Code::Cds =>
            "It asks the parent for a DS record, by which the zone could not be validated (RFC 7344 section 4.1). named rejects the zone.",
        Code::TtlDiffers =>
            "The records of one owner, class and type have one TTL (RFC 2181 section 5.2). Name servers use that of the first record, or the least.",
        Code::Duplicate =>
            "An RRset is a set: the second record is dropped (RFC 2181 section 5.5).",
        Code::NotAtApex =>
            "CDS, CDNSKEY, CSYNC, NSEC3PARAM and ZONEMD are only looked up at the apex, and so is a DNSKEY without a delegation (RFC 7344 section 4.1, RFC 7477 section 2, RFC 5155 section 4, RFC 8976 section 2).",
        Code::KeyProtocol => "A resolver doesn't use the key (RFC 4034 section 2.1.2).",
        Code::KeyAlgorithm =>
            "The number is reserved, so that a resolver doesn't use the record (RFC 4034 appendix A.1). A CDS of algorithm 0 is the request to delete (RFC 8078 section 4).",
        Code::CnameTargetMissing =>
            "The zone is authoritative for the target, and has no records of any type there, of its own or from a wildcard (RFC 1034 section 3.6.2, RFC 4592 section 3.3.1). A name that only has other names below it has no records.",
        Code::CnameLoop =>
            "A resolver follows them until it gives up, and answers with an error (RFC 1034 section 3.6.2). At most 16 CNAMEs are followed.",
        Code::TwoSpf =>
            "Two TXT records of the name begin with the word v=spf1 (RFC 7208 section 3.2). Receivers treat that as a permanent error (section 4.5). Join them to one record.",
        Code::WeakDigest =>
            "The DS of a key has digest type 1 alone, which must not be used to sign delegations (RFC 8624 section 3.3). Add one of type 2 (SHA-256).",
        Code::SingleNs =>
            "It needs two or more, so that one can fail (RFC 1034 section 4.1, RFC 2182 section 5). A host at or below invalid. or localhost. is not reported: catalog zones have one (RFC 9432).",
        Code::Hidden =>
            "A server answers with a referral for names at and below a delegation (RFC 1034 section 4.3.2), so no resolver gets the record. Move it to the file of the delegated zone. At a delegation only NS, DS, NSEC and RRSIG are not hidden. An A or AAAA is glue if its owner is the host of an NS of the zone; all others are one finding, at the first of them.",
        Code::NoDnskey =>
            "Without one no signature can be verified (RFC 4035 section 2.1). A zone is signed if an RRSIG at its apex covers SOA or NS, and with --dnssec each zone must be: is the file the unsigned one?",
        Code::Expired =>
            "A validating resolver treats the RRset as bogus after the expiration time (RFC 4034 section 3.1.5). Sign the zone again. --now TIME checks at another time. It is a warning if the RRset has another signature that is valid and fits a key.",
        Code::ExpiresSoon => "Sign the zone again before that (RFC 6781 section 4.4.2).",
        Code::NotYetValid =>
            "Its inception is later than now, or than --now TIME; often a clock is wrong (RFC 4034 section 3.1.5). It is a warning if the RRset has another signature that is valid and fits a key.",
        Code::RrsigTimes =>
            "Its expiration is earlier than its inception, compared by RFC 1982 (RFC 4034 section 3.1.5).",
        Code::RrsigSigner =>
            "The signer's name is that of the zone that has the RRset (RFC 4034 section 3.1.7, RFC 4035 section 2.2).",
        Code::RrsigLabels =>
            "The root and a first label * are not counted (RFC 4034 section 3.1.3).",
        Code::OriginalTtl =>
            "The signature covers the original TTL, so that a validator rejects an RRset with a greater one (RFC 4034 section 3.1.4).",
        Code::RrsigTtl => "It must be the same (RFC 4034 section 3).",
        Code::Unsigned =>
            "Each RRset of a signed zone has one, except NS at a delegation and glue (RFC 4035 section 2.2).",
        Code::NoKey =>
            "Key tag and algorithm of the RRSIG are those of no DNSKEY with the Zone flag and protocol 3 (RFC 4034 section 3.1, RFC 4035 section 2.2).",
        Code::KeyMissing =>
            "This is right while a key is replaced (RFC 6781 section 4.1.4), and otherwise a signature that was left over. All signatures by the key are one finding, at the first.",
        Code::RrsigKey =>
            "A key with the REVOKE flag signs the DNSKEY RRset alone (RFC 5011 section 2.1).",
        Code::SignsNothing =>
            "The RRset was removed and its signature was left. Sign the zone again (RFC 4035 section 2.2).",
        Code::OccludedDnssec =>
            "Names below a delegation have no records of DNSSEC here, and a delegation has RRSIGs of DS and NSEC alone (RFC 4035 sections 2.2 and 2.3).",
        Code::NoNsec =>
            "Each name with an RRset that the zone has authority for, and each delegation, has one (RFC 4035 section 2.3).",
        Code::NsecNext =>
            "It is the next name in canonical order, and that of the last NSEC is the apex (RFC 4034 section 4.1.1).",
        Code::NsecTypes =>
            "The bitmap lists each type that the owner has, with NSEC and RRSIG; at a delegation only NS, DS, NSEC and RRSIG (RFC 4034 section 4.1.2, RFC 4035 section 2.3).",
        Code::DsWithoutNs => "A DS is at a delegation (RFC 4035 section 2.4).",
        Code::NoNsec3 =>
            "Each has one with the hash of its name, except insecure delegations in an Opt-Out span (RFC 5155 section 7.1).",
        Code::Nsec3Next =>
            "It is that of the next NSEC3 in the order of hashes, and for the last one that of the first (RFC 5155 section 3.1.7).",
        Code::Nsec3Types =>
            "The bitmap lists each type that the name has; it is empty for an empty non-terminal (RFC 5155 sections 3.1.8 and 7.1).",
        Code::Nsec3Owner =>
            "The owner is the hash in base32hex, prepended to the name of the zone (RFC 5155 section 3).",
        Code::Nsec3Iterations =>
            "Validating resolvers treat the zone as insecure (RFC 9276 section 3.2). Use 0.",
        Code::Nsec3Iterations50 =>
            "Newer validating resolvers treat the zone as insecure (RFC 9276 section 3.2). Use 0.",
        Code::Nsec3Iterations0 =>
            "They cost servers and resolvers time and don't protect the names. Use 0 (RFC 9276 section 3.1).",
        Code::NsecTtl =>
            "It is the lesser of the TTL and the minimum of the SOA (RFC 9077 section 3).",
        Code::CdsDelete =>
            "A request to delete the DS RRset is the only CDS and CDNSKEY of the zone (RFC 8078 section 4).",
        Code::RrsigLength =>
            "It has 64 octets with algorithms 13 and 15, 96 with 14, 114 with 16, and with RSA the length of the modulus of the key (RFC 6605 section 4, RFC 8080 section 4). No validator accepts it.",
        Code::KeyLength =>
            "It has 64 octets with algorithm 13, 96 with 14, 32 with 15, 57 with 16. An RSA key has an exponent, and a modulus of 64 to 512 octets, with algorithm 10 of 128 or more (RFC 3110 section 2, RFC 5702 section 2, RFC 6605 section 4, RFC 8080 section 3). No validator uses it.",
        Code::Nsec3Extra =>
            "The name was removed, and its NSEC3 was not: no answer proves that the name doesn't exist (RFC 5155 sections 7.1 and 7.2.2).",
        Code::RrsigAlgorithm =>
            "Each RRset has a signature of each algorithm that signs the zone (RFC 4035 section 2.2). This binds signers: a validator accepts any signature that it can verify (RFC 6840 section 5.11).",
        Code::OptOut =>
            "A chain may mix them (RFC 5155 section 6). One flag that differs from all others is rarely meant.",
        Code::SpfType => "No receiver looks it up: SPF is published as TXT (RFC 7208 section 3.1).",
        Code::NaptrRegexp =>
            "It is empty, or as !ERE!REPLACEMENT!FLAGS: its first octet delimits three parts, and the last is empty or i (RFC 3402 section 3.2). BIND rejects another one.",
        Code::NaptrBoth =>
            "One of them is empty: the regexp as \"\", or the replacement as a dot (RFC 3403 section 4.1).",
        Code::CaaTag =>
            "A certification authority ignores an unknown tag, or issues no certificate if the flag 128 is set (RFC 8659 section 4.1). NSD rejects capital letters in a tag.",
        Code::SoaMail =>
            "The mail address hostmaster@example.org is written as hostmaster.example.org. (RFC 1035 section 8).",
        Code::SoaTimers =>
            "Retry is less than refresh, and expire at least their sum (RFC 1912 section 2.2). The minimum is the TTL of negative answers (RFC 2308 section 5).",
        Code::ReverseName =>
            "Below in-addr.arpa it is four numbers up to 255 (RFC 1035 section 3.5), below ip6.arpa 32 hexadecimal digits (RFC 3596 section 2.5), except below a label with a slash or a hyphen (RFC 2317 section 4).",
        Code::WildcardInside => "Only a first label * makes a wildcard (RFC 4592 section 2.1.1).",
        Code::TargetAddress =>
            "It is a name, which has the address in an A record (RFC 1035 section 3.3).",
        Code::TxtWords =>
            "Receivers join the strings without blanks (RFC 7208 section 3.3, RFC 6376 section 3.6.2.2). Write the text in quotes.",
        Code::CommentInData =>
            "The text from the semicolon on is a comment (RFC 1035 section 5.1). Write the text in quotes.",
        Code::PtrDot =>
            "The target is the name of a host (RFC 1035 section 3.5). Without a final dot the origin is appended to it. Names of services, with a label that begins with an underscore, are not reported (RFC 6763 section 4.1).",
        Code::TlsaField =>
            "A client doesn't use the record. Usages are 0 to 3, selectors 0 and 1, matching types 0 to 2; 255 is for private use (RFC 6698 sections 7.2 to 7.4, RFC 8162 section 2).",
        Code::CaaValue =>
            "A certification authority that can't parse issue or issuewild issues no certificate. Their value is a domain name or nothing, and after a semicolon parameters NAME=VALUE with semicolons between them (RFC 8659 sections 4.2 and 4.3). So is that of issuemail (RFC 9495) and issuevmc. The value of iodef is a URL of mailto, http or https (RFC 8659 section 4.4). The flags are 0, or 128 for a tag that must be understood (section 4.1).",
        Code::Spf =>
            "A receiver that finds a malformed term treats the whole record as an error, and mail may be rejected (RFC 7208 section 4.6). Mechanisms are all, include, a, mx, ptr, ip4, ip6 and exists, with a colon before their domain or address. Modifiers are NAME=VALUE, as redirect=DOMAIN. Domains have a dot, or end with a macro. The strings of a record are joined without blanks. redirect and exp occur at most once each (section 6). Strings of more than 2,048 octets are not looked at.",
        Code::NullMx =>
            "An MX whose exchange is the root says that the name receives no mail (RFC 7505 section 3). Such a name must have no other MX: senders may reject its mail, or use the other one. Remove one of them.",
        Code::ZonemdSerial =>
            "A ZONEMD has the serial of the zone whose digest it is (RFC 8976 section 2.2.1). If the SOA has another, the digest is not checked (section 4), as after a change of the zone without a new digest. Write a new one: zonetext digest --write.",
        Code::TlsaHost =>
            "The owner of a TLSA is a port, a transport and the name of a host (RFC 6698 section 3). This host is in the zone, and has no A, AAAA or CNAME there. A wildcard above it gives it none: the TLSA makes the name exist (RFC 4592 section 2.2.3).",
        Code::SvcbAlias =>
            "A record of priority 0 is an alias of the service: it has no parameters, and is the only one of its type. Clients ignore its parameters, and the records of other priorities beside it (RFC 9460 sections 2.4.1 and 2.4.2). Of two aliases they use one at random. Aliases that lead back lead to no service.",
        Code::CdsKey =>
            "A parent that takes the CDS as its DS has none that fits a key, and validators reject the whole zone (RFC 7344 section 4.1). Write the CDS and CDNSKEY anew from the DNSKEY that signs the DNSKEY set.",
        Code::CdsDiffers =>
            "A child that publishes both types publishes them of the same keys (RFC 7344 section 4). A parent reads one of the two. Knot rejects the zone. Write both anew.",
        Code::UnsignedApex =>
            "A zone counts as signed if an RRSIG at its apex covers SOA or NS, so the rules of signed zones were not checked. Sign the whole zone, or remove what is left of signatures.",
        Code::Unportable =>
            "BIND, Knot, NSD or ldns rejects the file for it. Knot reads the octets !#$%&'+,:<=>?@[]^`{|}~ in a name only after a backslash: this is reported for the first such name of a file. Some names of algorithms, of types in bitmaps and RRSIG, and of service parameters are read by some servers only. The help has what every server reads.",
        Code::KeyBesideCname =>
            "RFC 4035 section 2.5 allows it, and BIND loads the zone. Knot, NSD and ldns reject it. Write one of the two at another name.",
        Code::SpfUnused =>
            "Mechanisms are tried in order, and all matches every sender, so those after it have no effect (RFC 7208 section 5.1). A redirect is ignored if the record has all (section 6.1). Move all to the end.",
        Code::Dmarc =>
            "A receiver ignores a record that doesn't begin with v=DMARC1, and applies no policy without p and rua (RFC 7489 sections 6.3 and 6.6.3). Tags are NAME=VALUE with semicolons between them, each once, and their names are in small letters. p, sp and np are none, quarantine or reject; adkim and aspf r or s; pct is up to 100; rua and ruf are URIs, as mailto:reports@example.com, with commas between them. Strings of more than 2,048 octets are not looked at.",
        Code::Dkim =>
            "A receiver can't use the key, and signatures by it don't count (RFC 6376 section 3.6.1, RFC 8463). The tag v, if it is there, is the first and is DKIM1. The tag p is the key in base 64: all octets of an RSA key, or the 32 octets of an Ed25519 key (k=ed25519). An empty p revokes a key. Copy the record again from the signer, and keep it in quotes. Strings of more than 2,048 octets are not looked at.",
        Code::Delegation =>
            "The parent's NS should be those of the zone itself (RFC 1034 section 4.2.2): a resolver uses the one and the other. Correct the delegation, or the zone.",
        Code::DelegationDs =>
            "Validators reject the whole zone below (RFC 4035 section 5.2). Write the DS anew from the DNSKEY that signs the DNSKEY set there.",
        Code::GlueDiffers =>
            "A resolver that begins with the parent's address may reach another host, or none (RFC 1034 section 4.2.2). Correct the address in the parent.",
        Code::Exception =>
            "It is written as '; zonetext: allow CODE, CODE' in a comment of the entry whose findings it excepts. A second semicolon begins a remark.",
        Code::UnusedAllow =>
            "The entry has no finding of that code, or one that can't be excepted because it keeps the record from being read. Remove the exception.",
    }
}

/// Returns lines of a zone file that have the finding.
///
/// An octet that is not printable ASCII is a percent sign and two hexadecimal digits. A percent sign
/// at the end means a missing line end.
pub fn example_of(code: Code) -> &'static str {
    match code {
        Code::OpenQuote => "a TXT \"v=spf1 -all",
        Code::OpenParenthesis => "a TXT ( \"one\"",
        Code::ClosingParenthesis => "a A 192.0.2.2 )",
        Code::LoneReturn => "a A 192.0.2.2%0Db A 192.0.2.3",
        Code::BadEscape => "a TXT \"\\300\"",
        Code::Nul => "a TXT a%00b",
        Code::ByteOrderMark => "%EF%BB%BFa A 192.0.2.2",
        Code::ControlZ => "%1A",
        Code::MaxEntry => "a TXT ( \"x\" \"x\" )",
        Code::Directive => "$ORIGN a.example.",
        Code::Owner => "a..b A 192.0.2.2",
        Code::Ttl => "a 3000000000 A 192.0.2.2",
        Code::Class => "a CLASS70000 A 192.0.2.2",
        Code::RecordType => "a AAA 192.0.2.2",
        Code::Data => "a A 192.0.2.256",
        Code::Include => "$INCLUDE missing.db",
        Code::File => "zone \"example\" { type primary; file \"missing.db\"; };",
        Code::NoOwner => "a..b A 192.0.2.2\n  A 192.0.2.3",
        Code::NoTtl => "a A 192.0.2.2",
        Code::OtherClass => "a CH TXT \"b\"",
        Code::NoSoa => "$TTL 60\n@ NS ns\nns A 192.0.2.1",
        Code::TwoSoas => "@ SOA ns h 2 4 2 9 5",
        Code::NoNs => "$TTL 60\n@ SOA ns h 1 4 2 9 5\nns A 192.0.2.1",
        Code::NsAddress => "@ NS ns2",
        Code::Cname => "a CNAME ns\na TXT \"b\"",
        Code::Dname => "a DNAME ns\na DNAME b.example.",
        Code::DsApex =>
            "@ DS 1 8 2 0000000000000000000000000000000000000000000000000000000000000000",
        Code::WildcardNs => "*.a NS ns",
        Code::SoaNotApex => "a SOA ns h 1 4 2 9 5",
        Code::NsBesideDname => "a DNAME b.example.\na NS ns",
        Code::Nsec3Wildcard => "*.a NSEC3 1 0 0 - 0P9MHAVEQVM6T7VBL5LOP2U3T2RP3TOM A",
        Code::BelowDname => "a DNAME b.example.\nc.a A 192.0.2.2",
        Code::Outside => "a.other. A 192.0.2.2",
        Code::MaxTtl => "a 700000 A 192.0.2.2",
        Code::NoOrigin => "a A 192.0.2.2",
        Code::HighOctet => "m%C3%BCller TXT \"a\"",
        Code::ControlOctet => "a TXT \"b%01c\"",
        Code::Crlf => "a TXT \"b\"%0D",
        Code::NestedParentheses => "a TXT ( \"b\" ( \"c\" ) )",
        Code::LeadingParenthesis => "( a TXT \"b\" )",
        Code::AdjacentTokens => "a TXT \"b\"\"c\"",
        Code::NoFinalNewline => "a TXT \"b\"%",
        Code::RelativeOrigin => "$ORIGIN a\nb A 192.0.2.2",
        Code::SoaMinimumTtl => "@ SOA ns h 1 4 2 9 5\n@ NS ns\nns A 192.0.2.1",
        Code::IncludeTtl => "$INCLUDE sub.db",
        Code::MissingDot => "a MX 10 ns.example",
        Code::GenerateDot => "$GENERATE 1-2 ${0,8,n} PTR ns",
        Code::EmptyUri => "a URI 10 1 \"\"",
        Code::TlsaLength => "_443._tcp.a TLSA 3 1 1 0011",
        Code::IpseckeyAlgorithm => "a IPSECKEY 10 1 0 192.0.2.38",
        Code::OhttpValue => "a HTTPS 1 . alpn=h2 key8=b",
        Code::Glue => "a NS ns.a",
        Code::TargetCname => "c CNAME ns\na MX 10 c",
        Code::TargetMissing => "a MX 10 mial",
        Code::HostName => "_x A 192.0.2.2",
        Code::Cds => "@ CDS 1 8 2 0000000000000000000000000000000000000000000000000000000000000000",
        Code::TtlDiffers => "a A 192.0.2.2\na 61 A 192.0.2.3",
        Code::Duplicate => "a A 192.0.2.2\na A 192.0.2.2",
        Code::NotAtApex => "a ZONEMD 1 1 240 000000000000000000000000",
        Code::KeyProtocol => "@ DNSKEY 257 4 8 AwEAAQ==",
        Code::KeyAlgorithm => "@ DNSKEY 257 3 0 AwEAAQ==",
        Code::CnameTargetMissing => "a CNAME b",
        Code::CnameLoop => "a CNAME b\nb CNAME a",
        Code::TwoSpf => "a TXT \"v=spf1 mx -all\"\na TXT \"v=spf1 a -all\"",
        Code::WeakDigest => "a NS ns\na DS 1 8 1 0000000000000000000000000000000000000000",
        Code::SingleNs => "$TTL 60\n@ SOA ns h 1 4 2 9 5\n@ NS ns\nns A 192.0.2.1",
        Code::Hidden => "sub NS ns\nsub NS ns.o.\nwww.sub CNAME x.o.",
        Code::NoDnskey => "a A 192.0.2.2",
        Code::Expired =>
            "a A 192.0.2.2\na RRSIG A 13 2 60 20200101000000 20191201000000 1037 example. AAAAAAAAAAAAAAAAAAAAAAAAAAAAAAAAAAAAAAAAAAAAAAAAAAAAAAAAAAAAAAAAAAAAAAAAAAAAAAAAAAAAAA==",
        Code::ExpiresSoon =>
            "a A 192.0.2.2\na RRSIG A 13 2 60 20260107000000 20251201000000 1037 example. AAAAAAAAAAAAAAAAAAAAAAAAAAAAAAAAAAAAAAAAAAAAAAAAAAAAAAAAAAAAAAAAAAAAAAAAAAAAAAAAAAAAAA==",
        Code::NotYetValid =>
            "a A 192.0.2.2\na RRSIG A 13 2 60 20390101000000 20381201000000 1037 example. AAAAAAAAAAAAAAAAAAAAAAAAAAAAAAAAAAAAAAAAAAAAAAAAAAAAAAAAAAAAAAAAAAAAAAAAAAAAAAAAAAAAAA==",
        Code::RrsigTimes =>
            "a A 192.0.2.2\na RRSIG A 13 2 60 20251201000000 20260101000000 1037 example. AAAAAAAAAAAAAAAAAAAAAAAAAAAAAAAAAAAAAAAAAAAAAAAAAAAAAAAAAAAAAAAAAAAAAAAAAAAAAAAAAAAAAA==",
        Code::RrsigSigner =>
            "a A 192.0.2.2\na RRSIG A 13 2 60 20260101000000 20251201000000 1037 other. AAAAAAAAAAAAAAAAAAAAAAAAAAAAAAAAAAAAAAAAAAAAAAAAAAAAAAAAAAAAAAAAAAAAAAAAAAAAAAAAAAAAAA==",
        Code::RrsigLabels =>
            "a A 192.0.2.2\na RRSIG A 13 1 60 20260101000000 20251201000000 1037 example. AAAAAAAAAAAAAAAAAAAAAAAAAAAAAAAAAAAAAAAAAAAAAAAAAAAAAAAAAAAAAAAAAAAAAAAAAAAAAAAAAAAAAA==",
        Code::OriginalTtl =>
            "a A 192.0.2.2\na 60 RRSIG A 13 2 300 20260101000000 20251201000000 1037 example. AAAAAAAAAAAAAAAAAAAAAAAAAAAAAAAAAAAAAAAAAAAAAAAAAAAAAAAAAAAAAAAAAAAAAAAAAAAAAAAAAAAAAA==",
        Code::RrsigTtl =>
            "a A 192.0.2.2\na 300 RRSIG A 13 2 60 20260101000000 20251201000000 1037 example. AAAAAAAAAAAAAAAAAAAAAAAAAAAAAAAAAAAAAAAAAAAAAAAAAAAAAAAAAAAAAAAAAAAAAAAAAAAAAAAAAAAAAA==",
        Code::Unsigned => "b A 192.0.2.2",
        Code::NoKey =>
            "a A 192.0.2.2\na RRSIG A 13 2 60 20260101000000 20251201000000 2 example. AAAAAAAAAAAAAAAAAAAAAAAAAAAAAAAAAAAAAAAAAAAAAAAAAAAAAAAAAAAAAAAAAAAAAAAAAAAAAAAAAAAAAA==",
        Code::KeyMissing =>
            "a A 192.0.2.2\na RRSIG A 13 2 60 20260101000000 20251201000000 2 example. AAAAAAAAAAAAAAAAAAAAAAAAAAAAAAAAAAAAAAAAAAAAAAAAAAAAAAAAAAAAAAAAAAAAAAAAAAAAAAAAAAAAAA==",
        Code::RrsigKey =>
            "a A 192.0.2.2\na RRSIG A 13 2 60 20260101000000 20251201000000 129 example. AAAAAAAAAAAAAAAAAAAAAAAAAAAAAAAAAAAAAAAAAAAAAAAAAAAAAAAAAAAAAAAAAAAAAAAAAAAAAAAAAAAAAA==",
        Code::SignsNothing =>
            "b RRSIG A 13 2 60 20260101000000 20251201000000 1037 example. AAAAAAAAAAAAAAAAAAAAAAAAAAAAAAAAAAAAAAAAAAAAAAAAAAAAAAAAAAAAAAAAAAAAAAAAAAAAAAAAAAAAAA==",
        Code::OccludedDnssec =>
            "sub NS ns\nb.sub RRSIG A 13 3 60 20260101000000 20251201000000 1037 example. AAAAAAAAAAAAAAAAAAAAAAAAAAAAAAAAAAAAAAAAAAAAAAAAAAAAAAAAAAAAAAAAAAAAAAAAAAAAAAAAAAAAAA==",
        Code::NoNsec =>
            "b A 192.0.2.2\nb RRSIG A 13 2 60 20260601000000 20251201000000 1037 example. AAAAAAAAAAAAAAAAAAAAAAAAAAAAAAAAAAAAAAAAAAAAAAAAAAAAAAAAAAAAAAAAAAAAAAAAAAAAAAAAAAAAAA==",
        Code::NsecNext => "a NSEC c.example. A RRSIG NSEC",
        Code::NsecTypes => "a NSEC example. AAAA RRSIG NSEC",
        Code::DsWithoutNs =>
            "a DS 1 8 2 0000000000000000000000000000000000000000000000000000000000000000",
        Code::NoNsec3 =>
            "b A 192.0.2.2\nb RRSIG A 13 2 60 20260601000000 20251201000000 1037 example. AAAAAAAAAAAAAAAAAAAAAAAAAAAAAAAAAAAAAAAAAAAAAAAAAAAAAAAAAAAAAAAAAAAAAAAAAAAAAAAAAAAAAA==",
        Code::Nsec3Next =>
            "0P9MHAVEQVM6T7VBL5LOP2U3T2RP3TOM NSEC3 1 0 0 - 0P9MHAVEQVM6T7VBL5LOP2U3T2RP3TOO A RRSIG",
        Code::Nsec3Types =>
            "0P9MHAVEQVM6T7VBL5LOP2U3T2RP3TOM NSEC3 1 0 0 - 0P9MHAVEQVM6T7VBL5LOP2U3T2RP3TON AAAA",
        Code::Nsec3Owner =>
            "0P9MHAVEQVM6T7VBL5LOP2U3T2RP3TOM.a NSEC3 1 0 0 - 0P9MHAVEQVM6T7VBL5LOP2U3T2RP3TON A",
        Code::Nsec3Iterations => "@ NSEC3PARAM 1 0 151 -",
        Code::Nsec3Iterations50 => "@ NSEC3PARAM 1 0 51 -",
        Code::Nsec3Iterations0 => "@ NSEC3PARAM 1 0 1 -",
        Code::NsecTtl => "a 7200 NSEC example. A RRSIG NSEC",
        Code::CdsDelete =>
            "@ CDS 0 0 0 00\n@ CDS 1 8 2 0000000000000000000000000000000000000000000000000000000000000000",
        Code::RrsigLength =>
            "a A 192.0.2.2\na RRSIG A 13 2 60 20260601000000 20251201000000 1037 example. AA==",
        Code::KeyLength => "@ DNSKEY 257 3 13 AA==",
        Code::Nsec3Extra =>
            "@ NSEC3PARAM 1 0 0 -\n0P9MHAVEQVM6T7VBL5LOP2U3T2RP3TOM NSEC3 1 0 0 - 0P9MHAVEQVM6T7VBL5LOP2U3T2RP3TON A RRSIG",
        Code::RrsigAlgorithm =>
            "@ DNSKEY 256 3 12 BQAA\na A 192.0.2.2\na RRSIG A 12 2 60 20260601000000 20251201000000 2316 example. AQIDBAU=",
        Code::OptOut =>
            "@ NSEC3PARAM 1 0 0 -\n0P9MHAVEQVM6T7VBL5LOP2U3T2RP3TOM NSEC3 1 0 0 - 2P9MHAVEQVM6T7VBL5LOP2U3T2RP3TOM A\n2P9MHAVEQVM6T7VBL5LOP2U3T2RP3TOM NSEC3 1 0 0 - 4P9MHAVEQVM6T7VBL5LOP2U3T2RP3TOM A\n4P9MHAVEQVM6T7VBL5LOP2U3T2RP3TOM NSEC3 1 1 0 - 0P9MHAVEQVM6T7VBL5LOP2U3T2RP3TOM A",
        Code::SpfType => "a SPF \"v=spf1 -all\"",
        Code::NaptrRegexp => "a NAPTR 1 1 \"u\" \"x\" \"!a!b\" .",
        Code::NaptrBoth => "a NAPTR 1 1 \"u\" \"x\" \"!a!b!\" b.example.",
        Code::CaaTag => "a CAA 0 isue \"ca.example\"",
        Code::SoaMail => "@ SOA ns admin\\@example 1 4 2 9 5",
        Code::SoaTimers => "@ SOA ns h 1 2 4 9 5",
        Code::ReverseName => "1.2.in-addr.arpa. PTR ns",
        Code::WildcardInside => "b.*.a TXT \"c\"",
        Code::TargetAddress => "a MX 10 192.0.2.1",
        Code::TxtWords => "a TXT v=spf1 -all",
        Code::CommentInData => "a TXT v=DKIM1; p=abc",
        Code::PtrDot => "$ORIGIN 2.0.192.in-addr.arpa.\n1 PTR host.example",
        Code::TlsaField =>
            "_25._tcp.ns TLSA 4 1 1 0000000000000000000000000000000000000000000000000000000000000000",
        Code::CaaValue => "@ CAA 0 issue \"ca_example\"",
        Code::Spf => "a TXT \"v=spf1 ip4:192.0.2.300 -all\"",
        Code::NullMx => "a MX 0 .\na MX 10 ns",
        Code::ZonemdSerial => "@ ZONEMD 2 1 240 000000000000000000000000",
        Code::TlsaHost =>
            "_443._tcp.a TLSA 3 1 1 0123456789012345678901234567890123456789012345678901234567890123",
        Code::SvcbAlias => "a HTTPS 0 o. alpn=h2",
        Code::CdsKey =>
            "@ CDS 1 13 2 ABABABABABABABABABABABABABABABABABABABABABABABABABABABABABABABAB",
        Code::CdsDiffers =>
            "@ CDS 1 13 2 ABABABABABABABABABABABABABABABABABABABABABABABABABABABABABABABAB\n@ CDNSKEY 257 3 13 AQID",
        Code::UnsignedApex =>
            "@ DNSKEY 257 3 13 AQID\na RRSIG A 13 2 60 20260601000000 20251201000000 1 example. AQID",
        Code::Unportable => "a=b TXT x",
        Code::KeyBesideCname => "a CNAME o.\na KEY 256 3 8 AQID",
        Code::SpfUnused => "a TXT \"v=spf1 -all mx\"",
        Code::Dmarc => "_dmarc TXT \"v=DMARC1; p=rejct\"",
        Code::Dkim => "s._domainkey TXT \"v=DKIM1; k=rsa\"",
        Code::Delegation => "a NS ns",
        Code::DelegationDs =>
            "a NS ns\na DS 1 13 2 ABABABABABABABABABABABABABABABABABABABABABABABABABABABABABABABAB",
        Code::GlueDiffers => "a NS ns.a\nns.a A 192.0.2.8",
        Code::Exception => "a A 192.0.2.2 ; zonetext: allow tll",
        Code::UnusedAllow => "a A 192.0.2.2 ; zonetext: allow host-name",
    }
}
